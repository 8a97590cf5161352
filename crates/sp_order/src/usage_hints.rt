//! The second lines for words that name no valid command. They follow the text of `clap`.
use clap::Error;
use clap::error::ErrorKind;
use sp_command::{Hint, PlacesFault};
use std::fmt;
use std::fmt::Write as _;

/// Returns the second line for words that `clap` refuses, if there is one.
pub fn usage_hint<'a>(error: &Error) -> Option<Hint<'a>> {
    match error.kind() {
        ErrorKind::ValueValidation | ErrorKind::InvalidValue => value_hint(error),
        ErrorKind::MissingRequiredArgument => missing_hint(error),
        ErrorKind::ArgumentConflict => conflict_hint(error),
        ErrorKind::UnknownArgument => unknown_hint(error),
        ErrorKind::InvalidSubcommand => Some(Hint::Words(COMMAND_FIRST)),
        _ => None,
    }
}

// Returns what an option's value must be, if the value is wrong or missing.
fn value_hint<'a>(error: &Error) -> Option<Hint<'a>> {
    if tells(error, "for '--delta <D>'") {
        Some(Hint::AnyDelta)
    } else if tells(error, "for '--within <L>'") {
        Some(Hint::AnyLimit)
    } else if tells(error, "for '--source <V>'") {
        Some(Hint::NoVertex {
            what: "source",
            option: "--source",
        })
    } else if tells(error, "for '--target <V>'") {
        Some(Hint::NoVertex {
            what: "target",
            option: "--target",
        })
    } else {
        told_of(VALUES, error).map(Hint::Words)
    }
}

// What the values of other options must be, with the words of `clap` that name each option.
const VALUES: &[(&str, &str)] = &[
    ("for '--workers <W>'", "W is a number from 1 to 64, or all"),
    (
        "for '--sources <A-B>'",
        "A-B is two numbers with a `-` between them, as in 1-100",
    ),
    (
        "for '--output <OUT>'",
        "OUT is the file for the output, or - for standard output",
    ),
];

fn missing_hint<'a>(error: &Error) -> Option<Hint<'a>> {
    if tells(error, "\n  <SS>\n") {
        Some(Hint::NoSources)
    } else if tells(error, "\n  --delta <D>\n") {
        Some(Hint::NoDelta)
    } else {
        None
    }
}

fn conflict_hint<'a>(error: &Error) -> Option<Hint<'a>> {
    if tells(error, "'--source <V>'") && tells(error, "'--sources <A-B>'") {
        return Some(Hint::Words(
            "--sources selects from a file of sources; --source V gives a source itself",
        ));
    }
    told_of(CONFLICTS, error).map(Hint::Words)
}

// Options that can't be used with a file, with the words of `clap` that name each.
const CONFLICTS: &[(&str, &str)] = &[
    (
        "'--source <V>'",
        "give the sources in a file, or each with --source V, but not both",
    ),
    (
        "'--target <V>'",
        "give the targets in a file, or each with --target V, but not both",
    ),
];

const COMMAND_FIRST: &str =
    "name a command first: tree, pairs, matrix, nearest, check, pack, replay or offers";

// Returns advice about an unexpected word.
fn unknown_hint<'a>(error: &Error) -> Option<Hint<'a>> {
    if tells(error, " <COMMAND>\n") {
        return Some(Hint::Words(COMMAND_FIRST));
    }
    for (found, option, commands) in OPTIONS {
        if tells(error, found) {
            return Some(Hint::OfCommands { option, commands });
        }
    }
    let words = match next_to(error, "unexpected argument '-") {
        Some('-') => return None,
        Some('0'..='9' | '.') => "numbers are whole, and have no sign",
        Some(_) => {
            "an option of several letters begins with --; write ./ before a file name that begins with -"
        }
        None => "too many files are named; put quotes around a name that has blanks",
    };
    Some(Hint::Words(words))
}

// Options that some commands don't have: the words of `clap`, the option, and the commands that have it.
const OPTIONS: &[(&str, &str, &str)] = &[
    (
        "unexpected argument '--within' found",
        "--within",
        "tree, nearest and check",
    ),
    (
        "unexpected argument '--source' found",
        "--source",
        "tree, matrix and nearest",
    ),
    (
        "unexpected argument '--sources' found",
        "--sources",
        "tree, matrix and nearest",
    ),
    ("unexpected argument '--target' found", "--target", "matrix"),
    (
        "unexpected argument '--delta' found",
        "--delta",
        "tree, pairs, matrix and nearest",
    ),
    (
        "unexpected argument '--far-ok' found",
        "--far-ok",
        "tree, pairs, matrix and nearest",
    ),
    (
        "unexpected argument '--towards' found",
        "--towards",
        "tree, pairs, matrix, nearest, check and pack",
    ),
    (
        "unexpected argument '--both-ways' found",
        "--both-ways",
        "tree, pairs, matrix, nearest, check and pack",
    ),
    (
        "unexpected argument '--workers' found",
        "--workers",
        "tree, pairs, matrix, nearest and pack",
    ),
    (
        "unexpected argument '--progress' found",
        "--progress",
        "tree, pairs, matrix, nearest and pack",
    ),
    ("unexpected argument '--all' found", "--all", "check"),
    ("unexpected argument '--svg' found", "--svg", "replay"),
];

/// Returns what is wrong with a refused word for places of sources.
pub fn places_hint(word: &str) -> Hint<'_> {
    Hint::Places {
        word,
        why: places_fault(word),
    }
}

fn places_fault(word: &str) -> PlacesFault {
    match numbers_of(word) {
        None => PlacesFault::Spelling,
        Some((0, _)) => PlacesFault::FromZero,
        Some(_) => PlacesFault::Backwards,
    }
}

// Returns the numbers of `A-B`.
fn numbers_of(word: &str) -> Option<(u32, u32)> {
    let (first, last) = word.split_once('-')?;
    Some((first.parse().ok()?, last.parse().ok()?))
}

/// A writer that looks for some words in a text, and keeps the character after them.
#[derive(Drop)]
struct Finder<'w> {
    words: &'w str,
    has_found: bool,
    next: Option<char>,
}

impl<'w> Finder<'w> {
    // Searches an error's text, which is written in one piece.
    fn search(error: &Error, words: &'w str) -> Finder<'w> {
        let mut finder = Finder {
            words,
            has_found: false,
            next: None,
        };
        let _ = write!(finder, "{error}");
        finder
    }
}

impl fmt::Write for Finder<'_> {
    fn write_str(&mut self, text: &str) -> fmt::Result {
        if let Some((_, behind)) = text.split_once(self.words) {
            self.has_found = true;
            self.next = behind.chars().next();
        }
        Ok(())
    }
}

// Returns whether an error's text contains these words.
fn tells(error: &Error, words: &str) -> bool {
    Finder::search(error, words).has_found
}

// Returns the character after these words in an error's text.
fn next_to(error: &Error, words: &str) -> Option<char> {
    Finder::search(error, words).next
}

// Returns the advice for the first words of a table that an error's text contains.
fn told_of(table: &'static [(&'static str, &'static str)], error: &Error) -> Option<&'static str> {
    for (found, words) in table {
        if tells(error, found) {
            return Some(words);
        }
    }
    None
}
