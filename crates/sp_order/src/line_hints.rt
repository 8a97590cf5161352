//! Advice about a line that a reader refused, from the line's text if it can be read again.
use crate::fields::Fields;
use sp_command::{Advice, FileKind, PredBits};
use sp_device::Read;
use sp_dimacs::Lines;
use sp_packed::FIRST;
use sp_text::Kind;

/// Where a line was refused, and why.
#[derive(Clone, Copy)]
pub struct Refused<'a> {
    /// The word that names the command.
    pub command: &'a str,
    /// The file with the line.
    pub file: FileKind,
    /// What is wrong with the line.
    pub kind: Kind,
    /// The layout in which the command runs.
    pub pred_bits: PredBits,
    /// The number of vertices of the graph, if it is known.
    pub vertices: Option<u64>,
}

/// Returns the advice about the line of a file that has this number.
pub fn advice_in<'a, R: Read + Drop>(
    refused: Refused<'a>,
    file: R,
    number: u64,
) -> Option<Advice<'a>> {
    let mut lines = Lines::new(file);
    let mut has_problem = false;
    for _ in 1..number {
        let Ok(Some(line)) = lines.next() else {
            return advice_without(refused);
        };
        has_problem = has_problem || Fields::of(line).at(0) == "p";
    }
    match lines.next() {
        Ok(Some(line)) => advice_on(refused, line, has_problem),
        _ => advice_without(refused),
    }
}

/// Returns the advice if the line can't be read again.
pub fn advice_without<'a>(refused: Refused<'a>) -> Option<Advice<'a>> {
    let file = refused.file;
    match refused.kind {
        Kind::LongLine => Some(Advice::LongLine),
        Kind::BadLine | Kind::SecondProblem => Some(Advice::Lines(file)),
        Kind::NoProblem => Some(Advice::NoProblem(file)),
        Kind::OutOfRange(field) => Some(range_of(refused, field)),
        Kind::TooMany => match file {
            FileKind::Tree => Some(Advice::Blocks),
            _ => Some(Advice::Count(file)),
        },
        Kind::TooFew => match file {
            FileKind::Tree => Some(Advice::CutTree),
            _ => Some(Advice::Count(file)),
        },
        Kind::Memory | Kind::Read => None,
    }
}

// Returns the advice about a line. The flag says whether a problem line comes before it.
fn advice_on<'a>(refused: Refused<'a>, line: &[u8], has_problem: bool) -> Option<Advice<'a>> {
    let file = refused.file;
    let fields = Fields::of(line);
    match refused.kind {
        Kind::BadLine | Kind::NoProblem => Some(advice_on_form(refused, line, has_problem)),
        Kind::TooMany if file == FileKind::Tree => Some(match fields.at(0) {
            "x" => too_far(refused),
            "p" => Advice::Blocks,
            _ => Advice::Lines(file),
        }),
        Kind::OutOfRange(field) => Some(match range_of(refused, field) {
            Advice::Vertex(_) if is_zero(fields, field) => Advice::FromZero,
            // An earlier line of this form may have the same vertex.
            Advice::Vertex(_) if fields.at(0) == "i" => Advice::Lines(file),
            advice => advice,
        }),
        _ => advice_without(refused),
    }
}

// Returns the advice about a line that has no valid form, or that comes before the problem line.
fn advice_on_form<'a>(refused: Refused<'a>, line: &[u8], has_problem: bool) -> Advice<'a> {
    let file = refused.file;
    let fields = Fields::of(line);
    if file != FileKind::Graph && begins_packed(line) {
        return Advice::Packed(file);
    }
    if is_foreign_comment(line) {
        return match file {
            FileKind::Tree => Advice::NoComments(file),
            _ => Advice::Comment,
        };
    }
    if let Some(found) = kind_of(fields, file)
        && found != file
    {
        return Advice::OtherFile {
            command: refused.command,
            found,
            wanted: file,
        };
    }
    if file == FileKind::Tree && fields.at(0) == "x" {
        return too_far(refused);
    }
    if !has_problem && fields.at(0) != "p" {
        return Advice::NoProblem(file);
    }
    match misspelled(fields, file) {
        Some(place) => advice_on_number(refused, fields, place),
        None => Advice::Lines(file),
    }
}

// Returns whether a line has the first word of a packed graph.
fn begins_packed(line: &[u8]) -> bool {
    match line {
        [first, second, third, fourth, ..] => {
            u32::from_le_bytes([*first, *second, *third, *fourth]) == FIRST
        }
        _ => false,
    }
}

// Returns whether a line is a comment of another format, or a comment whose `c` is joined to a word.
fn is_foreign_comment(line: &[u8]) -> bool {
    match line.trim_ascii_start() {
        [b'#' | b'%' | b';', ..] | [b'/', b'/' | b'*', ..] => true,
        [b'c', next, ..] => *next != b' ' && *next != b'\t',
        _ => false,
    }
}

// Returns the kind of file that has lines like this one, if it is known. The lines of replays and offers begin with
// letters that other files use too, and lists of targets have the same lines as lists of sources.
fn kind_of(fields: Fields<'_>, wanted: FileKind) -> Option<FileKind> {
    let is_run = wanted == FileKind::Replay || wanted == FileKind::Offers;
    let list = if wanted == FileKind::Targets {
        wanted
    } else {
        FileKind::Sources
    };
    match (fields.at(0), fields.at(1), fields.count) {
        ("p", "sp", _) => Some(FileKind::Graph),
        ("p", "aux", _) if fields.at(3) == "ss" => Some(list),
        ("p", "pairs", _) => Some(FileKind::Pairs),
        ("p", "spt", _) => Some(FileKind::Tree),
        ("p", "rep", _) => Some(FileKind::Replay),
        ("p", "off", _) => Some(FileKind::Offers),
        ("a", _, 4) if !is_run => Some(FileKind::Graph),
        ("s", _, 2) if !is_run => Some(list),
        ("q", _, 3) if !is_run => Some(FileKind::Pairs),
        ("v", _, 4) | ("e", _, 2) if !is_run => Some(FileKind::Tree),
        _ => None,
    }
}

fn too_far(refused: Refused<'_>) -> Advice<'_> {
    let farthest = match refused.vertices {
        Some(vertices) => PredBits::least_for(vertices),
        None => Some(PredBits::Bits20),
    };
    match farthest {
        Some(pred_bits) if pred_bits != refused.pred_bits => Advice::TooFar(Some(pred_bits)),
        _ => Advice::TooFar(None),
    }
}

// On a line with the right number of fields, returns the index of the first field that should be a number and isn't.
fn misspelled(fields: Fields<'_>, file: FileKind) -> Option<usize> {
    let (first, count) = numbers_on(fields.at(0), file)?;
    if fields.count != count {
        return None;
    }
    (first..count).find(|place| !is_number(fields.at(*place)))
}

// Returns the index of the first number on a line with this first field, and the number of the line's fields.
fn numbers_on(word: &str, file: FileKind) -> Option<(usize, usize)> {
    match (file, word) {
        (FileKind::Sources | FileKind::Targets, "p") => Some((4, 5)),
        (FileKind::Pairs, "p") => Some((2, 3)),
        (_, "p") => Some((2, 4)),
        (FileKind::Graph, "a") | (FileKind::Tree, "v") | (FileKind::Replay, "i") => Some((1, 4)),
        (FileKind::Pairs, "q") | (FileKind::Replay, "r") => Some((1, 3)),
        (FileKind::Sources | FileKind::Targets | FileKind::Replay, "s") | (FileKind::Tree, "e") =>
            Some((1, 2)),
        (FileKind::Replay | FileKind::Offers, "o") | (FileKind::Replay, "a") => Some((1, 5)),
        _ => None,
    }
}

fn is_number(field: &str) -> bool {
    field == "0" || !field.is_empty() && !field.starts_with('0') && field.bytes().all(is_digit)
}

fn is_digit(byte: u8) -> bool {
    byte.is_ascii_digit()
}

// Returns the advice about a field that isn't a number.
fn advice_on_number<'a>(refused: Refused<'a>, fields: Fields<'_>, place: usize) -> Advice<'a> {
    let field = fields.at(place);
    let is_digits = field.bytes().all(is_digit);
    match (refused.file, fields.at(0), place) {
        _ if is_digits || field.starts_with('+') => Advice::Spelling,
        (FileKind::Graph, "a", 3) if !field.starts_with('-') => match field.contains('.') {
            true => Advice::FractionOfLength,
            false => Advice::Length,
        },
        (FileKind::Graph, "a", 3) => Advice::Length,
        (FileKind::Graph, "a", _) => Advice::Vertex(refused.vertices),
        (FileKind::Sources | FileKind::Targets, "s", _) | (FileKind::Pairs, "q", _) => {
            Advice::Vertex(None)
        }
        _ => Advice::Spelling,
    }
}

// Returns whether the vertex in the field with this letter is 0.
fn is_zero(fields: Fields<'_>, field: u8) -> bool {
    let place = match (fields.at(0), field, fields.count) {
        ("a", b'U', 4) | ("s" | "i", b'V', _) | ("q", b'S', _) => 1,
        ("a", b'U', _) | ("a", b'V', 4) | ("o" | "r", b'V', _) | ("q", b'T', _) => 2,
        _ => 3,
    };
    fields.at(place) == "0"
}

// Returns the advice about the range of the field with this letter.
fn range_of(refused: Refused<'_>, field: u8) -> Advice<'_> {
    let pred = u64::from(refused.pred_bits.max_pred());
    let dist = refused.pred_bits.max_dist();
    let (first, last) = match (refused.file, field) {
        (FileKind::Graph, b'U' | b'V') => return Advice::Vertex(refused.vertices),
        (FileKind::Graph, b'W') | (FileKind::Replay, b'L') => return Advice::Length,
        (FileKind::Graph | FileKind::Tree, b'N') => (1, pred),
        (FileKind::Graph, b'M') => return Advice::Arcs,
        (FileKind::Sources | FileKind::Targets | FileKind::Pairs, b'K') => (0, 1_048_576),
        (FileKind::Sources | FileKind::Targets | FileKind::Pairs, _) => {
            return Advice::Vertex(Some(pred));
        }
        (FileKind::Tree, b'V') => return Advice::Rising,
        (FileKind::Tree, b'R') => return Advice::Rows,
        (_, b'N') => (1, 65_536),
        (_, b'K') => (1, 64),
        (_, b'D') => (0, dist),
        (FileKind::Replay | FileKind::Offers, b'P') => (0, pred),
        (_, b'S' | b'P' | b'U' | b'V') => return Advice::Vertex(None),
        _ => return Advice::Lines(refused.file),
    };
    Advice::Range { field, first, last }
}
