//! The words of a command line, and the order that they give.
ghost use Rattle.std.specs.Prelude.{◌≡◌, ◌≢◌, ◌↔◌, true, false, IfOk, IfErr, IsOk, IsSome, MatchOption, MatchResult, option_map};
ghost use Rattle.clap.specs.Words.{found_of, kind_of};
ghost use Rattle.clap.specs.Simple.{app_of};
ghost use Rattle.clap.specs.Walk.{texts};
ghost use Rattle.sp_command.specs.Reading.{IsRefusedFor};
ghost use Rattle.sp_order.specs.Reads.{IsDisordered, IsLayout, IsOrdered, IsOrderIn, IsRefusedIn, IsRunIn, IsShowOf, LacksLayout, LacksOrder, bare_app};
ghost use Rattle.sp_order.specs.Words.{is_text, names_output, output_of, NamesOutput, NamesNoOutput};
ghost use Rattle.sp_command.specs.declared.faults.Fault.TheVariants.{Memory, Usage};

use crate::help;
use clap::error::ErrorKind;
use clap::{ArgMatches, Command, Error};
use sp_command::{Commands, Fault, OUTPUT, PLACES, PredBits};
use std::alloc::Global;
use std::fmt::Display;

/// A text to show, made from the error of `clap`.
pub trait UsageText: Display + From<Error> + Drop {}

impl<T: Display + From<Error> + Drop> UsageText for T {}

/// The order that a command line gives.
#[derive(Drop)]
pub enum Order<'a, C, T> {
    /// Shows a text of help, or the version.
    Show(T),
    /// Runs a command, in words with this many bits of predecessor. Its output goes to a file if one is named, and
    /// otherwise to standard output. If there is a word for places of its sources, the order keeps it for error
    /// messages.
    Run {
        command: C,
        pred_bits: PredBits,
        output: Option<&'a str>,
        places: Option<&'a str>,
    },
}

impl<'a, C, T> Order<'a, C, T> {
    /// Returns the file to which the output goes, if there is one.
    pub fn output(&self) -> Option<&'a str>
        ensures named { IsSome result ↔ (names_output self.now ≡ true) }
        ensures path { option_map (λ path. path.now) result ≡ output_of self.now }
    {
        match self {
            Order::Show(_) => None,
            Order::Run { output, .. } => *output,
        }
    }
}

/// Reads the words, the first of which is the program's name.
pub fn read_order<'a, C: Commands<'a>, T: UsageText>(
    alloc: Global,
    words: &'a [&'a str],
) -> Result<Order<'a, C, T>, Fault>
    ensures { MatchResult result (IsOrdered C.Commands T.from_gives (texts words.now))
        (IsDisordered C.Commands (texts words.now)) }
{
    match match_words(alloc, words) {
        Ok(order) => Ok(order),
        Err(error) => answer_to(error),
    }
}

/// Returns the order if `clap` found no valid command in the words. A request for help also arrives in this way.
pub fn answer_to<'a, C: Drop, T: UsageText>(error: Error) -> Result<Order<'a, C, T>, Fault>
    ensures memory { kind_of error ≡ ErrorKind.OutOfMemory → result ≡ Err Memory }
    ensures text { is_text (kind_of error) ≡ true
        → IfOk result (IsShowOf T.from_gives error) × IsOk result }
    ensures usage { kind_of error ≢ ErrorKind.OutOfMemory
        → is_text (kind_of error) ≡ false → result ≡ Err (Usage error) }
{
    match error.kind() {
        ErrorKind::OutOfMemory => Err(Fault::Memory),
        ErrorKind::DisplayHelp | ErrorKind::DisplayVersion => Ok(Order::Show(T::from(error))),
        _ => Err(Fault::Usage(error)),
    }
}

fn match_words<'a, C: Commands<'a>, T: Drop>(
    alloc: Global,
    words: &'a [&'a str],
) -> Result<Order<'a, C, T>, Error>
    ensures { MatchResult result (IsRunIn C.Commands (texts words.now))
        (IsRefusedIn C.Commands (texts words.now)) }
{
    let mut program = C::add_to(told_of_all(alloc), alloc)?;
    match program.try_get_matches_from_mut(words) {
        Ok(matches) => match order_of(alloc, &matches) {
            Ok(Some(order)) => Ok(order),
            // `clap` accepted the command's words, but they contain something that the command can't read.
            Ok(None) => Err(program.error(ErrorKind::MissingSubcommand, "a command is needed")?),
            Err(error) => Err(error),
        },
        Err(error) => Err(error),
    }
}

fn order_of<'a, C: Commands<'a>, T: Drop>(
    alloc: Global,
    matches: &ArgMatches<'a>,
) -> Result<Option<Order<'a, C, T>>, Error>
    ensures read { IfOk result (λ found. MatchOption found
        (LacksOrder C.Commands matches.now) (IsOrderIn C.Commands matches.now)) }
    ensures refused { IfErr result (IsRefusedFor (LacksOrder C.Commands matches.now)) }
{
    let Some((name, given)) = matches.subcommand() else {
        return Ok(None);
    };
    let Some(command) = C::read_named(alloc, name, given)? else {
        return Ok(None);
    };
    let Some(pred_bits) = layout_of(given) else {
        return Ok(None);
    };
    Ok(Some(Order::Run {
        command,
        pred_bits,
        output: output_of(given),
        places: given.get_str(PLACES),
    }))
}

// Returns the layout, if its value is valid.
fn layout_of(given: &ArgMatches<'_>) -> Option<PredBits>
    ensures { MatchOption result (LacksLayout (found_of given.now))
        (IsLayout (found_of given.now)) }
{
    given.get_one(PredBits::ID)
}

// Returns the file for the output, if it isn't standard output.
fn output_of<'a>(given: &ArgMatches<'a>) -> Option<&'a str>
    ensures path { MatchOption result (NamesNoOutput (found_of given.now))
        (λ path. NamesOutput (found_of given.now) path.now) }
{
    match given.get_str(OUTPUT) {
        Some("-") => None,
        path => path,
    }
}

// Returns the program without its commands: what help says about all of them.
fn told_of_all<'a>(alloc: Global) -> Command<'a>
    ensures { app_of result ≡ bare_app }
{
    Command::new(alloc, "spt")
        .version("1.6.0")
        .about(help::PROGRAM)
        .after_help(help::PROGRAM_MORE)
        .subcommand_required(true)
        .arg_required_else_help(true)
}
