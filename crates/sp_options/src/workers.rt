//! The number of workers: a number, or the number of processors.
ghost use Rattle.std.specs.Prelude.{◌≡◌, ℕ, Ok, Some, IfOk, IfSome, MatchOption};
ghost use Rattle.sp_word.specs.Ranges.{IsCrew};
ghost use Rattle.clap.specs.Walk.{rule_of};
ghost use Rattle.sp_options.specs.Rules.{workers_rule};
ghost use Rattle.sp_options.specs.Numbers.{SpellsNumber};
ghost use Rattle.sp_options.specs.Workers.{SpellsWorkers};

use crate::refusing::refuse;
use clap::{Arg, Error, value_parser};
use sp_command::valued;
use sp_word::{MOST_WORKERS, Workers};
use std::alloc::Global;

/// The identifier of the option for `clap`.
pub const WORKERS: &str = "workers";

// The word for one worker per processor. A run never starts more than that.
const ALL: &str = "all";

/// Returns the option. It accepts any text as its value. Its help adds the text `more`.
pub fn workers_option<'a>(alloc: Global, more: &'a str) -> Arg<'a>
    ensures { rule_of result ≡ workers_rule }
{
    let about = "The maximum number of threads, or `all`";
    valued(alloc, WORKERS, "W", about, more).default_value("1")
}

/// Reads a number of workers from the option's text.
///
/// If the text spells one, the result is that number. Otherwise it is the error with which `clap` refuses a number out
/// of range or a text that isn't a number; if `clap` accepted the text, the result would be `None`.
pub fn read_workers(alloc: Global, text: &str) -> Result<Option<Workers>, Error>
    ensures spelled { IfOk result (λ found. IfSome found (SpellsWorkers text.now)) }
    ensures exactly { (workers : ℕ) → SpellsWorkers text.now workers
        → result ≡ Ok (Some workers) }
{
    if text == ALL {
        return Ok(Workers::new(MOST_WORKERS));
    }
    match number_in(text) {
        Some(workers) => Ok(Some(workers)),
        None => {
            let parser = value_parser!(u32).range(1..=MOST_WORKERS as i64);
            let option = workers_option(alloc, "").value_parser(parser);
            let word = format!(in alloc; "--workers={text}")?;
            refuse(alloc, option, &["spt", word.as_str()])
        }
    }
}

// Returns the number that a text spells, if it is a possible number of workers.
fn number_in(text: &str) -> Option<Workers>
    ensures { MatchOption result ((number : ℕ) → SpellsNumber text.now number → IsCrew number → ⊥)
        (λ number. SpellsNumber text.now number × IsCrew number) }
{
    Workers::new(text.parse().ok()?)
}
