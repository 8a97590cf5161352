//! The greatest distance to report.
ghost use Rattle.std.specs.Prelude.{◌≡◌, ℕ, true, Ok, Some, IfOk, IfErr, IfSome, MatchOption, MatchResult};
ghost use Rattle.sp_word.specs.Word.{is_layout};
ghost use Rattle.clap.specs.Matches.{found_of};
ghost use Rattle.clap.specs.Walk.{rule_of};
ghost use Rattle.sp_options.specs.Rules.{within_rule};
ghost use Rattle.sp_options.specs.Within.{HasLimit, IsLimit, LacksLimit, SpellsLimit};
ghost use Rattle.sp_command.specs.declared.faults.Fault.TheVariants.{LimitOutOfRange};

use crate::refusing::refuse;
use clap::{Arg, ArgMatches, Error, value_parser};
use sp_command::{Fault, valued};
use sp_word::Word;
use std::alloc::Global;

// The greatest distance in any layout of a word.
const MAX_LIMIT: u64 = 17_592_186_044_414;

const LONG: &str = "\
The greatest distance to report, from 0 to the greatest that fits (see
--pred-bits). A vertex beyond L has no line, however far it is, and
the run goes no farther, so a small part of a large graph takes little
time";

/// The greatest distance to report, if the command line gives one. It may be greater than the greatest distance of the
/// layout in which the command runs.
#[derive(Clone, Copy, Debug, PartialEq, Eq)]
pub struct Within {
    limit: Option<u64>,
}

impl Within {
    /// The identifier of the option for `clap`.
    pub const ID: &'static str = "within";

    /// Returns the option. It accepts any text as its value.
    pub fn option<'a>(alloc: Global) -> Arg<'a>
        ensures { rule_of result ≡ within_rule }
    {
        let about = "The greatest distance to report";
        valued(alloc, Self::ID, "L", about, LONG)
    }

    /// Reads the limit from what `clap` has found, if the option was given.
    ///
    /// If the text spells a limit, the result is that limit. Otherwise it is the error with which `clap` refuses a
    /// number out of range or a text that isn't a number; if `clap` accepted the text, the result would be `None`.
    pub fn read(alloc: Global, given: &ArgMatches<'_>) -> Result<Option<Within>, Error>
        ensures read { IfOk result (λ found. MatchOption found
            (LacksLimit (found_of given.now))
            (λ within. HasLimit (found_of given.now) within.limit)) }
        ensures refused { IfErr result (λ _. LacksLimit (found_of given.now)) }
    {
        let Some(text) = given.get_str(Self::ID) else {
            return Ok(Some(Within { limit: None }));
        };
        Ok(match read_limit(alloc, text)? {
            Some(limit) => Some(Within { limit: Some(limit) }),
            None => None,
        })
    }

    /// Returns the limit for answers in words with `P` bits of predecessor, if there is one; or a fault if it is
    /// greater than their greatest distance.
    pub fn limit_for<const P: u32>(self) -> Result<Option<u64>, Fault>
        requires { is_layout P ≡ true }
        ensures exactly { MatchResult result (λ _. IsLimit P self.limit)
            (λ fault. ¬ (IsLimit P self.limit) × (fault ≡ LimitOutOfRange)) }
        ensures limit { IfOk result (λ limit. limit ≡ self.limit) }
    {
        match self.limit {
            Some(limit) if limit > Word::<P>::max_dist() => Err(Fault::LimitOutOfRange),
            limit => Ok(limit),
        }
    }
}

// Reads a limit from the option's text, or returns the error with which `clap` refuses the text.
fn read_limit(alloc: Global, text: &str) -> Result<Option<u64>, Error>
    ensures spelled { IfOk result (λ found. IfSome found (SpellsLimit text.now)) }
    ensures exactly { (limit : ℕ) → SpellsLimit text.now limit → result ≡ Ok (Some limit) }
{
    match number_in(text) {
        Some(limit) => Ok(Some(limit)),
        None => {
            let parser = value_parser!(u64).range(0..=MAX_LIMIT as i64);
            let option = Within::option(alloc).value_parser(parser);
            let word = format!(in alloc; "--within={text}")?;
            refuse(alloc, option, &["spt", word.as_str()])
        }
    }
}

// Returns the number that a text spells, if it is at most the greatest distance in any layout.
fn number_in(text: &str) -> Option<u64>
    ensures { MatchOption result ((limit : ℕ) → SpellsLimit text.now limit → ⊥)
        (SpellsLimit text.now) }
{
    let number = text.parse().ok()?;
    if number > MAX_LIMIT {
        return None;
    }
    Some(number)
}
