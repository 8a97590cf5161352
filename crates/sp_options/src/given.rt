//! Numbers given on the command line, instead of a file of sources or of targets.
ghost use Rattle.std.specs.Prelude.{◌≡◌, ◌<◌, ◌^◌, ℕ, List, All, IfOk, MatchOption};
ghost use Rattle.clap.specs.Matches.{found_of, values_left};
ghost use Rattle.clap.specs.Walk.{rule_of};
ghost use Rattle.sp_options.specs.Rules.{given_rule};
ghost use Rattle.sp_jobs.specs.Places.{AreNumbered};
ghost use Rattle.sp_options.specs.Numbers.{SpellNumbers};
ghost use Rattle.sp_options.specs.Given.{AreGiven, LacksGiven};

use clap::parser::ValuesRef;
use clap::{Arg, ArgAction, ArgMatches, value_parser};
use std::alloc::{AllocError, Global};

// The greatest predecessor in any layout of a word.
const MAX_VERTEX: i64 = 4_294_967_294;

// The greatest number of numbers, which is the same as for a file.
const MOST_NUMBERS: usize = 1_048_576;

/// The name of the option that gives a source.
pub(crate) const SOURCE: &str = "source";

/// The name of the option that gives a target.
pub(crate) const TARGET: &str = "target";

/// Numbers given by an option of the command line. Each is at least 1, and there are at most as many as a file may
/// have.
#[derive(Drop)]
pub struct Given {
    pub list: Vec<u32>,
    ghost numbered: { AreNumbered list.items },
}

impl Given {
    /// Returns the option with this name, which gives a number. Its help is this text.
    pub fn option<'a>(alloc: Global, name: &'a str, about: &'a str) -> Arg<'a>
        ensures { rule_of result ≡ given_rule name.entry.now }
    {
        Arg::new(alloc, name)
            .long(name)
            .value_name("V")
            .value_parser(value_parser!(u32).range(1..=MAX_VERTEX))
            .action(ArgAction::Append)
            .help(about)
    }

    /// Reads the numbers that the option with this name gives, from what `clap` has found. Returns `None` if there are
    /// none, if one of them can't be the number of a vertex, or if there are too many.
    pub fn read(
        alloc: Global,
        given: &ArgMatches<'_>,
        name: &str,
    ) -> Result<Option<Given>, AllocError>
        ensures { IfOk result (λ found. MatchOption found
            (LacksGiven (found_of given.now) name.now)
            (λ numbers. AreGiven (found_of given.now) name.now numbers.list.items)) }
    {
        let Some(values) = given.get_many(name) else {
            return Ok(None);
        };
        match numbers_of(alloc, values)? {
            Some(list) => Ok(Given::new(list)),
            None => Ok(None),
        }
    }

    // Returns these numbers, or `None` if one of them is 0 or if there are too many.
    fn new(list: Vec<u32>) -> Option<Given>
        ensures { MatchOption result (¬ (AreNumbered list.items))
            (λ given. given.list.items ≡ list.items) }
    {
        if list.len() > MOST_NUMBERS {
            return None;
        }
        for number in &list {
            if *number == 0 {
                return None;
            }
        }
        Some(Given { list })
    }
}

// Returns the numbers that the values spell, or `None` if one of them isn't a number.
fn numbers_of(alloc: Global, values: ValuesRef<'_, '_, u32>) -> Result<Option<Vec<u32>>, AllocError>
    ensures { IfOk result (λ found. MatchOption found
        ((list : List ℕ) → SpellNumbers (values_left values.entry) list
        → All (λ v. v < 2 ^ 32) list → ⊥)
        (λ list. SpellNumbers (values_left values.entry) list.items)) }
{
    let mut list = Vec::new(alloc);
    for value in values {
        let Ok(number) = value else {
            return Ok(None);
        };
        list.push(number)?;
    }
    Ok(Some(list))
}
