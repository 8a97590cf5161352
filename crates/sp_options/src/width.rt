//! The width of a bucket: a number, or the mean length of an arc.
ghost use Rattle.std.specs.Prelude.{◌≡◌, ◌≤◌, ℕ, true, Ok, Some, IfOk, IfSome, MatchOption};
ghost use Rattle.std.specs.Option.{SomeIff};
ghost use Rattle.sp_word.specs.Word.{is_layout};
ghost use Rattle.clap.specs.Walk.{rule_of};
ghost use Rattle.sp_options.specs.Rules.{mean_rule, width_rule};
ghost use Rattle.sp_options.specs.Numbers.{SpellsNumber};
ghost use Rattle.sp_options.specs.Width.{bucket_of, IsBucket, SpellsWidth};

use crate::refusing::refuse;
use clap::{Arg, Error, value_parser};
use sp_command::valued;
use sp_jobs::BucketWidth;
use sp_word::Delta;
use std::alloc::Global;

// The greatest distance in any layout of a word.
const MAX_DELTA: u64 = 17_592_186_044_414;

// The word for the mean length.
const MEAN: &str = "mean";

const LONG: &str = "\
The width of a bucket of tentative distances, from 1 to the greatest
distance that fits (see --pred-bits), or `mean` for the mean length of
an arc, rounded down. The mean is a good choice, and so is anything
from a third of it to thirty times as much. The output is the same for
any delta";

/// The width of a bucket as the command line gives it. It may be greater than the greatest distance of the layout in which
/// the command runs.
#[derive(Clone, Copy, Debug, PartialEq, Eq)]
pub enum Width {
    /// This width.
    Number(u64),
    /// The mean length of an arc.
    MeanLength,
}

impl Width {
    /// The identifier of the option for `clap`.
    pub const ID: &'static str = "delta";

    /// Returns the option. It accepts any text as its value.
    pub fn option<'a>(alloc: Global) -> Arg<'a>
        ensures { rule_of result ≡ width_rule }
    {
        let about = "The width of a bucket of tentative distances, or `mean`";
        valued(alloc, Self::ID, "D", about, LONG).required(true)
    }

    /// Returns the same option, with the value `mean` if it isn't given.
    pub fn option_or_mean<'a>(alloc: Global) -> Arg<'a>
        ensures { rule_of result ≡ mean_rule }
    {
        let about = "The width of a bucket of distances";
        valued(alloc, Self::ID, "D", about, LONG).default_value(MEAN)
    }

    /// Reads a width from the option's text.
    ///
    /// If the text spells a width, the result is that width. Otherwise it is the error with which `clap` refuses a
    /// number out of range or a text that isn't a number; if `clap` accepted the text, the result would be `None`.
    pub fn read(alloc: Global, text: &str) -> Result<Option<Width>, Error>
        ensures spelled { IfOk result (λ found. IfSome found (SpellsWidth text.now)) }
        ensures exactly { (width : Width) → SpellsWidth text.now width
            → result ≡ Ok (Some width) }
    {
        if text == MEAN {
            return Ok(Some(Width::MeanLength));
        }
        match number_in(text) {
            Some(number) => Ok(Some(Width::Number(number))),
            None => {
                let parser = value_parser!(u64).range(1..=MAX_DELTA as i64);
                let option = Self::option(alloc).value_parser(parser);
                let word = format!(in alloc; "--delta={text}")?;
                refuse(alloc, option, &["spt", word.as_str()])
            }
        }
    }

    /// Returns the width for runs in words with `P` bits of predecessor, or `None` if it is greater than their greatest
    /// distance.
    pub fn bucket<const P: u32>(self) -> Option<BucketWidth<P>>
        requires { is_layout P ≡ true }
        ensures { SomeIff result (IsBucket P self) (bucket_of self) }
    {
        match self {
            Width::Number(number) => Some(BucketWidth::Of(Delta::new(number)?)),
            Width::MeanLength => Some(BucketWidth::MeanLength),
        }
    }
}

// Returns the number that a text spells, if it is at least 1 and at most the greatest distance in any layout.
fn number_in(text: &str) -> Option<u64>
    ensures { MatchOption result ((number : ℕ) → SpellsWidth text.now (Width.Number number) → ⊥)
        (λ number. SpellsWidth text.now (Width.Number number)) }
{
    let number = text.parse().ok()?;
    if number < 1 || number > MAX_DELTA {
        return None;
    }
    Some(number)
}
