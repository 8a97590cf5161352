//! The places in a file of sources, as a command line names them.
ghost use Rattle.std.specs.Prelude.{◌≡◌, ◌<◌, ◌≤◌, ◌^◌, ℕ, MatchOption};
ghost use Rattle.std.specs.Option.{SomeIff};
ghost use Rattle.sp_options.specs.Numbers.{SpellsNumber};
ghost use Rattle.sp_options.specs.Places.{ArePlacesIn};

use sp_jobs::Places;

/// Returns the places in a word `A-B`, or `None` if A or B isn't a number, A is 0, or B is less than A.
pub fn places_of(text: &str) -> Option<Places>
    ensures { ArePlacesIn text.now result }
{
    let (first, last) = text.split_once('-')?;
    places_between(number_in(first)?, number_in(last)?)
}

// Returns the number that a word spells, if it is one.
fn number_in(word: &str) -> Option<u32>
    ensures { MatchOption result ((n : ℕ) → n < 2 ^ 32 → SpellsNumber word.now n → ⊥)
        (SpellsNumber word.now) }
{
    word.parse().ok()
}

// Returns the places from `first` to `last`, or `None` if `first` is 0 or `last` is less than `first`.
fn places_between(first: u32, last: u32) -> Option<Places>
    ensures { SomeIff result ((1 ≤ first) × (first ≤ last)) (first, last) }
{
    if last < first {
        return None;
    }
    Places::new(first, last)
}
