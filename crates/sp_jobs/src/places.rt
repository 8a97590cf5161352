//! Places in a list of sources. A job answers only the sources at these places.
ghost use Rattle.std.specs.Prelude.{◌≡◌, ◌≤◌, ◌↔◌, IsSome, IfSome, Some};
ghost use Rattle.sp_dimacs.specs.Sources.{AreSourcesWithin};
ghost use Rattle.sp_jobs.specs.Places.{part_of, AreNumbered};

use sp_dimacs::SsFile;
use std::marker::Model;

/// The places of a list from a first one to a last one, both counted from 1. There are none if the last is less than
/// the first.
///
/// In contracts, the places are these two numbers.
#[derive(Clone, Copy, Debug, PartialEq, Eq)]
pub struct Places {
    first: u32,
    last: u32,
}

impl Model for Places {
    ghost use Rattle.std.specs.Prelude.{ℕ, ◌≤◌};

    ghost Value = { ℕ × ℕ };

    ghost view = { λ p. (p.first, p.last) };

    ghost invariant = { λ p. 1 ≤ p.first };

    ghost inverse = { λ v. record { first = v.0; last = v.1 } };
}

impl Places {
    /// Returns the places from `first` to `last`, or `None` if `first` is 0.
    pub fn new(first: u32, last: u32) -> Option<Places>
        ensures places { IfSome result (λ places. places ≡ (first, last)) }
        ensures exactly { IsSome result ↔ (1 ≤ first) }
    {
        if first == 0 {
            return None;
        }
        Some(Places { first, last })
    }

    /// Returns the part of a list at these places. Places beyond the end of the list are ignored.
    #[tactic(auto, using(std::proofs::lemmas::List::take_min, std::proofs::lemmas::List::drop_min))]
    pub fn of(self, list: &[u32]) -> &[u32]
        ensures { result.now ≡ part_of (Some self) list.now }
    {
        let upto = &list[..(self.last as usize).min(list.len())];
        &upto[(self.first as usize - 1).min(upto.len())..]
    }
}

/// Returns the sources of a file at these places, or all of them if no places are given.
#[tactic(auto, using(crate::proofs::PartsOfLists::chosen_numbered))]
pub fn chosen<const P: u32>(places: Option<Places>, file: &SsFile) -> &[u32]
    requires { AreSourcesWithin P file.now }
    ensures part { result.now ≡ part_of places file.now.sources.items }
    ensures numbered { AreNumbered result.now }
{
    match places {
        Some(places) => places.of(&file.sources),
        None => &file.sources,
    }
}
