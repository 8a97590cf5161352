//! Lists of sources or of targets, given as a text or as numbers.
ghost use Rattle.std.specs.Prelude.{◌≡◌, ℕ, true, List, IfOk, IfErr, MatchResult};
ghost use Rattle.sp_word.specs.Word.{is_layout};
ghost use Rattle.sp_jobs.specs.Places.{AreNumbered};
ghost use Rattle.sp_jobs.specs.Listing.{AreAsked, AreRefused, HasLeft, IsNumbered, IsReadBy, MayRefuse, asked_in, numbers_of};

use crate::places::{Places, chosen};
use sp_dimacs::{DimacsError, Read, SsFile, read_ss};
use std::alloc::Global;

/// A list of sources or of targets.
#[derive(Drop)]
pub enum Listing<'a, S> {
    /// The vertices in the text of a device, or only those at some places of the list if places are given.
    InText(S, Option<Places>),
    /// These vertices.
    These(&'a [u32]),
}

/// The content of a list after it was read.
#[derive(Drop)]
pub enum Listed<'a> {
    /// What the text spells, and the requested places, if any.
    Spelled(SsFile, Option<Places>),
    /// The given vertices.
    These(&'a [u32]),
}

impl<'a, S: Read + Drop> Listing<'a, S> {
    /// Reads the list if it is a text.
    pub fn read<const P: u32>(self, alloc: Global) -> Result<Listed<'a>, DimacsError>
        requires layout { is_layout P ≡ true }
        requires numbered { IsNumbered self }
        ensures exact { (text : List ℕ) → HasLeft S.Read self.entry text → MatchResult result
            (λ listed. AreAsked P (asked_in self.entry text) (numbers_of listed))
            (AreRefused P (asked_in self.entry text)) }
        ensures found { IfOk result (λ listed.
            (text : List ℕ) × AreAsked P (asked_in self.entry text) (numbers_of listed)) }
        ensures read { IfOk result (IsReadBy P) }
        ensures may_fail { IfErr result (MayRefuse S.Read self.entry) }
    {
        match self {
            Listing::InText(device, places) => {
                let mut device = device;
                let list = read_ss::<P, S>(alloc, &mut device)?;
                Ok(Listed::Spelled(list, places))
            }
            Listing::These(numbers) => Ok(Listed::These(numbers)),
        }
    }
}

impl Listed<'_> {
    /// Returns the vertices.
    pub fn numbers<const P: u32>(&self) -> &[u32]
        requires { IsReadBy P self.now }
        ensures numbers { result.now ≡ numbers_of self.now }
        ensures numbered { AreNumbered result.now }
    {
        match self {
            Listed::Spelled(list, places) => chosen::<P>(*places, list),
            Listed::These(numbers) => numbers,
        }
    }
}
