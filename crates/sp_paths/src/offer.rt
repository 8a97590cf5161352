//! What an arc offers its head.
ghost use Rattle.std.specs.Prelude.{◌≡◌, ◌≤◌, true};
ghost use Rattle.sp_word.specs.Word.{is_layout, max_dist, max_pred};
ghost use Rattle.sp_paths.specs.Paths.{IsOffered};

use crate::arc::Arc;
use sp_word::Word;

/// What an arc offers its head.
#[derive(Clone, Copy, Debug, PartialEq, Eq)]
pub enum Offer<const P: u32> {
    /// Nothing: its tail is unreached.
    NoTail,
    /// Nothing: the sum of its tail's distance and its length is above the greatest distance of a word.
    Beyond,
    /// That sum, with its tail as the predecessor.
    Within(Word<P>),
}

impl Arc {
    /// Returns what the arc offers its head if its tail has the word `from`.
    #[inline(always)]
    pub fn offer<const P: u32>(self, from: Word<P>) -> Offer<P>
        requires layout { is_layout P ≡ true }
        requires tail { self.tail ≤ max_pred P }
        ensures { IsOffered (max_dist P) from.entry self result }
    {
        let Some(dist) = from.dist() else {
            return Offer::NoTail;
        };
        let sum = dist + u64::from(self.len);
        if sum > Word::<P>::max_dist() {
            return Offer::Beyond;
        }
        Offer::Within(Word::pack(sum, self.tail))
    }
}
