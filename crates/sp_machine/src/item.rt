//! The items of an actor.

use sp_word::Word;

/// An item that an actor carries out.
#[derive(Clone, Copy, Debug, PartialEq, Eq)]
pub enum Item<const P: u32> {
    /// Offers a pair to a vertex.
    Offer { vertex: u32, word: Word<P> },
    /// Reads the word of a vertex.
    Read { vertex: u32 },
    /// Relaxes an arc: reads the tail's word and, if that is a pair and the sum of its distance and the length fits a
    /// word, offers the sum and the tail to the head.
    Relax { tail: u32, head: u32, len: u32 },
}
