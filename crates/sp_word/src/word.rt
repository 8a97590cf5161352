//! The packed word.

ghost use Rattle.std.specs.Prelude.{◌≡◌, ◌<◌, ◌≤◌, ◌↔◌, true, IsTrue, IsSome, IfSome};
ghost use Rattle.sp_word.specs.Word.{Unreached, Pair, Fits, IsBelow, is_below, is_same, dist_of, pred_of, is_layout, max_dist, max_pred, bits_of, is_word, word_of, is_nearer};

use std::marker::Model;

/// A word: unreached, or a distance above a predecessor of `P` bits. `P` is 20, 24, 28 or 32; the prover rejects a program that
/// makes a word with another layout.
///
/// Words are ordered by distance, then by predecessor, with unreached last.
#[derive(Clone, Copy, Debug, PartialEq, Eq, PartialOrd, Ord)]
pub struct Word<const P: u32> {
    bits: u64,
}

impl<const P: u32> Model for Word<P> {
    ghost use Rattle.std.specs.Prelude.{◌≡◌, true};
    ghost use Rattle.sp_word.specs.Word.{Word as Label, is_layout, bits_of, is_word, word_of};

    ghost Value = { Label };

    ghost view = { λ w. word_of P w.bits };

    ghost invariant = { λ w. (is_layout P ≡ true) × (is_word P w.bits ≡ true) };

    ghost inverse = { λ w. record { bits = bits_of P w } };
}

impl<const P: u32> Word<P> {
    /// Returns the greatest distance.
    pub fn max_dist() -> u64
        requires { is_layout P ≡ true }
        ensures { result ≡ max_dist P }
    {
        (1 << (64 - P)) - 2
    }

    /// Returns the greatest predecessor, which is also the greatest vertex number.
    pub fn max_pred() -> u32
        requires { is_layout P ≡ true }
        ensures { result ≡ max_pred P }
    {
        ((1u64 << P) - 2) as u32
    }

    /// Returns the word of a vertex that no walk has reached.
    pub fn unreached() -> Word<P>
        requires { is_layout P ≡ true }
        ensures { result ≡ Unreached }
    {
        Word { bits: u64::MAX }
    }

    /// Packs a distance and a predecessor into a word.
    pub fn pack(dist: u64, pred: u32) -> Word<P>
        requires layout { is_layout P ≡ true }
        requires dist { dist ≤ max_dist P }
        requires pred { pred ≤ max_pred P }
        ensures { result ≡ Pair dist pred }
    {
        Word {
            bits: (dist << P) | pred as u64,
        }
    }

    /// Returns the 64 bits of the word: the distance above the predecessor, or all ones for unreached.
    pub fn bits(self) -> u64
        ensures { result ≡ bits_of P self.entry }
    {
        self.bits
    }

    /// Returns the word with these bits, or `None` if no word has them.
    pub fn of_bits(bits: u64) -> Option<Word<P>>
        requires { is_layout P ≡ true }
        ensures word { IfSome result (λ w. bits_of P w ≡ bits) }
        ensures exactly { IsSome result ↔ (is_word P bits ≡ true) }
    {
        let dist = bits >> P;
        let pred = bits % (1 << P);
        if bits == u64::MAX || dist < (1 << (64 - P)) - 1 && pred < (1 << P) - 1 {
            Some(Word { bits })
        } else {
            None
        }
    }

    /// Returns the word with these bits. Some word must have them; `of_bits` tests this.
    pub fn from_bits(bits: u64) -> Word<P>
        requires layout { is_layout P ≡ true }
        requires word { is_word P bits ≡ true }
        ensures word { result ≡ word_of P bits }
        ensures bits { bits_of P result ≡ bits }
        ensures range { Fits P result }
    {
        Word { bits }
    }

    /// Returns the distance, or `None` for unreached.
    pub fn dist(self) -> Option<u64>
        ensures dist { result ≡ dist_of self.entry }
        ensures range { Fits P self.entry }
    {
        if self.is_unreached() {
            None
        } else {
            Some(self.bits >> P)
        }
    }

    /// Returns the predecessor, or `None` for unreached.
    pub fn pred(self) -> Option<u32>
        ensures pred { result ≡ pred_of self.entry }
        ensures range { Fits P self.entry }
    {
        if self.is_unreached() {
            None
        } else {
            Some((self.bits % (1 << P)) as u32)
        }
    }

    /// Returns whether no walk has reached the vertex.
    pub fn is_unreached(self) -> bool
        ensures { IsTrue result ↔ (self.entry ≡ Unreached) }
    {
        self.bits == u64::MAX
    }

    /// Returns whether the two words are equal.
    pub fn is_same(self, other: Word<P>) -> bool
        ensures same { result ≡ is_same self.entry other.entry }
        ensures word { IsTrue result ↔ (self.entry ≡ other.entry) }
    {
        self.bits == other.bits
    }

    /// Returns whether this word is less than the other: by distance, then by predecessor, with unreached last.
    pub fn is_below(self, other: Word<P>) -> bool
        ensures test { result ≡ is_below self.entry other.entry }
        ensures order { IsTrue result ↔ IsBelow self.entry other.entry }
    {
        self.bits < other.bits
    }

    // Returns whether this word has a smaller distance than the other; unreached counts as farther than every pair.
    pub(crate) fn is_nearer(self, other: Word<P>) -> bool
        ensures { result ≡ is_nearer self.entry other.entry }
    {
        self.bits >> P < other.bits >> P
    }
}

/// States that the numeric order of the bits is the order of words.
pub fn bits_are_ordered<const P: u32>(a: Word<P>, b: Word<P>)
    ensures { IsBelow a.entry b.entry ↔ (bits_of P a.entry < bits_of P b.entry) }
{}

/// States that words with the same bits are equal.
pub fn bits_are_exact<const P: u32>(a: Word<P>, b: Word<P>)
    ensures { bits_of P a.entry ≡ bits_of P b.entry → a.entry ≡ b.entry }
{}
