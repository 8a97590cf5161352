//! The two ways to lower a word.
ghost use Rattle.std.specs.Prelude.{◌≡◌, ℕ, ◌≤◌, ◌<◌, Bool, true, false};
ghost use Rattle.sp_word.specs.Word.{is_word};
ghost use Rattle.sp_offer.specs.Story.{IsTried};
ghost use Rattle.sp_offer.specs.Parts.{id_of, vertices_of, layout_of, word_in, law_in, Lowers, Goes};
ghost use Rattle.sp_offer.specs.Lowering.{Finding, by_steps, by_one_step};
ghost use Rattle.sp_offer.specs.Rule.{seat_story, IsAtRest, IsSameSeat};

use crate::atomic_words::{CallerSeat, Words};
use crate::law::Lawful;
use std::marker::Brand;

/// A way to lower a word, given by its bits.
pub trait Lowering {
    // Whether it takes at most one atomic step.
    ghost is_one_step: { Bool };

    // Describes the words that its steps find.
    ghost finds: { Finding };

    /// Leaves the lesser of the word of the vertex and the word offered. Returns the word that decided this, and the
    /// number of atomic steps.
    fn lower<L: Lawful>(
        words: &Words<L>,
        seat: &mut CallerSeat,
        vertex: u32,
        word: u64,
    ) -> (u64, u64)
        requires vertex { (0 < vertex) × (vertex ≤ vertices_of words.now) }
        requires seat { IsAtRest (id_of words.now) seat.old }
        requires word { law_in L.allows words.now vertex (word_in words.now word) }
        ensures seat { IsAtRest (id_of words.now) seat.new × IsSameSeat seat.old seat.new }
        ensures word { is_word (layout_of words.now) result.0 ≡ true }
        ensures call { Lowers L.allows words.now vertex word result.0 seat.old seat.new }
        ensures tries { IsTried vertex (seat_story seat.old) (seat_story seat.new) result.1 }
        ensures one { Self.is_one_step ≡ true → result.1 ≡ 1 }
        ensures steps { Goes Self.finds words.now vertex word result.0 result.1 seat.old seat.new };
}

/// Lowers by a load followed by exchanges, until one succeeds or finds a word that is no larger than the word offered.
pub struct Loop;

impl Lowering for Loop {
    ghost is_one_step = { false };

    ghost finds = { by_steps };

    #[tactic(auto, using(crate::proofs::Ties::spelled))]
    fn lower<L: Lawful>(
        words: &Words<L>,
        seat: &mut CallerSeat,
        vertex: u32,
        word: u64,
    ) -> (u64, u64) {
        words.lower::<Brand>(seat, vertex, word)
    }
}

/// Lowers by a single atomic step that leaves the lesser of two words.
pub struct OneMin;

impl Lowering for OneMin {
    ghost is_one_step = { true };

    ghost finds = { by_one_step };

    #[tactic(auto, using(crate::proofs::Ties::spelled))]
    fn lower<L: Lawful>(
        words: &Words<L>,
        seat: &mut CallerSeat,
        vertex: u32,
        word: u64,
    ) -> (u64, u64) {
        (words.lessen::<Brand>(seat, vertex, word), 1)
    }
}
