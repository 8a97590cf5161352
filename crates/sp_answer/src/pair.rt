//! The answer of a run for one target of its source.
ghost use Rattle.std.specs.Prelude.{◌≡◌};
ghost use Rattle.sp_answer.specs.Pair.{answer_of, answer_by};

use sp_word::Word;

/// The answer for a target of a source, in 16 bytes. The fields are in memory in the order in which they are declared.
#[derive(Clone, Copy, Debug, PartialEq, Eq)]
pub enum PairAnswer {
    /// The target's word in the tree: its least length, and the smallest-numbered vertex before it on a walk of that
    /// length.
    Found { pred: u32, dist: u64 },
    /// The target has no least length that fits a word, and this is the smallest vertex that is too far.
    TooFar(u32),
    /// No walk leads to the target.
    NoWalk,
}

impl PairAnswer {
    /// Returns the answer for a vertex, given its word in the tree. If the word is unreached, the vertex that is too far decides.
    pub fn of_word<const P: u32>(word: Word<P>, far: Option<u32>) -> PairAnswer
        ensures { answer_of result ≡ answer_by word.entry far }
    {
        if let (Some(dist), Some(pred)) = (word.dist(), word.pred()) {
            return PairAnswer::Found { dist, pred };
        }
        match far {
            Some(vertex) => PairAnswer::TooFar(vertex),
            None => PairAnswer::NoWalk,
        }
    }
}
