//! The report of a run.

use crate::effect::Ended;
use sp_word::Word;

/// A finished call, with the numbers of its first and its last step.
#[derive(Clone, Copy, Debug, PartialEq, Eq)]
pub struct Finished<const P: u32> {
    pub ended: Ended<P>,
    pub first: u64,
    pub last: u64,
}

/// The report of a run.
#[derive(Drop)]
pub struct Report<const P: u32> {
    /// The finished calls, by rising last step.
    pub calls: Vec<Finished<P>>,
    /// The words at the end, that of vertex `v` at `v - 1`.
    pub words: Vec<Word<P>>,
    /// The number of exchanges that were won.
    pub wins: u64,
    /// The number of exchanges that were lost.
    pub losses: u64,
    /// Whether each relaxation whose tail is reached at the end was finished at the tail's final distance.
    pub closed: bool,
}
