//! The results of workers and of rounds.

use crate::table::Claimer;
use sp_bins::Entry;
use sp_offer::Caller;

pub(crate) mod merge;
pub(crate) mod stealing;
pub(crate) mod steps;
pub(crate) mod unfinished;

/// Shows that the holder's caller made the offers of a task of the round.
#[derive(Clone, Copy, Debug, PartialEq, Eq)]
pub struct Receipt {
    /// The number of the task, counted from 0.
    pub task: usize,
}

/// The result of one worker, or of a group of workers.
#[derive(Drop)]
pub struct Done {
    pub caller: Caller,
    pub claimer: Claimer,
    /// One receipt for each task whose offers the caller made.
    pub receipts: Vec<Receipt>,
    /// One entry for each of those offers that made a distance smaller.
    pub found: Vec<Entry>,
    /// The number of these workers.
    pub started: u32,
}

/// The result of a round.
#[derive(Drop)]
pub struct RoundOut {
    pub caller: Caller,
    pub claimer: Claimer,
    /// One entry for each offer of the round that made a distance smaller, with the vertex and that distance.
    pub found: Vec<Entry>,
    /// The number of workers that ran, including the leader.
    pub started: u32,
}

/// Memory to complete a round was refused. Offers already made stay made, and the caller's history has them.
#[derive(Drop)]
pub struct RoundRefused {
    pub caller: Caller,
    pub claimer: Claimer,
}
