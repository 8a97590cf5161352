//! A team of workers that lowers the words of an offer table, bucket after bucket, for as long as a word can be lowered.
//!
//! Nothing is proved about the order, or that no work is left: each offer is lawful, the callers come back, and the marks of
//! vertices record the distances at which their arcs were relaxed. A copy of the words shows afterwards whether all arcs are
//! relaxed: if a vertex has its mark's distance there, its arcs need no second look. What a worker holds, how workers share it,
//! and what they signal to one another is scheduling: it is safe, and no proof rests on it.
#![tactic(auto)]

mod chunk;
mod common;
mod deques;
mod entries;
mod notes;
mod relax;
mod schedule;
mod search;
mod signals;
mod tally;
mod team;
mod work_queue;

pub use deques::steal;
pub use search::Search;
pub use sp_word::Team;
pub use team::{Relaxed, relax_all};
