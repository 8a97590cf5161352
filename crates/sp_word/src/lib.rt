//! The packed word of a vertex; the reply of a table of least offers to an offer; the width of a bucket and the number of
//! workers, each with its range; the runtime handle for the threads of a run; and a meter of a run's work.
//!
//! A word is unreached, or a pair of a distance and a predecessor. This is what contracts see. The code stores 64 bits, the
//! distance above `P` predecessor bits, so that words are in the order of their bits read as numbers.
#![tactic(auto)]

mod delta;
mod meter;
mod reply;
mod team;
mod threads_and_sleep;
mod word;
mod workers;

pub use delta::Delta;
pub use meter::Meter;
pub use reply::{Reply, decide};
pub use team::Team;
pub use threads_and_sleep::{Alone, ThreadsAndSleep};
pub use word::{Word, bits_are_exact, bits_are_ordered};
pub use workers::{MOST_WORKERS, Workers};
