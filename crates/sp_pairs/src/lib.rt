//! From bytes to bytes: reads a graph and a list of pairs of a source and a target, and writes a line for each pair:
//! its word or its route.
#![tactic(auto)]

mod asking;
mod near;
mod pair_lines;
mod pairs;
mod told;
mod towards;

pub use pairs::{run_pairs, run_pairs_told};
pub use sp_answer::{PairAnswer, RouteAnswer};
pub use sp_jobs::{BatchError, BucketWidth, Listener, Nobody, Progress, Role, Settings, Summary};
pub use told::{PairLine, RouteEnd};

#[cfg(test)]
mod tests;
