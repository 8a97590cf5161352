//! Runs from a source by rounds: they find which words are final before the end, and the shortest-path tree or the vertex that is
//! too far. Beside the runs are the data that they work on: rows and tables for a source, and marks that record what was relaxed.
//!
//! This crate is the engine by rounds, a library beside the engine that the program runs; it isn't part of the program.
#![tactic(auto)]

mod advancing;
mod finish;
mod leader;
mod marks;
mod pair;
mod rounds;
mod run;
mod source;
mod store;
mod sweeping;

pub use marks::{LeaderMark, LeaderMarks};
pub use pair::{run_pair, run_pair_with};
pub use run::Run;
pub use source::run_source_with;
pub use sp_answer::RunError;
pub use sp_run::run_source;
pub use store::{RoundTeam, Store};
