//! Runs by a team, from one source or several. They return the shortest-path tree, its part within a distance, the answers for
//! some targets, or the forest, in which each vertex has its least distance from the nearest source.
//!
//! `words_of_run` does the work for all of them; the others derive their answers from its words. `ByTeam` makes an engine of
//! a team (`sp_answer`): it holds its handle, so functions that take an engine take no handle.
#![tactic(auto)]

mod by_team;
mod nearest;
mod run;
mod run_words;
mod source;
mod targets;
mod turns;
mod walks;
mod walks_from_any;
mod within;

pub use by_team::{ByTeam, RunsTeams, TeamEngine};
pub use nearest::{Nearest, run_nearest};
pub use run_words::words_of_run;
pub use source::{run_by_team, run_source, useful_team};
pub use sp_answer::{Forest, PairAnswer, RunError, RunRequest, RunWords, Until};
pub use targets::{TargetsQuestion, run_targets};
pub use walks::Walks;
pub use within::run_within;
