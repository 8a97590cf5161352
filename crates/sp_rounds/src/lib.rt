//! Rounds of tasks that workers share, with the marks that they claim and the entries that they leave in buckets.
//!
//! A task relaxes the light or the heavy arcs of one vertex at one distance. A round runs each of its tasks once, on as
//! many workers as it is given, which steal tasks from one another; it joins all of them. Marks are claimed by threads: a
//! slot and a round are granted at most once. Buckets hold entries by distance.
//!
//! This crate belongs to the engine by rounds, a library beside the engine that the program runs; it isn't part of the
//! program.
#![tactic(auto)]

mod beside;
mod buckets;
mod gate;
mod grants;
mod map;
mod ring;
mod round;
mod table;
mod task;
mod walking;
mod workers;

pub use buckets::Buckets;
pub use gate::{Gate, OpenGate};
pub use grants::Grant;
pub use round::{run_round, run_round_by};
pub use sp_bins::{Bins, Entry};
pub use sp_run::Walks;
pub use table::{ClaimTable, Claimer, SplitRefused};
pub use task::{Round, Task, TaskKind};
pub use walking::walks_allow_arcs;
pub use workers::{Receipt, RoundOut, RoundRefused};
