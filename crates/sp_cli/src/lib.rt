//! The program `spt`, for any files and any streams.
//!
//! This crate has the commands `tree`, `pairs`, `matrix` and `nearest`; `sp_tools` has the others. `run_command` runs
//! the command that a command line names. It uses `sp_order`, which does so for any type of commands.
#![tactic(auto)]

mod answer;
mod commands;
mod context;
mod graph_command;
mod laws;
mod matrix;
mod nearest;
mod pairs;
mod run;
mod tree;

pub use commands::AnyCommand;
pub use laws::every_program_is_simple;
pub use run::run_command;
pub use sp_command::{Encoding, Inputs, Outputs};
