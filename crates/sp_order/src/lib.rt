//! The command line of the program `spt`: reads the order that the words give, carries it out, and reports a fault.
//!
//! The commands are a type, `C`. Its impls of `Commands` and `RunIn` do everything that concerns all commands: they add
//! the words of each command, read the one that is named, and run it.
#![tactic(auto)]

mod announced;
mod fields;
mod help;
mod hints;
mod line_hints;
mod order;
mod run;
mod usage_hints;
mod vertex_hints;

pub use run::run_line;
