//! What the commands of the program `spt` share: what a command is, and how it runs.
//!
//! A command has its words, its help and its run (`commands`, `help`), works in words of several layouts (`layout`),
//! and uses the files that a command line names (`inputs`, `outputs`). If it fails, it returns a fault, which has a
//! line on standard error and an exit status (`faults`). Many faults have a second line with a reason or advice
//! (`hints`, `advice`). It shows the names of files as a terminal can show them (`names`).
#![tactic(auto)]

mod advice;
mod arguments;
mod command;
mod fault_lines;
mod faults;
mod help;
mod hints;
mod inputs;
mod layout;
mod names;
mod outputs;
mod report;
mod running;
mod text;
mod usage;

pub use advice::Advice;
pub use arguments::{PLACES, file, flag, graph_file, valued};
pub use command::{BuiltCommand, Command, Commands, OneOf};
pub use faults::{Fault, FileKind, Status};
pub use hints::{Encoding, Hint, Naming, PlacesFault, hint_of, option_for, output_hint};
pub use inputs::Inputs;
pub use layout::{NoPredBits, PredBits, RunIn};
pub use outputs::{OUTPUT, Outputs};
pub use report::ProgressReport;
pub use running::Runnable;
pub use text::{print, print_short};
