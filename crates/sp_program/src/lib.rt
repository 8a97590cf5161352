//! The program `spt`, over any system: from the words of the command line to the exit status, with what the streams and the
//! files hold then.
#![tactic(auto)]

mod program;
mod running;

pub use program::{Ended, run_program};
