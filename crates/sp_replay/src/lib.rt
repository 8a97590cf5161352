//! The files of the step machine: reads replay files and offers files, and writes the report of a run, or the words
//! that offers leave.
//!
//! It also makes the offers of a programme, with a thread for each actor, and finds the words that they leave. It is proved
//! that these are the least words offered, in whatever order the offers are made. It isn't proved that threads make the
//! offers: a body that makes all of them itself meets the same contract. What callers did at a table is a run of the machine,
//! whatever they offered and read.
#![tactic(auto)]

mod actors;
mod formats;
mod keeper;
mod laws;
mod lines;
mod offers;
mod replays;
mod reports;
mod rows;
mod word_lines;

pub use actors::words_left::final_words;
pub use laws::{every_end_is_a_run, every_interleaving_is_a_run};
pub use offers::read_offers;
pub use replays::{ReplayFile, read_replay};
pub use reports::write_report;
pub use sp_machine::{Call, Ended, Finished, Item, Machine, Programme, Report, replay};
pub use word_lines::write_words;
