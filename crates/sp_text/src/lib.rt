//! Texts that consist of lines: what they spell, their first fault, and how they are read.
#![tactic(auto)]

mod collecting;
mod endings;
mod faults;
mod feeding;
mod fields;
mod formats;
mod items;
mod laws;
mod matching;
mod numbers;
mod packed;
mod plain;
mod reading;
mod rooms;
mod whole;
mod writing;

pub use collecting::{Collector, Keep};
pub use endings::cut_line;
pub use faults::{DimacsError, Kind};
pub use feeding::{Feeder, LineTaker};
pub use formats::{Field, FileFormat, Form, Ranges, Top, ranges_of};
pub use items::read_items;
pub use laws::{
    accepted_text_is_in_range, early_fault_is_first, first_fault_is_least, text_is_its_lines,
};
pub use numbers::{Numeral, leading_number, number};
pub use plain::KeepParts;
pub use rooms::{LONGEST_LINE, LineBuffer, Values, extend_line};
pub use whole::{PIECE, read_text};
pub use writing::push_number;
