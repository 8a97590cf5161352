//! Packed graphs: writes and reads the one text of each graph, in words of 32 bits.
#![tactic(auto)]

mod blocks;
mod ending;
mod ends;
mod faults;
mod front;
mod laws;
mod reading;
mod rows;
mod word_sums;
mod writing;

pub use faults::{PackedFault, PackedField, PackedKind};
pub use front::{FIRST, SECOND, is_packed};
pub use laws::{
    a_faulty_text_is_none, a_graph_has_one_text, a_text_has_its_length, a_text_has_one_graph,
    no_text_begins_another,
};
pub use reading::{PackedFile, read_packed, read_packed_file};
pub use writing::write_packed;
