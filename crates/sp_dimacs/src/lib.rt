//! The text formats of a graph, of a list of sources and of a list of pairs: what a text spells, its first fault, and
//! readers that take it in pieces.
#![tactic(auto)]

mod formats;
mod graphs;
mod laws;
mod lines;
mod pairs;
mod read_buffer;
mod readers;
mod sources;

pub use formats::{MOST_ARCS, MOST_ARCS_BOTH_WAYS};
pub use graphs::{GrFile, GrReader, read_gr, read_gr_both_ways, read_gr_by};
pub use laws::{
    most_arcs_of_a_text, spelled_graph_is_within, spelled_pairs_are_within,
    spelled_sources_are_within,
};
pub use lines::Lines;
pub use pairs::{PairsFile, PairsReader, read_pairs};
pub use read_buffer::ReadBuffer;
pub use readers::TextReader;
pub use sources::{SsFile, SsReader, read_ss};
pub use sp_device::{
    Failed, OfRead, OfWrite, Read, UpTo, UpToWriter, Write, WriteFault, write_all,
};
pub use sp_paths::Arc;
pub use sp_text::{DimacsError, Kind, Numeral, number};
