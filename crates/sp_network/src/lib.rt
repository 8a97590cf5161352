//! The network spelled by a graph's file, which is a text of lines or packed; and the direction of its arcs. Graphs and lists of
//! arcs are turned round for distances towards a vertex, and lead both ways for streets that are given once.
#![tactic(auto)]

mod arcs;
mod directions;
mod faults;
mod file_formats;
mod laws;
mod network;
mod turned_laws;
mod turning;
mod ways;

pub use arcs::{insert_turned, turn, turn_by, turned_arc};
pub use directions::Direction;
pub use faults::NetworkFault;
pub use file_formats::read_network;
pub use laws::{
    a_text_spells_one_network, directions_are_those_of_graphs, lines_spell_their_network,
    words_spell_their_network,
};
pub use network::Network;
pub use sp_dimacs::GrFile;
pub use turned_laws::{both_ways_turned, both_ways_walks, turned_twice, turned_walks};
pub use turning::{turned, turned_alone};
pub use ways::{both_ways, both_ways_alone};

#[cfg(test)]
mod tests;
#[cfg(test)]
mod turned_tests;
