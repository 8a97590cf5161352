//! Graphs by rows: the arcs of each vertex as a slice, and the same rows with light arcs before heavy ones. The crate
//! also finds the vertices that a table of words leaves out.
#![tactic(auto)]

mod gathering;
mod graph;
mod index;
mod lengths;
mod marks;
mod nearness;
mod ordering;
mod place;
mod places;
mod placing;
mod ranges;
mod rising;
mod row_order;
mod row_sorting;
mod rows;
mod sharing;
mod sharing_ranges;
mod sharing_rising;
mod short_rows;
mod word_table;

pub use graph::{Graph, RowEnds};
pub use lengths::Lengths;
pub use marks::Mark;
pub use place::{Few, Place};
pub use rows::Rows;
pub use sharing::useful_workers;
pub use word_table::{left_out, look_up};
