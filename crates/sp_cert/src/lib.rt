//! A checker of shortest-path trees and forests made by any program.
#![tactic(auto)]

mod arcs;
mod checking;
mod fault;
mod forests;
mod laws;
mod rule;
mod sources;
mod vertices;
mod words_of_tree;

pub use checking::{CheckError, check, check_forest, check_within};
pub use laws::{checked_forest, checked_table};
pub use rule::Rule;
