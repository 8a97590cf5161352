//! Writes and reads the texts of results: trees, forests, and lines of pairs. Each tree and each forest has one text. A file of
//! several trees is read one block at a time, in the memory of one tree.
#![tactic(auto)]

mod common_lines;
mod content;
mod either;
mod fields;
mod forests;
mod laws;
mod lines;
mod pages;
mod pair_lines;
mod reading;
mod row_lines;
mod rows;
mod taking;
mod trees;

pub use either::TreeOrForest;
pub use forests::file::ForestFile;
pub use forests::writing::{write_forest, write_no_forest};
pub use laws::{
    first_line_tells, forest_text_is_read, forest_texts_are_accepted, tree_text_is_exact,
    tree_texts_are_accepted,
};
pub use pair_lines::{send_pair, send_route};
pub use reading::{
    FileReader, ForestReader, TreeReader, read_forest, read_tree, read_tree_or_forest,
};
pub use sp_answer::{Forest, Tree, WordTree};
pub use trees::blocks::TreeBlocks;
pub use trees::text::{text_of, text_of_words};
pub use trees::word_sharing::write_words_by;
pub use trees::writing::{write_far, write_tree, write_tree_in_pages, write_words_in_pages};
