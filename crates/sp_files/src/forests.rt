//! Writes and reads the text of a forest.

pub(crate) mod file;
pub(crate) mod writing;
