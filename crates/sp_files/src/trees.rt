//! Writes and reads the text of a tree, and the texts of several.

pub(crate) mod block_state;
pub(crate) mod blocks;
pub(crate) mod page;
pub(crate) mod page_making;
pub(crate) mod stream;
pub(crate) mod text;
pub(crate) mod word_sharing;
pub(crate) mod writing;
