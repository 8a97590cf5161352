//! The tree of a worked example, and how many rows of a text are read.
ghost use Rattle.std.specs.Prelude.{◌≤◌, ◌<◌, ◌^◌, length};

use sp_device::UpTo;
use sp_files::{Tree, TreeReader, read_tree};
use sp_text::DimacsError;
use sp_word::Word;
use std::alloc::{AllocError, Global};

/// The tree of four vertices, with a tie at the last.
pub fn diamond(alloc: Global) -> Result<Tree<28>, AllocError> {
    let words = [
        Word::pack(0, 0),
        Word::pack(3, 1),
        Word::pack(3, 1),
        Word::pack(5, 2),
    ];
    Tree::of_words(alloc, 1, &words)
}

/// The number of rows of a text of which a failing device passes this beginning.
pub fn cut_off(alloc: Global, text: &[u8]) -> Result<usize, DimacsError>
    requires { length text.now ≤ 2 ^ 62 }
{
    let tree = read_tree::<28, _>(alloc, &mut UpTo::failing(text))?;
    Ok(tree.rows().len())
}

/// The tree of a text that a reader is fed in pieces of this many bytes.
pub fn fed_by(
    reader: &mut TreeReader<28>,
    text: &[u8],
    size: usize,
) -> Result<Tree<28>, DimacsError>
    requires { 0 < size }
{
    for piece in text.chunks(size) {
        reader.feed(piece)?;
    }
    reader.finish()
}

/// The number of rows of a text that is fed in pieces of this many bytes.
pub fn fed(alloc: Global, text: &[u8], size: usize) -> Result<usize, DimacsError>
    requires { 0 < size }
{
    let mut reader = TreeReader::<28>::new(alloc);
    let tree = fed_by(&mut reader, text, size)?;
    Ok(tree.rows().len())
}

/// Whether the tree of four vertices was read.
pub fn is_read(tree: Result<Tree<28>, DimacsError>, same: &Tree<28>) -> bool {
    match tree {
        Ok(tree) => tree.n() == 4 && tree.source() == 1 && tree.rows() == same.rows(),
        Err(_) => false,
    }
}
