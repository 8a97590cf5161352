//! The text of a tree, made in memory.
ghost use Rattle.std.specs.Prelude.{◌≡◌, ◌≤◌, ◌^◌, [], Some, vec_len, IfOk};
ghost use Rattle.sp_files.specs.TreeText.{tree_text};

use crate::common_lines::LINE_ROOM;
use crate::trees::writing::{write_tree_in_pages, write_words_in_pages};
use sp_answer::{Tree, WordTree};
use sp_device::{Failed, Write, WriteFault};
use std::alloc::{AllocError, Global};

// The greatest number of bytes of a tree's row.
const ROW_ROOM: usize = 45;

// The greatest number of bytes that a device passes.
const MOST_BYTES: usize = 1 << 62;

// A writer that keeps what it takes. It fails where memory is refused.
#[derive(Drop)]
struct KeptText {
    bytes: Vec<u8>,
    failed: bool,
    ghost short: { vec_len bytes ≤ 2 ^ 62 },
}

impl KeptText {
    // Returns a writer with room for a tree of so many rows.
    fn new(alloc: Global, rows: usize) -> Result<Self, AllocError>
        ensures { IfOk result (λ text. text.bytes.items ≡ []) }
    {
        let most = rows.saturating_mul(ROW_ROOM).saturating_add(2 * LINE_ROOM);
        Ok(KeptText {
            bytes: Vec::with_capacity(alloc, most)?,
            failed: false,
        })
    }

    // Returns what it has taken, and gives back what room is left.
    fn taken(mut self) -> Vec<u8>
        ensures { result.items ≡ self.bytes.items }
    {
        self.bytes.shrink_to_fit();
        self.bytes
    }
}

impl Write for KeptText {
    ghost written = { λ text. Some text.bytes.items };

    ghost passed = { λ text. vec_len text.bytes };

    ghost has_failed = { λ text. text.failed };

    fn write(&mut self, bytes: &[u8]) -> Result<usize, Failed> {
        if !self.failed && bytes.is_empty() {
            return Ok(0);
        }
        let fits = bytes.len() <= MOST_BYTES - self.bytes.len();
        if self.failed || !fits || self.bytes.extend_from_slice(bytes).is_err() {
            self.failed = true;
            return Err(Failed);
        }
        Ok(bytes.len())
    }
}

/// Returns the block of a tree as `write_tree` writes it: for a tree that is written later, or by another thread.
///
/// It takes memory for the longest lines that so many rows may have, and gives back what isn't needed; while it works also
/// for the lines of at most 8,192 rows. It fails only where memory is refused.
pub fn text_of<const P: u32>(alloc: Global, tree: &Tree<P>) -> Result<Vec<u8>, AllocError>
    ensures { IfOk result (λ text. text.items ≡ tree_text tree.now) }
{
    let mut text = KeptText::new(alloc, tree.rows().len())?;
    if write_tree_in_pages(alloc, tree, &mut text).is_err() {
        return Err(AllocError);
    }
    Ok(text.taken())
}

/// Does what `text_of` does, for a tree that is given as the words of its vertices.
pub fn text_of_words<const P: u32>(alloc: Global, tree: &WordTree<P>) -> Result<Vec<u8>, AllocError>
    ensures { IfOk result (λ text. text.items ≡ tree_text tree.now) }
{
    let mut text = KeptText::new(alloc, tree.reached())?;
    if write_words_in_pages(alloc, tree, &mut text).is_err() {
        return Err(AllocError);
    }
    Ok(text.taken())
}
