//! A page: bytes at whose end the lines of some rows stand.
ghost use Rattle.std.specs.Prelude.{◌≡◌, ◌+◌, ◌<◌, ◌≤◌, ◌^◌, [], ℕ, List, length, drop, vec_len, IfOk};
ghost use Rattle.sp_files.specs.TreeText.{words_text};

use crate::pages::put_rows;
use crate::rows::{Numbered, ROW_ROOM};
use sp_word::Word;
use std::alloc::{AllocError, Global};
use std::marker::Model;

/// The greatest number of rows of a page.
pub(crate) const MOST_ROWS: usize = 16384;

/// A page. In contracts it is the text that stands at its end.
#[derive(Drop)]
pub(crate) struct Page {
    bytes: Vec<u8>,
    // where the text begins
    start: usize,
}

impl Model for Page {
    ghost Value = { List ℕ };

    ghost view = { λ page. drop page.start page.bytes.items };

    ghost invariant = { λ page. (vec_len page.bytes ≡ 917504)
        × (page.start ≤ vec_len page.bytes) };
}

// Returns bytes for the lines of the greatest number of rows.
fn room(alloc: Global) -> Result<Vec<u8>, AllocError>
    ensures { IfOk result (λ bytes. vec_len bytes ≡ 917504) }
{
    vec![in alloc; 0; MOST_ROWS * ROW_ROOM]
}

impl Page {
    /// Returns a page with no text.
    pub(crate) fn new(alloc: Global) -> Result<Page, AllocError>
        ensures { IfOk result (λ page. page ≡ []) }
    {
        let bytes = room(alloc)?;
        let start = bytes.len();
        Ok(Page { bytes, start })
    }

    /// Returns the text.
    pub(crate) fn text(&self) -> &[u8]
        ensures { result.now ≡ self.now }
    {
        &self.bytes[self.start..]
    }

    /// Makes the lines of the reached vertices among those from `first` on, which have these words, in place of the text.
    pub(crate) fn fill<const P: u32>(&mut self, first: u32, words: &[Word<P>])
        requires numbered { first + length words.now < 2 ^ 32 }
        requires few { length words.now ≤ 16384 }
        ensures { self.new ≡ words_text first words.now }
    {
        let words = Numbered {
            first,
            items: words,
        };
        self.start = put_rows(words, &mut self.bytes);
    }
}
