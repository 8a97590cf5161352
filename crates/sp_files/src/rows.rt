//! Rows whose lines are written: of a tree, of a forest, or the words of a tree's vertices.
ghost use Rattle.std.specs.Prelude.{◌≡◌, ◌+◌, ◌<◌, ◌≤◌, ◌^◌, ◌++◌, [], ℕ, List, length, drop};
ghost use Rattle.std.specs.List.{flat_map};
ghost use Rattle.sp_files.specs.TreeText.{row_text, words_text};
ghost use Rattle.sp_files.specs.ForestText.{row_text as rooted_row_text};

use crate::row_lines::{put_rooted_row, put_row};
use sp_answer::WordTree;
use sp_word::Word;
use std::alloc::AllocError;

/// No row's line has more bytes than this.
pub(crate) const ROW_ROOM: usize = 56;

/// Rows of a table. Each has a line, but for that of a vertex that isn't reached.
pub(crate) trait RowSource: Copy {
    /// Their number.
    ghost size: { Self → ℕ };

    /// Their lines, one after the other.
    ghost text: { Self → List ℕ };

    /// Returns their number.
    fn count(self) -> usize
        ensures size { result ≡ size self }
        ensures none { result ≡ 0 → text self ≡ [] };

    /// Returns so many rows from the front, and those behind them.
    fn parted(self, count: usize) -> (Self, Self)
        requires { count ≤ size self }
        ensures front { size result.0 ≡ count }
        ensures back { size result.1 + count ≡ size self }
        ensures text { text self ≡ text result.0 ++ text result.1 };

    /// Puts the line of the one row before what stands from `end` on, and returns where it begins.
    fn put_one(self, bytes: &mut [u8], end: usize) -> usize
        requires one { size self ≡ 1 }
        requires room { 56 ≤ end }
        requires within { end ≤ length bytes.old }
        ensures front { result ≤ end }
        ensures short { end ≤ result + 56 }
        ensures text { drop result bytes.new ≡ text self ++ drop end bytes.old };
}

impl<const P: u32> RowSource for &[(u32, Word<P>)] {
    ghost size = { λ rows. length rows.now };

    ghost text = { λ rows. flat_map row_text rows.now };

    fn count(self) -> usize {
        self.len()
    }

    fn parted(self, count: usize) -> (Self, Self) {
        self.split_at(count)
    }

    fn put_one(self, bytes: &mut [u8], end: usize) -> usize {
        let (vertex, word) = self[0];
        put_row(vertex, word, bytes, end)
    }
}

impl<const P: u32> RowSource for &[(u32, Word<P>, u32)] {
    ghost size = { λ rows. length rows.now };

    ghost text = { λ rows. flat_map rooted_row_text rows.now };

    fn count(self) -> usize {
        self.len()
    }

    fn parted(self, count: usize) -> (Self, Self) {
        self.split_at(count)
    }

    fn put_one(self, bytes: &mut [u8], end: usize) -> usize {
        let (vertex, word, root) = self[0];
        put_rooted_row(vertex, word, root, bytes, end)
    }
}

/// Items that are numbered from `first` on, as the words of vertices.
pub(crate) struct Numbered<'a, T> {
    pub first: u32,
    pub items: &'a [T],
    ghost numbered: { first + length items.now < 2 ^ 32 },
}

impl<T> Clone for Numbered<'_, T> {
    fn clone(&self) -> Result<Self, AllocError> {
        Ok(*self)
    }
}

impl<T> Copy for Numbered<'_, T> {}

/// Returns the words of all vertices of a tree.
pub(crate) fn words_of<const P: u32>(tree: &WordTree<P>) -> Numbered<'_, Word<P>>
    ensures { words_text result.first result.items.now ≡ flat_map row_text tree.now.rows }
{
    Numbered {
        first: 1,
        items: tree.words(),
    }
}

impl<const P: u32> RowSource for Numbered<'_, Word<P>> {
    ghost size = { λ rows. length rows.items.now };

    ghost text = { λ rows. words_text rows.first rows.items.now };

    fn count(self) -> usize {
        self.items.len()
    }

    #[tactic(auto, using(crate::proofs::SentRows::words_parted))]
    fn parted(self, count: usize) -> (Self, Self) {
        let (front, back) = self.items.split_at(count);
        let front = Numbered {
            first: self.first,
            items: front,
        };
        let back = Numbered {
            first: self.first + count as u32,
            items: back,
        };
        (front, back)
    }

    fn put_one(self, bytes: &mut [u8], end: usize) -> usize {
        put_row(self.first, self.items[0], bytes, end)
    }
}
