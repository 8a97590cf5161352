//! What a file may hold: a tree, a forest, or either.
ghost use Rattle.std.specs.Prelude.{◌≡◌, ◌≤◌, true, OnOk, is_some};
ghost use Rattle.sp_word.specs.Word.{is_layout, max_pred};
ghost use Rattle.sp_files.specs.Spelling.{place, begin, add, second_range};
ghost use Rattle.sp_files.specs.Taking.{FileForm, IsRowWithin};

use crate::lines::RowNumbers;
use std::alloc::{AllocError, Global};

/// How far the rows of a file have come.
#[derive(Clone, Copy)]
pub struct RowProgress {
    /// Whether they are those of a forest, which have roots.
    pub rooted: bool,
    /// The number of vertices.
    pub n: u32,
    /// The vertex of the last row, or 0.
    pub last: u32,
    /// The number of rows.
    pub rows: usize,
}

/// A value that a file may hold, for words of `P` bits of predecessor.
pub trait FileContent<const P: u32>: Drop {
    /// Which first lines may begin the file, and what the value says.
    ghost form: { FileForm Self };

    /// Returns whether the line `p near`, or else `p spt`, may begin the file.
    fn begins(near: bool) -> bool
        ensures { result ≡ form.begins near };

    /// Returns the value of a first line: one without rows.
    fn begin(alloc: Global, near: bool, n: u32, second: u32) -> Self
        requires layout { is_layout P ≡ true }
        requires kind { form.begins near ≡ true }
        requires least { 1 ≤ n }
        requires most { n ≤ max_pred P }
        requires second_least { (second_range near).1 ≤ second }
        requires second_most { second ≤ n }
        ensures { form.content result ≡ begin near n second };

    /// Returns how far the rows have come.
    fn place(&self) -> RowProgress
        ensures { result ≡ place (form.content self.now) };

    /// Appends a row.
    fn push(&mut self, row: RowNumbers) -> Result<(), AllocError>
        requires within { IsRowWithin P (place (form.content self.old)) row }
        requires kind { is_some row.root ≡ (place (form.content self.old)).rooted }
        ensures { OnOk result (form.content self.new ≡ add (form.content self.old) row) };
}
