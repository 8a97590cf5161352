//! Buffers of fixed size for a line and for its numbers.
ghost use Rattle.std.specs.Prelude.{◌≡◌, ◌+◌, ◌<◌, ◌≤◌, List, [], ◌∷◌, ◌++◌, ℕ, length, take, slice_index, OnOk, OnErr, IfErr};

use crate::faults::Kind;
use sp_device::Buffer;
use std::marker::Model;

/// The greatest number of bytes of a line before its LF.
pub const LONGEST_LINE: usize = 1024;

/// The bytes of a line so far, at most `LONGEST_LINE`.
pub type LineBuffer = Buffer<LONGEST_LINE>;

/// Appends bytes to a line, or reports that the line is too long.
pub fn extend_line(line: &mut LineBuffer, bytes: &[u8]) -> Result<(), Kind>
    ensures pushed { OnOk result (line.new ≡ line.old ++ bytes.now) }
    ensures short { OnOk result (length line.new ≤ LONGEST_LINE) }
    ensures kind { IfErr result (λ kind. kind ≡ Kind.LongLine) }
    ensures long { OnErr result (LONGEST_LINE < length (line.old ++ bytes.now)) }
    ensures kept { OnErr result (line.new ≡ line.old) }
{
    if line.room_left() < bytes.len() {
        return Err(Kind::LongLine);
    }
    line.push(bytes);
    Ok(())
}

/// The numbers of a line, at most four. Zeros fill the rest.
#[derive(Drop)]
pub struct Values {
    numbers: [u64; 4],
    len: usize,
}

impl Model for Values {
    ghost Value = { List ℕ };

    ghost view = { λ v. take v.len v.numbers };

    ghost invariant = { λ v. (v.len ≤ 4) × ((k : ℕ) → v.len ≤ k → slice_index v.numbers k ≡ 0) };
}

impl Values {
    /// Returns an empty list of numbers.
    pub fn new() -> Self
        ensures { result ≡ [] }
    {
        Values {
            numbers: [0; 4],
            len: 0,
        }
    }

    // Returns the same numbers.
    pub(crate) fn copy(&self) -> Self
        ensures { result ≡ self.now }
    {
        Self {
            numbers: self.numbers,
            len: self.len,
        }
    }

    /// Appends a number.
    pub fn push(&mut self, number: u64)
        requires { length self.old < 4 }
        ensures { self.new ≡ self.old ++ number ∷ [] }
    {
        self.put(self.len, number);
    }

    // Appends a number to a list whose length is given.
    #[inline(always)]
    pub(crate) fn put(&mut self, place: usize, number: u64)
        requires place { place ≡ length self.old }
        requires room { place < 4 }
        ensures { self.new ≡ self.old ++ number ∷ [] }
    {
        self.numbers[place] = number;
        self.len = place + 1;
    }

    /// Returns the number at this index, or 0 past the last.
    pub fn get(&self, place: usize) -> u64
        ensures { result ≡ slice_index self.now place }
    {
        if place < self.numbers.len() {
            self.numbers[place]
        } else {
            0
        }
    }
}
