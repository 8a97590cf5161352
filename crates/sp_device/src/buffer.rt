//! Buffers of bytes, of a fixed size.
ghost use Rattle.std.specs.Prelude.{◌≡◌, ◌+◌, ◌-◌, ◌≤◌, ◌<◌, [], ◌++◌, length, take, decimal, MatchBool};

use itoa::Buffer as Digits;
use std::marker::Model;

/// A buffer of at most `ROOM` bytes.
#[derive(Drop)]
pub struct Buffer<const ROOM: usize> {
    bytes: [u8; ROOM],
    len: usize,
}

/// A buffer of at most 8,192 bytes that wait to be written.
pub type Block = Buffer<8192>;

impl<const ROOM: usize> Model for Buffer<ROOM> {
    ghost use Rattle.std.specs.Prelude.{ℕ, List, take, ◌≤◌};

    ghost Value = { List ℕ };

    ghost view = { λ b. take b.len b.bytes };

    ghost invariant = { λ b. b.len ≤ ROOM };
}

impl<const ROOM: usize> Buffer<ROOM> {
    /// Returns an empty buffer.
    pub fn new() -> Self
        ensures { result ≡ [] }
    {
        Buffer {
            bytes: [0; ROOM],
            len: 0,
        }
    }

    /// Returns whether there are no bytes.
    pub fn is_empty(&self) -> bool
        ensures { MatchBool result (self.now ≡ []) (0 < length self.now) }
    {
        self.len == 0
    }

    /// Returns how many more bytes fit.
    pub fn room_left(&self) -> usize
        ensures { result + length self.now ≡ ROOM }
    {
        ROOM - self.len
    }

    /// Appends bytes, which must fit.
    pub fn push(&mut self, bytes: &[u8])
        requires { length self.old + length bytes.now ≤ ROOM }
        ensures { self.new ≡ self.old ++ bytes.now }
    {
        let end = self.len + bytes.len();
        let room = &mut self.bytes[..];
        room[self.len..end].copy_from_slice(bytes);
        self.len = end;
    }

    /// Appends a number in decimal, of at most 20 digits.
    pub fn push_number(&mut self, n: u64)
        requires { length self.old + 20 ≤ ROOM }
        ensures text { self.new ≡ self.old ++ decimal n }
        ensures short { length self.new ≤ length self.old + 20 }
    {
        let mut digits = Digits::new();
        self.push(digits.format(n).as_bytes());
    }

    /// Removes all bytes.
    pub fn clear(&mut self)
        ensures { self.new ≡ [] }
    {
        self.len = 0;
    }

    /// Returns the bytes.
    pub fn bytes(&self) -> &[u8]
        ensures { result.now ≡ self.now }
    {
        &self.bytes[..self.len]
    }
}
