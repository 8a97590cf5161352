//! Devices in memory.
ghost use Rattle.std.specs.Prelude.{◌≡◌, ◌+◌, ◌<◌, ◌≤◌, ◌^◌, ◌⊎◌, [], true, false, Some, length, vec_len, vec_capacity, if◌then◌else◌};
ghost use Rattle.sp_device.specs.Failing.{Never, Behind};

use crate::devices::{Failed, Read, Write};
use std::alloc::Global;

/// A reader that passes the given bytes and then ends or fails. It never fails earlier.
#[derive(Drop)]
pub struct UpTo<'a> {
    bytes: &'a [u8],
    most: usize,
    passed: u64,
    fails: bool,
    failed: bool,
    ghost short: { passed + length bytes.now ≤ 2 ^ 62 },
    ghost some: { 0 < most },
    ghost ended: { failed ≡ true → (fails ≡ true) × (length bytes.now ≡ 0) },
}

impl<'a> UpTo<'a> {
    /// Returns a reader that passes the bytes and then ends.
    pub fn whole(bytes: &'a [u8]) -> Self
        requires { length bytes.now ≤ 2 ^ 62 }
        ensures left { ⟦<UpTo<'a> as Read>⟧.left result ≡ Some bytes.now }
        ensures passed { ⟦<UpTo<'a> as Read>⟧.passed result ≡ 0 }
        ensures going { ⟦<UpTo<'a> as Read>⟧.has_failed result ≡ false }
        ensures fails { ⟦<UpTo<'a> as Read>⟧.failing result ≡ Never }
    {
        UpTo::in_pieces(bytes, usize::MAX)
    }

    /// Returns a reader that passes the bytes and then fails.
    pub fn failing(bytes: &'a [u8]) -> Self
        requires { length bytes.now ≤ 2 ^ 62 }
        ensures left { ⟦<UpTo<'a> as Read>⟧.left result ≡ Some bytes.now }
        ensures passed { ⟦<UpTo<'a> as Read>⟧.passed result ≡ 0 }
        ensures going { ⟦<UpTo<'a> as Read>⟧.has_failed result ≡ false }
        ensures fails { ⟦<UpTo<'a> as Read>⟧.failing result ≡ Behind (length bytes.now) }
    {
        let mut device = UpTo::whole(bytes);
        device.fails = true;
        device
    }

    /// Returns a reader that passes the bytes, at most `most` per call, and then ends.
    pub fn in_pieces(bytes: &'a [u8], most: usize) -> Self
        requires short { length bytes.now ≤ 2 ^ 62 }
        requires some { 0 < most }
        ensures left { ⟦<UpTo<'a> as Read>⟧.left result ≡ Some bytes.now }
        ensures passed { ⟦<UpTo<'a> as Read>⟧.passed result ≡ 0 }
        ensures going { ⟦<UpTo<'a> as Read>⟧.has_failed result ≡ false }
        ensures fails { ⟦<UpTo<'a> as Read>⟧.failing result ≡ Never }
    {
        UpTo {
            bytes,
            most,
            passed: 0,
            fails: false,
            failed: false,
        }
    }
}

impl Read for UpTo<'_> {
    ghost left = { λ d. Some d.bytes.now };

    ghost passed = { λ d. d.passed };

    ghost has_failed = { λ d. d.failed };

    ghost failing = { λ d. if d.fails then Behind (d.passed + length d.bytes.now) else Never };

    fn read(&mut self, buf: &mut [u8]) -> Result<usize, Failed> {
        if self.fails && self.bytes.is_empty() {
            self.failed = true;
            return Err(Failed);
        }
        let n = self.bytes.len().min(buf.len()).min(self.most);
        let (front, rest) = self.bytes.split_at(n);
        buf[..n].copy_from_slice(front);
        self.bytes = rest;
        self.passed += n as u64;
        Ok(n)
    }
}

/// A writer that takes a given total number of bytes and then fails. It never fails earlier.
#[derive(Drop)]
pub struct UpToWriter {
    taken: Vec<u8>,
    room: usize,
    most: usize,
    failed: bool,
    ghost short: { vec_len taken + room ≤ 2 ^ 62 },
    ghost some: { 0 < most },
    ghost ready: { vec_len taken + room ≤ vec_capacity taken },
    ghost full: { failed ≡ true → room ≡ 0 },
}

impl UpToWriter {
    /// Returns a writer that takes a total of `room` bytes, at most `most` per call. The memory is allocated at once: if that
    /// fails, the writer takes no bytes.
    pub fn new(alloc: Global, room: usize, most: usize) -> Self
        requires short { room ≤ 2 ^ 62 }
        requires some { 0 < most }
        ensures written { ⟦<UpToWriter as Write>⟧.written result ≡ Some [] }
        ensures passed { ⟦<UpToWriter as Write>⟧.passed result ≡ 0 }
        ensures going { ⟦<UpToWriter as Write>⟧.has_failed result ≡ false }
        ensures fails { (⟦<UpToWriter as Write>⟧.failing result ≡ Behind room)
            ⊎ (⟦<UpToWriter as Write>⟧.failing result ≡ Behind 0) }
    {
        let (taken, room) = match Vec::with_capacity(alloc, room) {
            Ok(taken) => (taken, room),
            Err(_) => (Vec::new(alloc), 0),
        };
        UpToWriter {
            taken,
            room,
            most,
            failed: false,
        }
    }

    /// Returns the bytes that it has taken.
    pub fn taken(&self) -> &[u8]
        ensures { ⟦<UpToWriter as Write>⟧.written self.now ≡ Some result.now }
    {
        &self.taken
    }
}

impl Write for UpToWriter {
    ghost written = { λ w. Some w.taken.items };

    ghost passed = { λ w. vec_len w.taken };

    ghost has_failed = { λ w. w.failed };

    ghost failing = { λ w. Behind (vec_len w.taken + w.room) };

    fn write(&mut self, bytes: &[u8]) -> Result<usize, Failed> {
        let n = bytes.len().min(self.room).min(self.most);
        if self.failed || n == 0 && !bytes.is_empty() {
            self.failed = true;
            return Err(Failed);
        }
        let (front, _) = bytes.split_at(n);
        if self.taken.extend_from_slice(front).is_err() {
            self.failed = true;
            return Err(Failed);
        }
        self.room -= n;
        Ok(n)
    }
}
