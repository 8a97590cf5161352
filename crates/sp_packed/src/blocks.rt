//! Words that come from a device, block by block.
ghost use Rattle.std.specs.Prelude.{◌≡◌, ◌≤◌, ◌<◌, ◌*◌, true, false, [], length, take};
ghost use Rattle.std.specs.Io.KnownBytes.{Consumes, IsAtEnd};
ghost use Rattle.sp_device.specs.Failing.{Never};
ghost use Rattle.sp_packed.specs.Words.{sum_on, no_sum, HasCome};

use crate::word_sums::{Sum, decode};
use sp_device::Read;
use std::marker::Model;

/// The greatest number of words of a block.
pub const ROOM: usize = 8192;

/// The greatest number of bytes of a block.
pub const BYTES: usize = 32_768;

/// The words that came last, and the sum of all words that came. It allocates no memory.
#[derive(Drop)]
pub struct WordBlock {
    bytes: [u8; BYTES],
    numbers: [u32; ROOM],
    len: usize,
    sum: Sum,
}

impl Model for WordBlock {
    ghost use Rattle.sp_packed.specs.Words.{Came};

    ghost Value = { Came };

    ghost use Rattle.sp_packed.specs.BlockView.{came_of, IsRoom};

    ghost view = { came_of };

    ghost invariant = { IsRoom };
}

/// Reads bytes until the buffer is full, none is left or the device fails. Returns how many came, and whether the device failed.
pub fn fill<R: Read>(reader: &mut R, bytes: &mut [u8]) -> (usize, bool)
    ensures within { result.0 ≤ length bytes.new }
    ensures bytes { Consumes (R.left reader.old) (R.left reader.new) (take result.0 bytes.new) }
    ensures end { result.0 < length bytes.new → result.1 ≡ false → IsAtEnd (R.left reader.new) }
    ensures failed { result.1 ≡ true → R.has_failed reader.new ≡ true }
    ensures never { R.failing reader.old ≡ Never → result.1 ≡ false }
    ensures lasting { R.failing reader.new ≡ R.failing reader.old }
{
    let mut got = 0;
    while got < bytes.len() {
        match reader.read(&mut bytes[got..]) {
            Ok(0) => return (got, false),
            Ok(n) => got += n,
            Err(_) => return (got, true),
        }
    }
    (got, false)
}

// Reads `count` words, or all that are left, to the front of the numbers. Returns how many came, and whether the device failed.
fn take_words<R: Read>(
    reader: &mut R,
    bytes: &mut [u8],
    numbers: &mut [u32],
    count: usize,
) -> (usize, bool)
    requires bytes { 4 * count ≤ length bytes.old }
    requires numbers { count ≤ length numbers.old }
    ensures within { result.0 ≤ count }
    ensures came { HasCome count (R.left reader.old) (take result.0 numbers.new) result.1
        (R.left reader.new) }
    ensures failed { result.1 ≡ true → R.has_failed reader.new ≡ true }
    ensures never { R.failing reader.old ≡ Never → result.1 ≡ false }
    ensures lasting { R.failing reader.new ≡ R.failing reader.old }
{
    let (got, failed) = fill(reader, &mut bytes[..4 * count]);
    let len = got / 4;
    decode(&bytes[..4 * len], &mut numbers[..len]);
    (len, failed)
}

impl WordBlock {
    /// Returns a block that has read nothing.
    pub fn new() -> WordBlock
        ensures numbers { result.numbers ≡ [] }
        ensures sum { result.sum ≡ no_sum }
    {
        WordBlock {
            bytes: [0; BYTES],
            numbers: [0; ROOM],
            len: 0,
            sum: Sum::new(),
        }
    }

    /// Reads `count` words from a device, in place of those that came last, or fewer if the text is shorter or the device fails.
    /// Returns whether the device failed.
    pub fn take<R: Read>(&mut self, reader: &mut R, count: usize) -> bool
        requires { count ≤ ROOM }
        ensures came { HasCome count (R.left reader.old) self.new.numbers result
            (R.left reader.new) }
        ensures sum { self.new.sum ≡ sum_on self.old.sum self.new.numbers }
        ensures failed { result ≡ true → R.has_failed reader.new ≡ true }
        ensures never { R.failing reader.old ≡ Never → result ≡ false }
        ensures lasting { R.failing reader.new ≡ R.failing reader.old }
    {
        let (len, failed) = take_words(reader, &mut self.bytes, &mut self.numbers, count);
        self.sum = self.sum.on(&self.numbers[..len]);
        self.len = len;
        failed
    }

    /// Returns the words that came last.
    pub fn numbers(&self) -> &[u32]
        ensures { result.now ≡ self.now.numbers }
    {
        &self.numbers[..self.len]
    }

    /// Returns the sum of all words that came.
    pub fn sum(&self) -> Sum
        ensures { result ≡ self.now.sum }
    {
        self.sum
    }
}
