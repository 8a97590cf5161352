//! A buffer of bytes that came from a device and wait to be read.
ghost use Rattle.std.specs.Prelude.{◌≡◌, ◌+◌, ◌≤◌, ◌^◌, [], drop, length, OnOk, OnErr, true, false};
ghost use Rattle.std.specs.Io.KnownBytes.{Consumes, Keeps, IsAtEnd};
ghost use Rattle.sp_device.specs.Failing.{FailsBy};

use sp_device::{Failed, Read};
use sp_text::PIECE;
use std::marker::Model;

/// A buffer of bytes that wait to be read, at most `PIECE` of them.
#[derive(Drop)]
pub struct ReadBuffer {
    bytes: [u8; PIECE],
    start: usize,
    end: usize,
}

impl Model for ReadBuffer {
    ghost use Rattle.std.specs.Prelude.{ℕ, List, take, drop, ◌≤◌};
    ghost use Rattle.sp_text.specs.declared.whole.TheConstants.{PIECE};

    ghost Value = { List ℕ };

    ghost view = { λ p. drop p.start (take p.end p.bytes) };

    ghost invariant = { λ p. (p.start ≤ p.end) × (p.end ≤ PIECE) };
}

impl ReadBuffer {
    /// Returns an empty piece.
    pub fn new() -> Self
        ensures { result ≡ [] }
    {
        ReadBuffer {
            bytes: [0; PIECE],
            start: 0,
            end: 0,
        }
    }

    /// Returns the bytes that wait.
    pub fn bytes(&self) -> &[u8]
        ensures { result.now ≡ self.now }
    {
        &self.bytes[self.start..self.end]
    }

    /// Removes `n` bytes at the front.
    pub fn skip(&mut self, n: usize)
        requires { n ≤ length self.old }
        ensures { self.new ≡ drop n self.old }
    {
        self.start += n;
    }

    /// Removes all bytes.
    pub fn clear(&mut self)
        ensures { self.new ≡ [] }
    {
        self.start = self.end;
    }

    /// Replaces the bytes with the next ones from a device. The buffer is then empty only at the end of the device.
    pub fn refill<R: Read>(&mut self, reader: &mut R) -> Result<(), Failed>
        ensures bytes { OnOk result (Consumes (R.left reader.old) (R.left reader.new) self.new) }
        ensures end { OnOk result (self.new ≡ [] → IsAtEnd (R.left reader.new)) }
        ensures passed { OnOk result (R.passed reader.new ≡ R.passed reader.old + length self.new) }
        ensures limit { OnOk result (R.passed reader.new ≤ 2 ^ 62) }
        ensures kept { OnErr result (Keeps (R.left reader.old) (R.left reader.new)) }
        ensures going { OnOk result (R.has_failed reader.new ≡ false) }
        ensures failed { OnErr result (R.has_failed reader.new ≡ true) }
        ensures fails { FailsBy (R.failing reader.old) (R.passed reader.old) result }
        ensures lasting { R.failing reader.new ≡ R.failing reader.old }
    {
        self.start = 0;
        self.end = 0;
        let n = reader.read(&mut self.bytes)?;
        self.end = n;
        Ok(())
    }
}
