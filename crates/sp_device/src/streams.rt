//! The readers and writers of `std` as devices.
ghost use Rattle.std.specs.Prelude.{◌≡◌, ◌+◌, ◌<◌, ◌≤◌, ◌^◌, true, false, OnOk, OnErr};
ghost use Rattle.std.specs.Io.KnownBytes.{Keeps};

use crate::devices::{Failed, Read, Write};
use crate::faults::WriteFault;
use std::io;

// The greatest total number of bytes that a device passes.
const LIMIT: u64 = 1 << 62;

// Returns how many of these bytes may still pass.
fn passing(len: usize, passed: u64) -> usize
    requires { passed ≤ 2 ^ 62 }
    ensures within { result ≤ len }
    ensures limit { passed + result ≤ 2 ^ 62 }
    ensures some { passed < 2 ^ 62 → 0 < len → 0 < result }
{
    let room = LIMIT - passed;
    if len as u64 <= room {
        len
    } else {
        room as usize
    }
}

/// A device over a reader of `std`. It fails if the call to `std` fails, and once 2^62 bytes have passed.
#[derive(Drop)]
pub struct OfRead<R> {
    inner: R,
    passed: u64,
    failed: bool,
    ghost limit: { passed ≤ 2 ^ 62 },
}

impl<R: io::Read> OfRead<R> {
    /// Returns a device that has passed no bytes.
    pub fn new(inner: R) -> Self
        ensures left { ⟦<OfRead<R> as Read>⟧.left result ≡ R.remaining inner }
        ensures passed { ⟦<OfRead<R> as Read>⟧.passed result ≡ 0 }
        ensures going { ⟦<OfRead<R> as Read>⟧.has_failed result ≡ false }
    {
        OfRead {
            inner,
            passed: 0,
            failed: false,
        }
    }
}

impl<R: io::Read> Read for OfRead<R> {
    ghost left = { λ d. R.remaining d.inner };

    ghost passed = { λ d. d.passed };

    ghost has_failed = { λ d. d.failed };

    fn read(&mut self, buf: &mut [u8]) -> Result<usize, Failed> {
        let most = passing(buf.len(), self.passed);
        if self.failed || most == 0 {
            self.failed = true;
            return Err(Failed);
        }
        match self.inner.read(&mut buf[..most]) {
            Ok(n) => {
                self.passed += n as u64;
                Ok(n)
            }
            Err(_) => {
                self.failed = true;
                Err(Failed)
            }
        }
    }
}

/// A device over a writer of `std`. It fails if the call to `std` fails or takes none of the bytes given to it, and once
/// 2^62 bytes have passed.
#[derive(Drop)]
pub struct OfWrite<W> {
    inner: W,
    passed: u64,
    failed: bool,
    ghost limit: { passed ≤ 2 ^ 62 },
}

impl<W: io::Write> OfWrite<W> {
    /// Returns a device that has passed on no bytes.
    pub fn new(inner: W) -> Self
        ensures written { ⟦<OfWrite<W> as Write>⟧.written result ≡ W.contents inner }
        ensures passed { ⟦<OfWrite<W> as Write>⟧.passed result ≡ 0 }
        ensures going { ⟦<OfWrite<W> as Write>⟧.has_failed result ≡ false }
    {
        OfWrite {
            inner,
            passed: 0,
            failed: false,
        }
    }
}

impl<W: io::Write> OfWrite<W> {
    /// Flushes the writer of `std`, which may still hold bytes.
    pub fn flush(&mut self) -> Result<(), WriteFault>
        ensures kept { Keeps (⟦<OfWrite<W> as Write>⟧.written self.old)
            (⟦<OfWrite<W> as Write>⟧.written self.new) }
        ensures passed { ⟦<OfWrite<W> as Write>⟧.passed self.new
            ≡ ⟦<OfWrite<W> as Write>⟧.passed self.old }
        ensures going { OnOk result (⟦<OfWrite<W> as Write>⟧.has_failed self.new ≡ false) }
        ensures failed { OnErr result (⟦<OfWrite<W> as Write>⟧.has_failed self.new ≡ true) }
    {
        if self.failed || self.inner.flush().is_err() {
            self.failed = true;
            return Err(WriteFault);
        }
        Ok(())
    }
}

impl<W: io::Write> Write for OfWrite<W> {
    ghost written = { λ d. W.contents d.inner };

    ghost passed = { λ d. d.passed };

    ghost has_failed = { λ d. d.failed };

    fn write(&mut self, bytes: &[u8]) -> Result<usize, Failed> {
        let most = passing(bytes.len(), self.passed);
        if self.failed || most == 0 && !bytes.is_empty() {
            self.failed = true;
            return Err(Failed);
        }
        if bytes.is_empty() {
            return Ok(0);
        }
        match self.inner.write(&bytes[..most]) {
            Ok(n) if n > 0 => {
                self.passed += n as u64;
                Ok(n)
            }
            _ => {
                self.failed = true;
                Err(Failed)
            }
        }
    }
}
