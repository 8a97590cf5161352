//! Readers and writers as contracts see them.
ghost use Rattle.std.specs.Prelude.{◌≡◌, ◌+◌, ◌<◌, ◌≤◌, ◌^◌, ℕ, Bool, true, false, List, length, take, Option, OnOk, OnErr, IfOk};
ghost use Rattle.std.specs.Io.KnownBytes.{Consumes, Appends, Keeps, IsAtEnd};
ghost use Rattle.sp_device.specs.Devices.{IsBegun};
ghost use Rattle.sp_device.specs.Failing.{Failing, Anytime, FailsBy};

use crate::faults::WriteFault;

/// The error of a device that has failed.
#[derive(Clone, Copy, Debug, PartialEq, Eq)]
pub struct Failed;

/// A source of bytes. A device that has failed fails at every later call.
pub trait Read {
    /// The bytes that are left, if they are known.
    ghost left: { Self → Option (List ℕ) };

    /// The number of bytes that it has passed.
    ghost passed: { Self → ℕ };

    /// Whether it has failed.
    ghost has_failed: { Self → Bool };

    /// When it may fail, throughout its life.
    ghost failing: { Self → Failing } = { λ _. Anytime };

    /// Puts some bytes at the front of the buffer and returns their number, which is 0 only at the end.
    fn read(&mut self, buf: &mut [u8]) -> Result<usize, Failed>
        requires { 0 < length buf.old }
        ensures within { IfOk result (λ n. n ≤ length buf.new) }
        ensures bytes { IfOk result
            (λ n. Consumes (left self.old) (left self.new) (take n buf.new)) }
        ensures end { IfOk result (λ n. n ≡ 0 → IsAtEnd (left self.new)) }
        ensures passed { IfOk result (λ n. passed self.new ≡ passed self.old + n) }
        ensures limit { OnOk result (passed self.new ≤ 2 ^ 62) }
        ensures going { OnOk result ((has_failed self.old ≡ false)
            × (has_failed self.new ≡ false)) }
        ensures kept { OnErr result (Keeps (left self.old) (left self.new)
            × (passed self.new ≡ passed self.old)) }
        ensures failed { OnErr result (has_failed self.new ≡ true) }
        ensures fails { FailsBy (failing self.old) (passed self.old) result }
        ensures lasting { failing self.new ≡ failing self.old };
}

/// A sink of bytes. A device that has failed fails at every later call.
pub trait Write {
    /// The bytes that it has taken, if they are known.
    ghost written: { Self → Option (List ℕ) };

    /// The number of bytes that it has passed on.
    ghost passed: { Self → ℕ };

    /// Whether it has failed.
    ghost has_failed: { Self → Bool };

    /// When it may fail, throughout its life.
    ghost failing: { Self → Failing } = { λ _. Anytime };

    /// Takes a prefix of the bytes and returns its length, which is at least 1 unless there are no bytes.
    fn write(&mut self, bytes: &[u8]) -> Result<usize, Failed>
        ensures within { IfOk result (λ n. n ≤ length bytes.now) }
        ensures some { IfOk result (λ n. 0 < length bytes.now → 0 < n) }
        ensures bytes { IfOk result
            (λ n. Appends (written self.old) (written self.new) (take n bytes.now)) }
        ensures passed { IfOk result (λ n. passed self.new ≡ passed self.old + n) }
        ensures limit { OnOk result (passed self.new ≤ 2 ^ 62) }
        ensures going { OnOk result ((has_failed self.old ≡ false)
            × (has_failed self.new ≡ false)) }
        ensures kept { OnErr result (Keeps (written self.old) (written self.new)
            × (passed self.new ≡ passed self.old)) }
        ensures failed { OnErr result (has_failed self.new ≡ true) }
        ensures fails { 0 < length bytes.now → FailsBy (failing self.old) (passed self.old) result }
        ensures none { length bytes.now ≡ 0 → OnErr result (has_failed self.old ≡ true) }
        ensures lasting { failing self.new ≡ failing self.old };
}

/// Writes all the bytes, or a prefix of them if the device fails.
pub fn write_all<W: Write>(out: &mut W, bytes: &[u8]) -> Result<(), WriteFault>
    ensures written { OnOk result (Appends (W.written out.old) (W.written out.new) bytes.now) }
    ensures passed { OnOk result (W.passed out.new ≡ W.passed out.old + length bytes.now) }
    ensures limit { OnOk result (0 < length bytes.now → W.passed out.new ≤ 2 ^ 62) }
    ensures begun { OnErr result (IsBegun bytes.now (W.written out.old) (W.written out.new)) }
    ensures failed { OnErr result (W.has_failed out.new ≡ true) }
    ensures fails { OnErr result (FailsBy (W.failing out.old) (W.passed out.new) result) }
    ensures lasting { W.failing out.new ≡ W.failing out.old }
{
    let mut rest = bytes;
    while !rest.is_empty() {
        match out.write(rest) {
            Ok(n) => {
                let (_, after) = rest.split_at(n);
                rest = after;
            }
            Err(_) => return Err(WriteFault),
        }
    }
    Ok(())
}
