//! A device whose next byte can be looked at before it is read.
ghost use Rattle.std.specs.Prelude.{◌≡◌, ℕ, true, false, IfOk, OnOk, OnErr};
ghost use Rattle.std.specs.Io.KnownBytes.{Keeps};
ghost use Rattle.std.proofs.Props.{props};
ghost use Rattle.sp_device.specs.Failing.{FailsBy};
ghost use Rattle.sp_device.specs.Peeked.{IsNext, IsWaiting, Taken, joined, passed_behind};

use crate::devices::{Failed, Read};

/// A device whose next byte can be looked at before it is read. A byte looked at is kept, and read first.
#[derive(Drop)]
pub struct Peeked<D: Read> {
    front: Option<u8>,
    device: D,
    ghost waits: { IsWaiting D.Read front device } by { Prim.hlevel props },
}

impl<D: Read> Peeked<D> {
    /// Returns this device, with no byte looked at.
    pub fn new(device: D) -> Self
        ensures left { ⟦<Peeked<D> as Read>⟧.left result ≡ D.left device }
        ensures passed { ⟦<Peeked<D> as Read>⟧.passed result ≡ D.passed device }
        ensures has_failed { ⟦<Peeked<D> as Read>⟧.has_failed result ≡ D.has_failed device }
        ensures failing { ⟦<Peeked<D> as Read>⟧.failing result ≡ D.failing device }
    {
        Peeked {
            front: None,
            device,
        }
    }

    /// Returns the next byte without reading it, or `None` if no byte is left. If the byte has to come from the device and that
    /// fails, the device has failed.
    pub fn peek(&mut self) -> Result<Option<u8>, Failed>
        ensures kept { Keeps (⟦<Peeked<D> as Read>⟧.left self.old)
            (⟦<Peeked<D> as Read>⟧.left self.new) }
        ensures next { IfOk result (λ next. IsNext next (⟦<Peeked<D> as Read>⟧.left self.new)) }
        ensures passed { ⟦<Peeked<D> as Read>⟧.passed self.new
            ≡ ⟦<Peeked<D> as Read>⟧.passed self.old }
        ensures going { OnOk result (⟦<Peeked<D> as Read>⟧.has_failed self.new ≡ false) }
        ensures failed { OnErr result (⟦<Peeked<D> as Read>⟧.has_failed self.new ≡ true) }
        ensures fails { FailsBy (⟦<Peeked<D> as Read>⟧.failing self.old)
            (⟦<Peeked<D> as Read>⟧.passed self.old) result }
        ensures lasting { ⟦<Peeked<D> as Read>⟧.failing self.new
            ≡ ⟦<Peeked<D> as Read>⟧.failing self.old }
    {
        match self.front {
            Some(byte) => Ok(Some(byte)),
            None => match take_first(&mut self.device) {
                Ok(first) => {
                    self.front = first;
                    Ok(first)
                }
                Err(fault) => Err(fault),
            },
        }
    }
}

impl<D: Read> Read for Peeked<D> {
    ghost left = { λ d. joined d.front (D.left d.device) };

    ghost passed = { λ d. passed_behind d.front (D.passed d.device) };

    ghost has_failed = { λ d. D.has_failed d.device };

    ghost failing = { λ d. D.failing d.device };

    fn read(&mut self, buf: &mut [u8]) -> Result<usize, Failed> {
        match self.front {
            Some(byte) => {
                buf[0] = byte;
                self.front = None;
                Ok(1)
            }
            None => self.device.read(buf),
        }
    }
}

// Reads the first byte of a device, unless none is left.
fn take_first<D: Read>(device: &mut D) -> Result<Option<u8>, Failed>
    ensures taken { Taken D.Read device.old result device.new }
    ensures fails { FailsBy (D.failing device.old) (D.passed device.old) result }
    ensures lasting { D.failing device.new ≡ D.failing device.old }
{
    let mut buffer = [0; 1];
    match device.read(&mut buffer) {
        Ok(0) => Ok(None),
        Ok(_) => Ok(Some(buffer[0])),
        Err(fault) => Err(fault),
    }
}
