//! Groups of bytes that come from a device at a time.
ghost use Rattle.std.specs.Prelude.{◌≡◌, ◌+◌, ◌<◌, ◌≤◌, ◌^◌, [], ℕ, List, length, take, false, vec_len, IfOk, IfSome, IfNone};
ghost use Rattle.std.specs.Arc.{arc_value};
ghost use Rattle.std.specs.Io.KnownBytes.{Consumes};
ghost use Rattle.sp_device.specs.Failing.{Never};
ghost use Rattle.sp_parts.specs.Groups.{EndsAs, Brings};

use sp_device::Read;
use std::alloc::{AllocError, Global};
use std::marker::Model;
use std::sync::Arc;

/// The result of a read from a device.
#[derive(Clone, Copy)]
pub enum Received {
    /// Some bytes came.
    More,
    /// The device has ended.
    Over,
    /// The device has failed.
    Failed,
}

/// Reads once into the buffer, and returns how many bytes came. A file fills the buffer. A pipe gives the bytes that it has, so
/// that the program at its other end needn't wait while they are read.
fn receive<R: Read>(reader: &mut R, buffer: &mut [u8]) -> (usize, Received)
    requires { 0 < length buffer.old }
    ensures within { result.0 ≤ length buffer.new }
    ensures bytes { Consumes (R.left reader.old) (R.left reader.new) (take result.0 buffer.new) }
    ensures passed { R.passed reader.new ≡ R.passed reader.old + result.0 }
    ensures limit { 0 < result.0 → R.passed reader.new ≤ 2 ^ 62 }
    ensures end { EndsAs (R.left reader.new) (R.has_failed reader.new) result.0 result.1 }
    ensures failing { R.failing reader.new ≡ R.failing reader.old }
    ensures never { R.failing reader.old ≡ Never → R.has_failed reader.new ≡ false }
{
    match reader.read(buffer) {
        Ok(0) => (0, Received::Over),
        Ok(count) => (count, Received::More),
        Err(_) => (0, Received::Failed),
    }
}

// Returns a buffer of this size.
fn buffer_of(alloc: Global, size: usize) -> Result<Vec<u8>, AllocError>
    requires { 0 < size }
    ensures { IfOk result (λ buffer. 0 < vec_len buffer) }
{
    vec![in alloc; 0; size]
}

/// The bytes that came from a device at a time, in their buffer.
#[derive(Drop)]
pub struct Group {
    buffer: Vec<u8>,
    /// The number of bytes that came.
    count: usize,
}

impl Model for Group {
    ghost Value = { List ℕ };

    ghost view = { λ group. take group.count group.buffer.items };

    ghost invariant = { λ group. (0 < vec_len group.buffer)
        × (group.count ≤ vec_len group.buffer) };
}

impl Group {
    /// Returns a group of no bytes, with a buffer of this size.
    pub(crate) fn new(alloc: Global, size: usize) -> Result<Group, AllocError>
        requires { 0 < size }
        ensures { IfOk result (λ group. group ≡ []) }
    {
        Ok(Group {
            buffer: buffer_of(alloc, size)?,
            count: 0,
        })
    }

    /// Returns the bytes that came.
    pub(crate) fn bytes(&self) -> &[u8]
        ensures { result.now ≡ self.now }
    {
        &self.buffer[..self.count]
    }

    /// Returns whether the bytes fill the buffer.
    pub(crate) fn is_full(&self) -> bool {
        self.count == self.buffer.len()
    }

    /// Reads once from the device, and replaces what came before.
    pub(crate) fn receive<R: Read>(&mut self, device: &mut R) -> Received
        ensures { Brings R.Read device.old device.new self.new result }
    {
        let (count, received) = receive(device, &mut self.buffer);
        self.count = count;
        received
    }
}

/// Reads once from the device into a buffer, if no other thread holds it.
pub(crate) fn fill<R: Read>(device: &mut R, group: &mut Arc<Group>) -> Option<Received>
    ensures some { IfSome result
        (λ received. Brings R.Read device.old device.new (arc_value group.new) received) }
    ensures none { IfNone result (device.new ≡ device.old) }
{
    let buffer = Arc::get_mut(group)?;
    Some(buffer.receive(device))
}
