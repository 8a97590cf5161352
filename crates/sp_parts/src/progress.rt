//! The progress of a text that several threads read: what came from the device, and what the reader has taken.
ghost use Rattle.std.specs.Prelude.{◌≡◌, ◌+◌, ◌<◌, ◌≤◌, true, false, [], length, IfOk, OnOk};
ghost use Rattle.std.specs.Arc.{arc_value};
ghost use Rattle.std.specs.VecDeque.{deque_len, deque_capacity};
ghost use Rattle.sp_parts.specs.Groups.{HasComeTo, ComesOn};
ghost use Rattle.sp_parts.specs.Parts.{TakesNext};
ghost use Rattle.sp_parts.specs.Held.{AreHeld};

use crate::buffer_pool::{BufferPool, PendingPiece};
use crate::pieces::{KeepAcross, Origin, ReadPiece};
use crate::receiving::{Group, Received, fill};
use crate::sharing::Shared;
use crate::taking::take_piece;
use sp_device::Read;
use sp_text::{Collector, DimacsError, Feeder, KeepParts};
use std::collections::VecDeque;
use std::sync::Arc;

/// A position in a text, in pieces and in bytes.
#[derive(Clone, Copy)]
pub struct Position {
    pub(crate) pieces: u64,
    pub(crate) bytes: u64,
}

/// The progress of a text, with what belongs to one thread alone: the reader, and the pieces that came.
#[derive(Drop)]
pub struct ReadingProgress<K: KeepParts> {
    pub(crate) reader: Feeder<Collector<K>>,
    /// The last result of the device.
    pub(crate) received: Received,
    /// Whether the last piece didn't fill its buffer, as with a pipe: for a while no more bytes may come.
    is_short: bool,
    /// How much came from the device.
    pub(crate) came: Position,
    /// How much of it the reader has taken.
    pub(crate) taken: Position,
    /// The pieces that came and aren't taken yet.
    pub(crate) flying: VecDeque<PendingPiece>,
}

impl<K: KeepAcross> ReadingProgress<K> {
    /// Returns the progress of a text from which nothing came yet.
    pub(crate) fn new(
        reader: Feeder<Collector<K>>,
        flying: VecDeque<PendingPiece>,
    ) -> ReadingProgress<K>
        ensures reader { result.reader ≡ reader }
        ensures received { result.received ≡ Received.More }
        ensures came { result.came.bytes ≡ 0 }
        ensures taken { result.taken.bytes ≡ 0 }
        ensures flying { result.flying ≡ flying }
    {
        let none = Position {
            pieces: 0,
            bytes: 0,
        };
        ReadingProgress {
            reader,
            received: Received::More,
            is_short: false,
            came: none,
            taken: none,
            flying,
        }
    }

    /// Returns the reader.
    pub(crate) fn into_reader(self) -> Feeder<Collector<K>>
        ensures { result ≡ self.reader }
    {
        let ReadingProgress { reader, .. } = self;
        reader
    }

    // Reads once from the device, and offers what comes to the other threads. This thread reads a short piece itself.
    fn receive<O: Origin, R: Read>(
        &mut self,
        device: &mut R,
        pool: &mut BufferPool<O>,
        shared: &Shared<K, O>,
        mut group: Arc<Group>,
    )
        requires come { HasComeTo R.Read O.text device.old self.old.came.bytes }
        requires held { AreHeld O.text self.old.taken.bytes
            self.old.flying.items self.old.came.bytes }
        requires room { deque_len self.old.flying < deque_capacity self.old.flying }
        ensures came { ComesOn R.Read device.old device.new
            self.old.came.bytes self.new.came.bytes self.old.received self.new.received }
        ensures held { AreHeld O.text self.new.taken.bytes
            self.new.flying.items self.new.came.bytes }
        ensures reader { self.new.reader ≡ self.old.reader }
        ensures taken { self.new.taken ≡ self.old.taken }
    {
        let Some(received) = fill(device, &mut group) else {
            return;
        };
        self.received = received;
        let count = group.bytes().len();
        if count == 0 {
            pool.free(group);
            return;
        }
        self.is_short = !group.is_full();
        let is_shared = !self.is_short && pool.share(self.came.pieces, self.came.bytes, &group);
        self.came = Position {
            pieces: self.came.pieces.wrapping_add(1),
            bytes: self.came.bytes.wrapping_add(count as u64),
        };
        self.flying
            .push_back_reserved(PendingPiece { group, is_shared });
        if is_shared {
            shared.signals.ring();
        }
    }

    // Returns whether to read more from the device. After a short piece all that came is taken first, so that a fault is
    // reported as soon as its bytes have come.
    fn is_open<O: Origin>(&self, shared: &Shared<K, O>) -> bool
        ensures { result ≡ true
            → deque_len self.now.flying < deque_capacity self.now.flying }
    {
        let room = if self.is_short { 1 } else { shared.room() };
        match self.received {
            Received::More => self.flying.len() < room.min(self.flying.capacity()),
            _ => false,
        }
    }

    /// Reads once from the device, if it goes on and there is room for what comes. Returns whether it has read.
    pub(crate) fn receive_more<O: Origin, R: Read>(
        &mut self,
        device: &mut R,
        pool: &mut BufferPool<O>,
        shared: &Shared<K, O>,
    ) -> bool
        requires come { HasComeTo R.Read O.text device.old self.old.came.bytes }
        requires held { AreHeld O.text self.old.taken.bytes
            self.old.flying.items self.old.came.bytes }
        ensures came { ComesOn R.Read device.old device.new
            self.old.came.bytes self.new.came.bytes self.old.received self.new.received }
        ensures held { AreHeld O.text self.new.taken.bytes
            self.new.flying.items self.new.came.bytes }
        ensures reader { self.new.reader ≡ self.old.reader }
        ensures taken { self.new.taken ≡ self.old.taken }
    {
        if !self.is_open(shared) {
            return false;
        }
        let Some(group) = pool.buffer() else {
            return false;
        };
        self.receive(device, pool, shared, group);
        true
    }

    // Moves past a piece that was taken and ends at this position or before it.
    fn pass(&mut self, group: &Group, end: u64)
        requires { self.old.taken.bytes + length group.now ≤ end }
        ensures bytes { self.new.taken.bytes ≡ self.old.taken.bytes + length group.now }
        ensures reader { self.new.reader ≡ self.old.reader }
        ensures received { self.new.received ≡ self.old.received }
        ensures came { self.new.came ≡ self.old.came }
        ensures flying { self.new.flying ≡ self.old.flying }
    {
        self.taken = Position {
            pieces: self.taken.pieces.wrapping_add(1),
            bytes: self.taken.bytes + group.bytes().len() as u64,
        };
    }

    /// Takes the next piece: by what was read from it, if that belongs to this piece, and otherwise by itself. Returns whether
    /// there was a next piece.
    pub(crate) fn take_front<O: Origin>(
        &mut self,
        pool: &mut BufferPool<O>,
        read: Option<ReadPiece<K, O>>,
    ) -> Result<bool, DimacsError>
        requires { AreHeld O.text self.old.taken.bytes
            self.old.flying.items self.old.came.bytes }
        ensures taken { TakesNext O.text O.problem self.old.came.bytes
            self.old.taken.bytes self.new.taken.bytes
            self.old.reader result self.new.reader }
        ensures held { OnOk result (AreHeld O.text self.new.taken.bytes
            self.new.flying.items self.new.came.bytes) }
        ensures fewer { IfOk result (λ has_taken. has_taken ≡ true
            → length self.new.flying.items < length self.old.flying.items) }
        ensures none { IfOk result (λ has_taken. has_taken ≡ false
            → self.new.flying.items ≡ []) }
        ensures came { self.new.came ≡ self.old.came }
        ensures received { self.new.received ≡ self.old.received }
    {
        let Some(front) = self.flying.pop_front() else {
            return Ok(false);
        };
        take_piece(&mut self.reader, &front.group, self.taken.bytes, &read)?;
        self.pass(&front.group, self.came.bytes);
        pool.free(front.group);
        Ok(true)
    }

    // Returns whether other threads may read the next piece.
    fn is_shared(&self) -> bool {
        match self.flying.front() {
            Some(front) => front.is_shared,
            None => false,
        }
    }

    /// Takes the next piece, if it was read or if no other thread may read it. Returns whether it has taken one.
    pub(crate) fn take_next<O: Origin>(
        &mut self,
        pool: &mut BufferPool<O>,
        shared: &Shared<K, O>,
    ) -> Result<bool, DimacsError>
        requires { AreHeld O.text self.old.taken.bytes
            self.old.flying.items self.old.came.bytes }
        ensures taken { TakesNext O.text O.problem self.old.came.bytes
            self.old.taken.bytes self.new.taken.bytes
            self.old.reader result self.new.reader }
        ensures held { OnOk result (AreHeld O.text self.new.taken.bytes
            self.new.flying.items self.new.came.bytes) }
        ensures came { self.new.came ≡ self.old.came }
        ensures received { self.new.received ≡ self.old.received }
    {
        if !self.is_shared() {
            return self.take_front(pool, None);
        }
        let Some(read) = shared.take(self.taken.pieces) else {
            return Ok(false);
        };
        self.take_front(pool, Some(read))
    }
}
