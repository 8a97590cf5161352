//! Buckets in a ring of slots.
ghost use Rattle.std.specs.Prelude.{◌≡◌, ◌+◌, ◌<◌, ◌≤◌, ◌%◌, ◌↔◌, [], Some, All, IsTrue, OnOk, OnErr, IsNone, IfSome, IfOk, vec_len};
ghost use Rattle.std.specs.Bool.{OnFalse};
ghost use Rattle.sp_rounds.specs.Content.{bucket_of, no_entries, Puts, Takes, IsLowest, HasNoEntryIn};
ghost use Rattle.sp_rounds.specs.Window.{IsWithin, content_of};

use sp_bins::Entry;
use std::alloc::{AllocError, Global};
use std::marker::Model;
use std::mem;

/// The greatest number of buckets of a ring.
pub const LONGEST_RING: u64 = 65_536;

/// A window of buckets, as many as there are slots. Bucket `i` has slot `i % len`, so that no two buckets of the window
/// share a slot, and moving the window moves no entry. (Dial, "Algorithm 360: shortest-path forest with topological
/// ordering", Communications of the ACM 12, 1969.)
#[derive(Drop)]
pub struct BucketRing {
    alloc: Global,
    delta: u64,
    // The first bucket of the window.
    first: u64,
    // The slot of the window's first bucket.
    head: usize,
    slots: Vec<Vec<Entry>>,
}

impl Model for BucketRing {
    ghost use Rattle.sp_rounds.specs.Window.{Window, IsRing, window_of};

    ghost Value = { Window };

    ghost view = { λ r. window_of r.delta r.first r.slots.items };

    ghost invariant = { λ r. IsRing r.delta r.first r.head r.slots.items };
}

impl BucketRing {
    /// Makes a ring without entries, with its window at bucket 0.
    pub fn new(alloc: Global, delta: u64, len: u32) -> Result<BucketRing, AllocError>
        requires delta { 0 < delta }
        requires some { 0 < len }
        requires short { len ≤ LONGEST_RING }
        ensures { IfOk result (λ ring. content_of ring ≡ no_entries delta (Some len)) }
    {
        let slots = empty_slots(alloc, len as usize)?;
        Ok(BucketRing {
            alloc,
            delta,
            first: 0,
            head: 0,
            slots,
        })
    }

    /// Returns the number of its buckets.
    pub fn len(&self) -> u32
        ensures { result ≡ self.now.len }
    {
        self.slots.len() as u32
    }

    /// Returns whether a bucket lies in the window.
    pub fn covers(&self, number: u64) -> bool
        ensures covered { IsTrue result → IsWithin self.now number }
        ensures free { OnFalse result (HasNoEntryIn self.now.delta self.now.entries number) }
    {
        number >= self.first && number - self.first < self.slots.len() as u64
    }

    // Returns the slot of the bucket at this offset from the window's first bucket.
    fn slot(&self, offset: usize) -> usize
        requires { offset < self.now.len }
        ensures below { result < self.now.len }
        ensures place { result ≡ (self.now.first + offset) % self.now.len }
    {
        let at = self.head + offset;
        if at < self.slots.len() {
            at
        } else {
            at - self.slots.len()
        }
    }

    /// Puts an entry into its bucket, which must lie in the window.
    pub fn put(&mut self, number: u64, entry: Entry) -> Result<(), AllocError>
        requires number { number ≡ bucket_of self.old.delta entry }
        requires covered { IsWithin self.old number }
        ensures put { OnOk result (Puts entry (content_of self.old) (content_of self.new)) }
        ensures refused { OnErr result (self.new ≡ self.old) }
    {
        let at = self.slot((number - self.first) as usize);
        self.slots[at].push(entry)?;
        Ok(())
    }

    /// Returns the number of the lowest bucket with an entry.
    pub fn lowest(&self) -> Option<u64>
        ensures none { IsNone result ↔ (self.now.entries ≡ []) }
        ensures lowest { IfSome result (IsLowest (content_of self.now)) }
    {
        for offset in 0..self.slots.len() {
            if let Some(entry) = self.slots[self.slot(offset)].first() {
                return Some(entry.dist / self.delta);
            }
        }
        None
    }

    /// Moves the window so that it begins at this bucket. No entry may then lie outside it.
    pub fn move_to(&mut self, number: u64)
        ensures { content_of self.new ≡ content_of self.old }
    {
        if number == self.first {
            return;
        }
        let keeps_all = match self.lowest() {
            Some(lowest) => self.first <= number && number <= lowest,
            None => true,
        };
        if keeps_all {
            self.first = number;
            self.head = (number % self.slots.len() as u64) as usize;
        }
    }

    /// Removes and returns the entries of the bucket.
    pub fn take(&mut self, number: u64) -> Vec<Entry>
        ensures { Takes number result.items (content_of self.old) (content_of self.new) }
    {
        if !self.covers(number) {
            return Vec::new(self.alloc);
        }
        let at = self.slot((number - self.first) as usize);
        mem::replace(&mut self.slots[at], Vec::new(self.alloc))
    }
}

fn empty_slots(alloc: Global, len: usize) -> Result<Vec<Vec<Entry>>, AllocError>
    ensures len { IfOk result (λ slots. vec_len slots ≡ len) }
    ensures empty { IfOk result (λ slots. All (λ slot. slot.items ≡ []) slots.items) }
{
    let mut slots = Vec::with_capacity(alloc, len)?;
    for _ in 0..len {
        slots.push(Vec::new(alloc))?;
    }
    Ok(slots)
}
