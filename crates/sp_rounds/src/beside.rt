//! A ring of buckets, with a map beside it for entries outside its window.
ghost use Rattle.std.specs.Prelude.{◌≡◌, ◌<◌, ◌≤◌, ◌↔◌, [], Some, OnOk, OnErr, IsNone, IfSome, IfOk};
ghost use Rattle.sp_rounds.specs.Content.{no_entries, Puts, Takes, IsLowest};

use crate::map::BucketMap;
use crate::ring::{BucketRing, LONGEST_RING};
use sp_bins::Entry;
use std::alloc::{AllocError, Global};
use std::marker::Model;

/// Buckets that are kept in a ring if they lie in its window, and otherwise in a map. The entries of one bucket are all
/// in one of the two.
#[derive(Drop)]
pub struct RingBesideMap {
    ring: BucketRing,
    map: BucketMap,
}

impl Model for RingBesideMap {
    ghost use Rattle.sp_rounds.specs.Content.{BucketsContent};
    ghost use Rattle.sp_rounds.specs.Window.{content_of};
    ghost use Rattle.sp_rounds.specs.Beside.{both, AreApart};

    ghost Value = { BucketsContent };

    ghost view = { λ b. both (content_of b.ring) b.map };

    ghost invariant = { λ b. AreApart (content_of b.ring) b.map };
}

impl RingBesideMap {
    /// Makes a ring of `len` buckets with a map beside it, without entries.
    pub fn new(alloc: Global, delta: u64, len: u32) -> Result<RingBesideMap, AllocError>
        requires delta { 0 < delta }
        requires some { 0 < len }
        requires short { len ≤ LONGEST_RING }
        ensures { IfOk result (λ buckets. buckets ≡ no_entries delta (Some len)) }
    {
        Ok(RingBesideMap {
            ring: BucketRing::new(alloc, delta, len)?,
            map: BucketMap::new(alloc, delta),
        })
    }

    /// Returns the number of the ring's buckets.
    pub fn len(&self) -> u32
        ensures { Some result ≡ self.now.ring }
    {
        self.ring.len()
    }

    /// Puts an entry into the ring if its bucket lies in the window and isn't in the map, and otherwise into the map.
    pub fn put(&mut self, entry: Entry) -> Result<(), AllocError>
        ensures put { OnOk result (Puts entry self.old self.new) }
        ensures refused { OnErr result (self.new ≡ self.old) }
    {
        let number = self.map.number_of(&entry);
        if self.ring.covers(number) && !self.map.holds(number) {
            self.ring.put(number, entry)
        } else {
            self.map.put(entry)
        }
    }

    /// Returns the number of the lowest bucket with an entry.
    pub fn lowest(&self) -> Option<u64>
        ensures none { IsNone result ↔ (self.now.entries ≡ []) }
        ensures lowest { IfSome result (IsLowest self.now) }
    {
        match (self.ring.lowest(), self.map.lowest()) {
            (Some(a), Some(b)) => Some(a.min(b)),
            (Some(a), None) => Some(a),
            (None, b) => b,
        }
    }

    /// Takes the bucket out of the ring, or out of the map if the ring has no entry of it. The ring's window then starts at this
    /// bucket, if that leaves no entry outside it.
    pub fn take(&mut self, number: u64) -> Vec<Entry>
        ensures { Takes number result.items self.old self.new }
    {
        self.ring.move_to(number);
        let taken = self.ring.take(number);
        if taken.is_empty() {
            return self.map.take(number);
        }
        taken
    }
}
