//! Entries in buckets, kept in a map or in a ring beside a map.
ghost use Rattle.std.specs.Prelude.{◌≡◌, ◌<◌, ◌↔◌, [], None, OnOk, OnErr, IsNone, IfSome, IfOk};
ghost use Rattle.sp_rounds.specs.Content.{no_entries, ring_for, Puts, Takes, IsLowest};

use crate::beside::RingBesideMap;
use crate::map::BucketMap;
use crate::ring::LONGEST_RING;
use sp_bins::Entry;
use std::alloc::{AllocError, Global};
use std::marker::Model;

/// Entries in buckets by distance: bucket `i` has the distances from `i * delta` up to, not including, `(i + 1) *
/// delta`. Contracts see the width, the length of the ring, if there is one, and the entries as a list in an
/// unspecified order. (U. Meyer and P. Sanders, "Delta-stepping: a parallelizable shortest path algorithm", Journal of
/// Algorithms 49, 2003, section 2.)
#[derive(Drop)]
pub struct Buckets {
    kept: Kept,
}

// The way the entries are kept.
#[derive(Drop)]
enum Kept {
    Map(BucketMap),
    Ring(RingBesideMap),
}

impl Model for Buckets {
    ghost use Rattle.sp_rounds.specs.Content.{BucketsContent};

    ghost Value = { BucketsContent };

    ghost use Rattle.sp_rounds.specs.Kept.{kept_content, IsKept};

    ghost view = { λ b. kept_content b.kept };

    ghost invariant = { λ b. IsKept b.kept };
}

impl Buckets {
    /// Makes empty buckets in an ordered map. It allocates no memory.
    pub fn new(alloc: Global, delta: u64) -> Buckets
        requires { 0 < delta }
        ensures { result ≡ no_entries delta None }
    {
        Buckets {
            kept: Kept::Map(BucketMap::new(alloc, delta)),
        }
    }

    /// Makes empty buckets for a run whose longest step is `longest`: while bucket `i` is the lowest, an entry that is
    /// queued from it lies at most `ceil(longest / delta)` buckets higher. A ring of one bucket more holds all entries;
    /// a ring that would be longer than `LONGEST_RING` buckets isn't made.
    pub fn with_longest(alloc: Global, delta: u64, longest: u64) -> Result<Buckets, AllocError>
        requires { 0 < delta }
        ensures { IfOk result (λ buckets. buckets ≡ no_entries delta (ring_for delta longest)) }
    {
        let steps = longest.div_ceil(delta);
        if steps >= LONGEST_RING {
            return Ok(Buckets::new(alloc, delta));
        }
        let ring = RingBesideMap::new(alloc, delta, steps as u32 + 1)?;
        Ok(Buckets {
            kept: Kept::Ring(ring),
        })
    }

    /// Returns the number of the ring's buckets, or `None` if the entries are kept in a map alone.
    pub fn ring_len(&self) -> Option<u32>
        ensures { result ≡ self.now.ring }
    {
        match &self.kept {
            Kept::Map(_) => None,
            Kept::Ring(ring) => Some(ring.len()),
        }
    }

    /// Puts an entry into its bucket. If there is no memory for it, nothing changes.
    pub fn put(&mut self, entry: Entry) -> Result<(), AllocError>
        ensures put { OnOk result (Puts entry self.old self.new) }
        ensures refused { OnErr result (self.new ≡ self.old) }
    {
        match &mut self.kept {
            Kept::Map(map) => map.put(entry),
            Kept::Ring(ring) => ring.put(entry),
        }
    }

    /// Returns the number of the lowest bucket with an entry.
    pub fn lowest(&self) -> Option<u64>
        ensures none { IsNone result ↔ (self.now.entries ≡ []) }
        ensures lowest { IfSome result (IsLowest self.now) }
    {
        match &self.kept {
            Kept::Map(map) => map.lowest(),
            Kept::Ring(ring) => ring.lowest(),
        }
    }

    /// Removes and returns all entries of a bucket. It returns the Vec that `put` filled, which is empty if the bucket
    /// is.
    pub fn take(&mut self, i: u64) -> Vec<Entry>
        ensures { Takes i result.items self.old self.new }
    {
        match &mut self.kept {
            Kept::Map(map) => map.take(i),
            Kept::Ring(ring) => ring.take(i),
        }
    }
}
