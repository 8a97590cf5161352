//! Buckets in an ordered map.
ghost use Rattle.std.specs.Prelude.{◌≡◌, ◌<◌, ◌↔◌, [], None, IsTrue, OnOk, OnErr, IsNone, IfSome};
ghost use Rattle.std.specs.Bool.{OnFalse};
ghost use Rattle.sp_rounds.specs.Content.{bucket_of, no_entries, Puts, Takes, IsLowest, HasNoEntryIn, HasEntryIn};

use sp_bins::Entry;
use std::alloc::{AllocError, Global};
use std::collections::BTreeMap;
use std::marker::Model;

/// Entries by the number of their bucket. A bucket without an entry has no key.
#[derive(Drop)]
pub struct BucketMap {
    alloc: Global,
    delta: u64,
    buckets: BTreeMap<u64, Vec<Entry>>,
}

impl Model for BucketMap {
    ghost use Rattle.std.specs.Prelude.{◌<◌, None};
    ghost use Rattle.std.specs.BTreeMap.{values};
    ghost use Rattle.sp_rounds.specs.Content.{BucketsContent};
    ghost use Rattle.sp_rounds.specs.Filed.{all_entries, IsFiled};

    ghost Value = { BucketsContent };

    ghost view = { λ m. record {
      delta = m.delta;
      ring = None;
      entries = all_entries (values m.buckets);
    } };

    ghost invariant = { λ m. (0 < m.delta) × IsFiled m.delta m.buckets.entries };
}

impl BucketMap {
    /// Makes an empty map of buckets. It allocates no memory.
    pub fn new(alloc: Global, delta: u64) -> BucketMap
        requires { 0 < delta }
        ensures { result ≡ no_entries delta None }
    {
        BucketMap {
            alloc,
            delta,
            buckets: BTreeMap::new(alloc),
        }
    }

    /// Returns the number of the bucket to which an entry belongs.
    pub fn number_of(&self, entry: &Entry) -> u64
        ensures { result ≡ bucket_of self.now.delta entry.now }
    {
        entry.dist / self.delta
    }

    /// Puts an entry into its bucket.
    pub fn put(&mut self, entry: Entry) -> Result<(), AllocError>
        ensures put { OnOk result (Puts entry self.old self.new) }
        ensures refused { OnErr result (self.new ≡ self.old) }
    {
        let number = self.number_of(&entry);
        if let Some(bucket) = self.buckets.get_mut(&number) {
            bucket.push(entry)?;
            return Ok(());
        }
        let mut bucket = Vec::new(self.alloc);
        bucket.push(entry)?;
        self.buckets.insert(number, bucket)?;
        Ok(())
    }

    /// Returns the number of the lowest bucket with an entry.
    pub fn lowest(&self) -> Option<u64>
        ensures none { IsNone result ↔ (self.now.entries ≡ []) }
        ensures lowest { IfSome result (IsLowest self.now) }
    {
        match self.buckets.first_key_value() {
            Some((number, _)) => Some(*number),
            None => None,
        }
    }

    /// Returns whether the bucket has an entry.
    pub fn holds(&self, number: u64) -> bool
        ensures held { IsTrue result → HasEntryIn self.now.delta self.now.entries number }
        ensures free { OnFalse result (HasNoEntryIn self.now.delta self.now.entries number) }
    {
        self.buckets.contains_key(&number)
    }

    /// Removes and returns the entries of the bucket.
    pub fn take(&mut self, number: u64) -> Vec<Entry>
        ensures { Takes number result.items self.old self.new }
    {
        match self.buckets.remove(&number) {
            Some(bucket) => bucket,
            None => Vec::new(self.alloc),
        }
    }
}
