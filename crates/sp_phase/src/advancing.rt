//! Advances a leader from bucket to bucket.
ghost use Rattle.std.specs.Prelude.{◌≡◌, ◌+◌, ◌*◌, ◌<◌, ◌↔◌, Some, None, IsTrue, IfOk, IfSome, IfNone};
ghost use Rattle.sp_paths.specs.Paths.{IsVertex};
ghost use Rattle.sp_rounds.specs.Content.{IsLowest};
ghost use Rattle.sp_phase.specs.Settling.{Tells, IsLaterBucket, IsBeyond};
ghost use Rattle.sp_phase.specs.Sweep.{HasSwept};
ghost use Rattle.sp_phase.specs.Pairs.{IsBelowDist, IsWithinGraph, KnowsFinal, KnowsTarget};

use crate::leader::{Leader, MOST_ROUNDS};
use crate::sweeping::RelaxedBelow;
use sp_graph::look_up;
use sp_paths::tested_copy;
use sp_rounds::Gate;
use sp_word::Word;
use std::alloc::AllocError;
use std::thread::Threads;

/// The point up to which a leader advances.
#[derive(Clone, Copy, Debug)]
pub(crate) enum AdvanceUntil {
    /// Until a bucket later than this one, the last that is closed, is final, or all words are. Each bucket is tested by
    /// a copy of all words, and heavy arcs are left.
    BucketSettled(Option<u64>),
    /// Until all words are final. Heavy arcs are relaxed after each bucket, and the words are copied once no entry is
    /// queued.
    Swept,
    /// Until the word of this vertex is final, or all words are. Heavy arcs are relaxed after each bucket. The words
    /// are copied once a bucket is empty and the vertex lies below its end, or once no entry is queued.
    Final(u32),
}

/// A leader, and the bucket that is final for its caller, or `None` if all words are final.
#[derive(Drop)]
pub(crate) struct Settled<'a, 'g, const P: u32> {
    pub leader: Leader<'a, 'g, P>,
    pub bucket: Option<u64>,
}

// Below the end of a bucket each vertex must have been relaxed light at its distance, and below its beginning heavy
// too.
fn bounds_of(bucket: u64, delta: u64) -> RelaxedBelow
    requires { bucket * delta + delta < 18446744073709551616 }
    ensures light { result.light ≡ (bucket + 1) * delta }
    ensures heavy { result.heavy ≡ bucket * delta }
{
    let heavy = bucket * delta;
    RelaxedBelow {
        light: heavy + delta,
        heavy,
    }
}

// Returns whether the bucket is later than the closed one, if there is one.
fn is_later(closed: Option<u64>, bucket: u64) -> bool
    ensures { IsTrue result ↔ IsLaterBucket closed (Some bucket) }
{
    match closed {
        None => true,
        Some(last) => last < bucket,
    }
}

// Returns whether the word has a distance below this one.
fn is_within<const P: u32>(word: Word<P>, end: u64) -> bool
    ensures { IsTrue result → IsBelowDist word.entry end }
{
    match word.dist() {
        Some(dist) => dist < end,
        None => false,
    }
}

impl<'a, 'g, const P: u32> Leader<'a, 'g, P> {
    // Empties the lowest bucket, tests it, and returns whether it passed. The vertices that failed the test are queued. A
    // bucket that isn't later than the closed one has come back, which never happens in practice. It is closed again, and
    // doesn't pass.
    fn settle_bucket<R: Threads + Sync, G: Gate + Sync>(
        self,
        rt: &R,
        gate: &G,
        closed: Option<u64>,
        bucket: u64,
    ) -> Result<(Leader<'a, 'g, P>, bool), AllocError>
        requires { IsLowest self.buckets bucket }
        ensures stage { IfOk result (λ done. done.0.stage ≡ self.entry.stage) }
        ensures told { IfOk result (λ done. IsTrue done.1 → Tells P (Some bucket) done.0) }
        ensures later { IfOk result (λ done. IsTrue done.1 → IsLaterBucket closed (Some bucket)) }
    {
        tested_copy();
        let bounds = bounds_of(bucket, self.store.delta().get());
        let mut leader = self.empty_bucket(rt, gate, bucket)?;
        if !is_later(closed, bucket) {
            leader.count_came_back();
            return Ok((leader.heavy_round(rt, gate)?, false));
        }
        let passed = leader.queue_open(bounds)?;
        Ok((leader, passed))
    }

    // Empties the lowest bucket. If the target's word then lies below its end, the bucket is tested, and the vertices
    // that failed the test are queued. Returns whether the target's word is final.
    fn settle_target<R: Threads + Sync, G: Gate + Sync>(
        self,
        rt: &R,
        gate: &G,
        bucket: u64,
        target: u32,
    ) -> Result<(Leader<'a, 'g, P>, bool), AllocError>
        requires lowest { IsLowest self.buckets bucket }
        requires target { IsVertex self.stage.graph.n target }
        ensures stage { IfOk result (λ done. done.0.stage ≡ self.entry.stage) }
        ensures told { IfOk result (λ done. IsTrue done.1 → Tells P (Some bucket) done.0) }
        ensures found { IfOk result (λ done. IsTrue done.1 → KnowsTarget P target done.0) }
    {
        tested_copy();
        let bounds = bounds_of(bucket, self.store.delta().get());
        let mut leader = self.empty_bucket(rt, gate, bucket)?;
        if !is_within(leader.read(target), bounds.light) {
            return Ok((leader, false));
        }
        let passed = leader.queue_open(bounds)?;
        if !passed {
            return Ok((leader, false));
        }
        let found = is_within(look_up(leader.words.as_slice(), target), bounds.light);
        Ok((leader, found))
    }

    // Relaxes the heavy arcs that are owed, unless they are to be left.
    fn close_bucket<R: Threads + Sync, G: Gate + Sync>(
        self,
        rt: &R,
        gate: &G,
        until: AdvanceUntil,
    ) -> Result<Leader<'a, 'g, P>, AllocError>
        ensures { IfOk result (λ after. after.stage ≡ self.entry.stage) }
    {
        match until {
            AdvanceUntil::BucketSettled(_) => Ok(self),
            AdvanceUntil::Swept | AdvanceUntil::Final(_) => self.heavy_round(rt, gate),
        }
    }

    // Empties the given bucket, which is the lowest, or sweeps if there is none. Returns whether the leader has come as
    // far as required.
    fn step<R: Threads + Sync, G: Gate + Sync>(
        mut self,
        rt: &R,
        gate: &G,
        until: AdvanceUntil,
        bucket: Option<u64>,
    ) -> Result<(Leader<'a, 'g, P>, bool), AllocError>
        requires lowest { IfSome bucket (IsLowest self.buckets) }
        requires target { IsWithinGraph self.stage.graph until }
        ensures stage { IfOk result (λ done. done.0.stage ≡ self.entry.stage) }
        ensures told { IfOk result (λ done. IsTrue done.1 → Tells P bucket done.0) }
        ensures later { IfOk result (λ done. IsTrue done.1 → IfSome bucket (IsBeyond until)) }
        ensures swept { IfOk result (λ done. IsTrue done.1 → IfNone bucket (HasSwept P done.0)) }
        ensures whole { IfOk result
            (λ done. IsTrue done.1 → until ≡ AdvanceUntil.Swept → bucket ≡ None) }
        ensures target { IfOk result (λ done. IsTrue done.1 → KnowsFinal P until done.0) }
    {
        match bucket {
            None => {
                let none = self.sweep()?;
                Ok((self, none))
            }
            Some(lowest) => match until {
                AdvanceUntil::BucketSettled(closed) => self.settle_bucket(rt, gate, closed, lowest),
                AdvanceUntil::Final(target) => self.settle_target(rt, gate, lowest, target),
                AdvanceUntil::Swept => {
                    let leader = self.empty_bucket(rt, gate, lowest)?;
                    Ok((leader, false))
                }
            },
        }
    }

    /// Advances from bucket to bucket.
    pub(crate) fn advance<R: Threads + Sync, G: Gate + Sync>(
        mut self,
        rt: &R,
        gate: &G,
        until: AdvanceUntil,
    ) -> Result<Settled<'a, 'g, P>, AllocError>
        requires { IsWithinGraph self.stage.graph until }
        ensures stage { IfOk result (λ done. done.leader.stage ≡ self.entry.stage) }
        ensures told { IfOk result (λ done. Tells P done.bucket done.leader) }
        ensures later { IfOk result (λ done. IfSome done.bucket (IsBeyond until)) }
        ensures swept { IfOk result (λ done. IfNone done.bucket (HasSwept P done.leader)) }
        ensures whole { IfOk result (λ done. until ≡ AdvanceUntil.Swept → done.bucket ≡ None) }
        ensures target { IfOk result (λ done. KnowsFinal P until done.leader) }
    {
        for _ in 0..MOST_ROUNDS {
            let leader = self.close_bucket(rt, gate, until)?;
            let bucket = leader.lowest();
            let (leader, done) = leader.step(rt, gate, until, bucket)?;
            if done {
                return Ok(Settled { leader, bucket });
            }
            self = leader;
        }
        Err(AllocError)
    }
}
