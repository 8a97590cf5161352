//! Runs that settle bucket after bucket.
ghost use Rattle.std.specs.Prelude.{◌≡◌, ℕ, ◌≤◌, Option, Some, None, IfOk, IfErr, OnOk, IsErrAnd};
ghost use Rattle.std.specs.Option.{option_or};
ghost use Rattle.sp_offer.specs.Story.{known_table};
ghost use Rattle.sp_paths.specs.Paths.{IsVertex};
ghost use Rattle.sp_answer.specs.Answer.{IsAnswer, IsRefusal};
ghost use Rattle.sp_phase.specs.Sweep.{HasWords};
ghost use Rattle.sp_phase.specs.Progress.{IsMemory, IsUnspent, IsSpent, IsAsFar, HasRead};
ghost use Rattle.sp_phase.specs.Settling.{IsToldBy, IsLaterBucket};

use crate::advancing::{AdvanceUntil, Settled};
use crate::leader::Leader;
use crate::store::Store;
use sp_answer::{RunError, Tree};
use sp_offer::Caller;
use sp_rounds::{Claimer, Gate};
use sp_word::{Word, Workers};
use std::alloc::Global;
use std::marker::Model;
use std::thread::Threads;

/// What a run starts with: the first caller and the first claimer of its store, and its workers.
#[derive(Drop)]
pub(crate) struct RunStart {
    pub caller: Caller,
    pub claimer: Claimer,
    pub workers: Workers,
}

/// A run of delta-stepping from a store's source. A run that failed is spent.
///
/// Contracts see the store's stage, the caller, unless the run is spent, and how far the run has come.
#[derive(Drop)]
pub struct Run<'a, 'g, const P: u32> {
    store: &'a Store<'g, P>,
    leader: Option<Leader<'a, 'g, P>>,
    // The bucket of the last answer that no `heavy` has followed yet.
    settled: Option<u64>,
    // The last settled bucket that `heavy` followed.
    closed: Option<u64>,
}

impl<'a, 'g, const P: u32> Model for Run<'a, 'g, P> {
    ghost use Rattle.sp_phase.specs.Stage.{IsStage};
    ghost use Rattle.sp_phase.specs.Progress.{RunProgress, caller_of, MayLead};

    ghost Value = { RunProgress };

    ghost view = { λ r. record {
      stage = r.store.now;
      caller = caller_of r.leader;
      settled = r.settled;
      closed = r.closed;
    } };

    ghost invariant = { λ r. IsStage P r.store.now × MayLead r.store.now r.leader };
}

// Returns the last bucket that is closed, once heavy arcs were relaxed after the settled one.
fn closed_after(settled: Option<u64>, closed: Option<u64>) -> Option<u64>
    ensures { result ≡ option_or settled closed }
{
    settled.or(closed)
}

impl<'a, 'g, const P: u32> Run<'a, 'g, P> {
    /// Begins a run with the first caller and the first claimer of a store, or with those that came from them. If it
    /// fails, both are spent.
    pub fn begin(
        alloc: Global,
        store: &'a Store<'g, P>,
        caller: Caller,
        claimer: Claimer,
        workers: Workers,
    ) -> Result<Run<'a, 'g, P>, RunError>
        requires caller { caller.table ≡ store.now.table }
        requires claimer { claimer.table ≡ store.now.claims }
        ensures stage { IfOk result (λ run. run.stage ≡ store.entry.now) }
        ensures unspent { IfOk result IsUnspent }
        ensures first { IfOk result (λ run. (run.settled ≡ None) × (run.closed ≡ None)) }
        ensures refused { IfErr result IsMemory }
    {
        let Ok(leader) = Leader::new(alloc, store, caller, claimer) else {
            return Err(RunError::Memory);
        };
        Ok(Run {
            store,
            leader: Some(leader.with_workers(workers)),
            settled: None,
            closed: None,
        })
    }

    /// Empties the lowest bucket with an entry by rounds of light arcs, and copies all words, until no vertex is left
    /// to relax. Then the bucket is final, and its number is returned before its heavy arcs are relaxed. If no entry is
    /// left and no vertex is open, all words are final. A bucket that is returned is later than each that `heavy`
    /// followed: one that isn't is closed again, and not returned. If it fails, the run is spent.
    pub fn settle<R: Threads + Sync, G: Gate + Sync>(
        &mut self,
        rt: &R,
        gate: &G,
    ) -> Result<Option<u64>, RunError>
        ensures stage { self.new.stage ≡ self.old.stage }
        ensures told { IfOk result (λ bucket. IsToldBy P bucket self.new) }
        ensures later { IfOk result (IsLaterBucket self.old.closed) }
        ensures settled { IfOk result (λ bucket. self.new.settled ≡ bucket) }
        ensures closed { self.new.closed ≡ self.old.closed }
        ensures refused { IfErr result (λ e. IsMemory e × IsSpent self.new) }
        ensures spent { IsSpent self.old → IsErrAnd result IsMemory × (self.new ≡ self.old) }
    {
        let Some(leader) = self.leader.take() else {
            return Err(RunError::Memory);
        };
        match leader.advance(rt, gate, AdvanceUntil::BucketSettled(self.closed)) {
            Err(_) => Err(RunError::Memory),
            Ok(settled) => {
                let Settled { leader, bucket } = settled;
                self.leader = Some(leader);
                self.settled = bucket;
                Ok(bucket)
            }
        }
    }

    /// Runs one round of the heavy arcs of the vertices that were in a light round since the last such round. What
    /// `settle` returned stays true. If it fails, the run is spent.
    pub fn heavy<R: Threads + Sync, G: Gate + Sync>(
        &mut self,
        rt: &R,
        gate: &G,
    ) -> Result<(), RunError>
        ensures stage { self.new.stage ≡ self.old.stage }
        ensures unspent { OnOk result (IsUnspent self.new) }
        ensures settled { OnOk result (self.new.settled ≡ None) }
        ensures closed { OnOk result
            (self.new.closed ≡ option_or self.old.settled self.old.closed) }
        ensures stays { OnOk result
            ((bucket : Option ℕ) → IsToldBy P bucket self.old → IsToldBy P bucket self.new) }
        ensures refused { IfErr result (λ e. IsMemory e × IsSpent self.new) }
        ensures spent { IsSpent self.old → IsErrAnd result IsMemory × (self.new ≡ self.old) }
    {
        let Some(leader) = self.leader.take() else {
            return Err(RunError::Memory);
        };
        match leader.heavy_round(rt, gate) {
            Err(_) => Err(RunError::Memory),
            Ok(leader) => {
                self.leader = Some(leader);
                self.closed = closed_after(self.settled, self.closed);
                self.settled = None;
                Ok(())
            }
        }
    }

    /// Reads the word of a vertex by the run's caller. What `settle` returned stays true: a pair whose distance lies
    /// below the end of a bucket that it returned is the vertex's word in the tree.
    pub fn read(&mut self, vertex: u32) -> Word<P>
        requires vertex { IsVertex self.old.stage.graph.n vertex }
        requires unspent { IsUnspent self.old }
        ensures stage { self.new.stage ≡ self.old.stage }
        ensures far { IsAsFar self.old self.new }
        ensures word { HasRead self.new vertex result }
        ensures stays { (bucket : Option ℕ) → IsToldBy P bucket self.old
            → IsToldBy P bucket self.new }
    {
        match &mut self.leader {
            Some(leader) => leader.read(vertex),
            None => unreachable!(),
        }
    }

    /// Returns how many buckets came back: they were the lowest and not later than the closed one, so `settle` closed them
    /// again. In practice there is none, though this isn't proved. A spent run has none.
    pub fn came_back(&self) -> u64
        ensures { IsSpent self.now → result ≡ 0 }
    {
        match &self.leader {
            Some(leader) => leader.came_back,
            None => 0,
        }
    }

    /// Completes the run, and returns the tree and the caller, which knows the tree's words. A spent run fails with `Memory`.
    pub fn finish<R: Threads + Sync, G: Gate + Sync>(
        self,
        rt: &R,
        gate: &G,
    ) -> Result<(Tree<P>, Caller), RunError>
        ensures tree { IfOk result
            (λ done. IsAnswer P self.entry.stage.graph self.entry.stage.source done.0) }
        ensures caller { IfOk result (λ done. done.1.table ≡ self.entry.stage.table) }
        ensures known { IfOk result
            (λ done. HasWords done.0 self.entry.stage.graph.n (known_table done.1.story)) }
        ensures refused { IfErr result
            (IsRefusal P self.entry.stage.graph self.entry.stage.source) }
        ensures spent { IsSpent self.entry → IsErrAnd result IsMemory }
    {
        let Run { leader, .. } = self;
        match leader {
            None => Err(RunError::Memory),
            Some(leader) => match leader.advance(rt, gate, AdvanceUntil::Swept) {
                Err(_) => Err(RunError::Memory),
                Ok(settled) => settled.leader.answer(),
            },
        }
    }
}
