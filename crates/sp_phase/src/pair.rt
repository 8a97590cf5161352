//! Runs for one target.
ghost use Rattle.std.specs.Prelude.{◌≡◌, ◌≤◌, true, IfOk, IfErr};
ghost use Rattle.sp_word.specs.Word.{is_layout, max_pred};
ghost use Rattle.sp_paths.specs.Paths.{IsVertex};
ghost use Rattle.sp_phase.specs.Stage.{IsStage};
ghost use Rattle.sp_phase.specs.Pairs.{IsPairAnswer, IsPairRefusal, KnowsTarget};

use crate::advancing::AdvanceUntil;
use crate::leader::Leader;
use crate::run::RunStart;
use crate::store::Store;
use sp_answer::RunError;
use sp_graph::{Graph, left_out, look_up};
use sp_paths::swept_copy;
use sp_rounds::{Gate, OpenGate};
use sp_word::{Delta, Word, Workers};
use std::alloc::Global;
use std::thread::Threads;

impl<'a, 'g, const P: u32> Leader<'a, 'g, P> {
    // What a copy of the words shows of a target, once its word in there is final.
    fn pair_answer(&self, target: u32) -> Result<Option<Word<P>>, RunError>
        requires target { IsVertex self.now.stage.graph.n target }
        requires known { KnowsTarget P target self.now }
        ensures pair { IfOk result
            (IsPairAnswer P self.now.stage.graph self.now.stage.source target) }
        ensures refused { IfErr result
            (IsPairRefusal P self.now.stage.graph self.now.stage.source target) }
    {
        swept_copy();
        let words = self.words.as_slice();
        let word = look_up(words, target);
        if !word.is_unreached() {
            return Ok(Some(word));
        }
        match left_out(words, self.store.arcs()) {
            Some(vertex) => Err(RunError::TooFar(vertex)),
            None => Ok(None),
        }
    }
}

/// Returns the target's word in the shortest-path tree of the source, or `None` if no walk leads to it. The run ends as
/// soon as that word is final: it advances from bucket to bucket, with at most `workers` workers, until the target lies
/// in a bucket that is final.
pub fn run_pair<const P: u32, R: Threads + Sync>(
    rt: &R,
    alloc: Global,
    graph: &Graph,
    delta: Delta<P>,
    workers: Workers,
    source: u32,
    target: u32,
) -> Result<Option<Word<P>>, RunError>
    requires layout { is_layout P ≡ true }
    requires n { graph.now.n ≤ max_pred P }
    ensures pair { IfOk result (IsPairAnswer P graph.now source target) }
    ensures refused { IfErr result (IsPairRefusal P graph.now source target) }
{
    run_pair_with(rt, alloc, graph, delta, workers, source, target, &OpenGate)
}

/// Runs like `run_pair`, with a gate around every offer; every round is shared among the workers.
pub fn run_pair_with<const P: u32, R: Threads + Sync, G: Gate + Sync>(
    rt: &R,
    alloc: Global,
    graph: &Graph,
    delta: Delta<P>,
    workers: Workers,
    source: u32,
    target: u32,
    gate: &G,
) -> Result<Option<Word<P>>, RunError>
    requires layout { is_layout P ≡ true }
    requires n { graph.now.n ≤ max_pred P }
    ensures pair { IfOk result (IsPairAnswer P graph.now source target) }
    ensures refused { IfErr result (IsPairRefusal P graph.now source target) }
{
    if !graph.has_vertex(target) {
        return Err(RunError::NoSuchVertex);
    }
    let (store, caller, claimer) = Store::new(alloc, graph, delta, source)?;
    let start = RunStart {
        caller,
        claimer,
        workers,
    };
    run_stored_pair(rt, alloc, &store, start, target, gate)
}

// Runs over a store, for one target.
fn run_stored_pair<const P: u32, R: Threads + Sync, G: Gate + Sync>(
    rt: &R,
    alloc: Global,
    store: &Store<P>,
    start: RunStart,
    target: u32,
    gate: &G,
) -> Result<Option<Word<P>>, RunError>
    requires caller { start.caller.table ≡ store.now.table }
    requires claimer { start.claimer.table ≡ store.now.claims }
    requires stage { IsStage P store.now }
    requires target { IsVertex store.now.graph.n target }
    ensures pair { IfOk result (IsPairAnswer P store.now.graph store.now.source target) }
    ensures refused { IfErr result (IsPairRefusal P store.now.graph store.now.source target) }
{
    let Ok(leader) = Leader::new(alloc, store, start.caller, start.claimer) else {
        return Err(RunError::Memory);
    };
    let leader = leader.with_workers(start.workers);
    match leader.advance(rt, gate, AdvanceUntil::Final(target)) {
        Err(_) => Err(RunError::Memory),
        Ok(settled) => settled.leader.pair_answer(target),
    }
}
