//! A run from one source, by rounds.
ghost use Rattle.std.specs.Prelude.{◌≡◌, ◌≤◌, true, IfOk, IfErr};
ghost use Rattle.sp_word.specs.Word.{is_layout, max_pred};
ghost use Rattle.sp_answer.specs.Answer.{IsAnswer, IsRefusal};

use crate::run::{Run, RunStart};
use crate::store::Store;
use sp_answer::{RunError, Tree};
use sp_graph::Graph;
use sp_rounds::Gate;
use sp_word::{Delta, Workers};
use std::alloc::Global;
use std::thread::Threads;

/// Returns the answer of `run_source`, by rounds of tasks, with a gate around every offer; every round is shared among
/// the workers.
pub fn run_source_with<const P: u32, R: Threads + Sync, G: Gate + Sync>(
    rt: &R,
    alloc: Global,
    graph: &Graph,
    delta: Delta<P>,
    workers: Workers,
    source: u32,
    gate: &G,
) -> Result<Tree<P>, RunError>
    requires layout { is_layout P ≡ true }
    requires n { graph.now.n ≤ max_pred P }
    ensures tree { IfOk result (IsAnswer P graph.now source) }
    ensures refused { IfErr result (IsRefusal P graph.now source) }
{
    let (store, caller, claimer) = Store::new(alloc, graph, delta, source)?;
    let start = RunStart {
        caller,
        claimer,
        workers,
    };
    run_stored(rt, alloc, &store, start, gate)
}

// Runs over a store to the end.
fn run_stored<const P: u32, R: Threads + Sync, G: Gate + Sync>(
    rt: &R,
    alloc: Global,
    store: &Store<P>,
    start: RunStart,
    gate: &G,
) -> Result<Tree<P>, RunError>
    requires caller { start.caller.table ≡ store.now.table }
    requires claimer { start.claimer.table ≡ store.now.claims }
    ensures tree { IfOk result (IsAnswer P store.now.graph store.now.source) }
    ensures refused { IfErr result (IsRefusal P store.now.graph store.now.source) }
{
    let _ = store.n();
    let run = Run::begin(alloc, store, start.caller, start.claimer, start.workers)?;
    let done = run.finish(rt, gate)?;
    Ok(done.0)
}
