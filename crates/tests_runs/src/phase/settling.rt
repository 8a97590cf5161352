//! Answers of `settle`, and what the run's caller then reads.
ghost use Rattle.std.specs.Prelude.{◌≡◌, ◌≤◌, OnOk};
ghost use Rattle.sp_phase.specs.Progress.{IsUnspent};

use super::{WORKERS, crew, split, width};
use sp_graph::Graph;
use sp_judge::{GraphKind, Random, random_graph};
use sp_offer::Caller;
use sp_phase::{Run, RunError, Store};
use sp_rounds::{Claimer, OpenGate};
use sp_word::Word;
use std::alloc::AllocError;
use std::process::Abort;
use std::sync::Wait;
use std::test::Fail;
use std::thread::Threads;
use tests_samples::{DIAMOND, graph_of};

// More than the buckets of a run here.
const MANY: u32 = 100_000;

// The words of vertices 2, 3 and 4.
type Words = (Word<28>, Word<28>, Word<28>);

// Whether `settle` tells this bucket; `heavy` follows.
fn settles(
    rt: &(impl Abort + AllocGlobal + Threads + Wait + Sync),
    run: &mut Run<28>,
    bucket: u64,
) -> Result<bool, RunError> {
    let told = run.settle(rt, &OpenGate)?;
    run.heavy(rt, &OpenGate)?;
    Ok(told == Some(bucket))
}

// Whether it tells these buckets in turn, and then none.
fn settles_all(
    rt: &(impl Abort + AllocGlobal + Threads + Wait + Sync),
    mut run: Run<28>,
    buckets: &[u64],
) -> Result<bool, RunError> {
    for bucket in buckets {
        if !settles(rt, &mut run, *bucket)? {
            return Ok(false);
        }
    }
    Ok(run.settle(rt, &OpenGate)?.is_none())
}

// Whether runs from vertex 1 by every number of workers do.
fn crews_settle(
    rt: &(impl Abort + AllocGlobal + Threads + Wait + Sync),
    graph: &Graph,
    delta: u64,
    buckets: &[u64],
) -> Result<bool, RunError>
    requires n { graph.now.n ≤ 10000 }
{
    for workers in WORKERS {
        let (store, caller, claimer) = Store::new(rt.alloc(), graph, width(rt, delta), 1)?;
        let run = Run::begin(rt.alloc(), &store, caller, claimer, crew(rt, workers))?;
        if !settles_all(rt, run, buckets)? {
            return Ok(false);
        }
    }
    Ok(true)
}

#[test]
fn settle_answers(rt: HostRuntime) -> Result<(), Fail> {
    let graph = graph_of(rt.alloc(), 4, &DIAMOND)?;
    assert!(rt; crews_settle(&rt, &graph, 1, &[0, 3, 5, 6])?);
    assert!(rt; crews_settle(&rt, &graph, 2, &[0, 1, 2, 3])?);
    assert!(rt; crews_settle(&rt, &graph, 100, &[0])?);
    Ok(())
}

// Rounds of fewer than 1,000 tasks are the leader's alone.
#[test]
fn short_rounds_alone(rt: HostRuntime) -> Result<(), Fail> {
    let graph = graph_of(rt.alloc(), 4, &DIAMOND)?;
    let (store, caller, claimer) = Store::new(rt.alloc(), &graph, width(&rt, 2), 1)?;
    let store = store.sharing_from(1000);
    let run = Run::begin(rt.alloc(), &store, caller, claimer, crew(&rt, 64))?;
    assert!(rt; settles_all(&rt, run, &[0, 1, 2, 3])?);
    Ok(())
}

// How many buckets come back in a run from vertex 1 that settles and closes every bucket.
fn came_back(
    rt: &(impl Abort + AllocGlobal + Threads + Wait + Sync),
    graph: &Graph,
    workers: u32,
) -> Result<u64, RunError>
    requires n { graph.now.n ≤ 10000 }
{
    let delta = width(rt, graph.mean_length());
    let (store, caller, claimer) = Store::new(rt.alloc(), graph, delta, 1)?;
    let mut run = Run::begin(rt.alloc(), &store, caller, claimer, crew(rt, workers))?;
    for _ in 0..MANY {
        if run.settle(rt, &OpenGate)?.is_none() {
            return Ok(run.came_back());
        }
        run.heavy(rt, &OpenGate)?;
    }
    Err(RunError::Memory)
}

// Whether none does in runs on random graphs, by one worker and by two.
fn none_comes_back(
    rt: &(impl Abort + AllocGlobal + Threads + Wait + Sync),
    random: &mut Random,
    kind: GraphKind,
) -> Result<bool, AllocError> {
    for _ in 0..20 {
        let n = random.up_to(200);
        let graph = random_graph(rt.alloc(), random, kind, n)?;
        if came_back(rt, &graph, 1) != Ok(0) || came_back(rt, &graph, 2) != Ok(0) {
            return Ok(false);
        }
    }
    Ok(true)
}

// `settle` tests that no bucket comes back once it is closed. Here the test never fails.
#[test]
fn no_bucket_comes_back(rt: HostRuntime) -> Result<(), Fail> {
    let mut random = Random::new(17);
    for kind in [GraphKind::Sparse, GraphKind::Ties, GraphKind::Parts] {
        assert!(rt; none_comes_back(&rt, &mut random, kind)?);
    }
    Ok(())
}

// Settles one more bucket, which is this one.
fn settle_next(
    rt: &(impl Abort + AllocGlobal + Threads + Wait + Sync),
    run: &mut Run<28>,
    bucket: u64,
) -> Result<(), Fail>
    ensures stage { run.new.stage ≡ run.old.stage }
    ensures unspent { OnOk result (IsUnspent run.new) }
{
    let told = run.settle(rt, &OpenGate)?;
    assert!(rt; told == Some(bucket), "not bucket {bucket}");
    Ok(())
}

// The words of vertices 2, 3 and 4.
fn read_words(run: &mut Run<28>) -> Words
    requires n { 4 ≤ run.old.stage.graph.n }
    requires unspent { IsUnspent run.old }
    ensures { run.new.stage ≡ run.old.stage }
{
    (run.read(2), run.read(3), run.read(4))
}

// The words of vertices 2, 3 and 4 after one more bucket.
fn words_after(
    rt: &(impl Abort + AllocGlobal + Threads + Wait + Sync),
    run: &mut Run<28>,
    bucket: u64,
) -> Result<Words, Fail>
    requires { 4 ≤ run.old.stage.graph.n }
    ensures { run.new.stage ≡ run.old.stage }
{
    settle_next(rt, run, bucket)?;
    Ok(read_words(run))
}

// The words after the first two buckets of a run from vertex 1, two wide.
fn settled_words(
    rt: &(impl Abort + AllocGlobal + Threads + Wait + Sync),
    store: &Store<28>,
    caller: Caller,
    claimer: Claimer,
    workers: u32,
) -> Result<[Words; 2], Fail>
    requires n { 4 ≤ store.now.graph.n }
    requires caller { caller.table ≡ store.now.table }
    requires claimer { claimer.table ≡ store.now.claims }
{
    let mut run = Run::begin(rt.alloc(), store, caller, claimer, crew(rt, workers))?;
    let first = words_after(rt, &mut run, 0)?;
    run.heavy(rt, &OpenGate)?;
    let second = words_after(rt, &mut run, 1)?;
    Ok([first, second])
}

// Whether these are the words of the diamond's tree.
fn are_final(words: Words) -> bool {
    words == (Word::pack(3, 1), Word::pack(3, 1), Word::pack(5, 2))
}

// The words after the first two buckets of a run in the diamond.
fn words_of_run(
    rt: &(impl Abort + AllocGlobal + Threads + Wait + Sync),
    graph: &Graph,
    workers: u32,
) -> Result<[Words; 2], Fail>
    requires { graph.now.n ≡ 4 }
{
    let (store, caller, claimer) = Store::new(rt.alloc(), graph, width(rt, 2), 1)?;
    settled_words(rt, &store, caller, claimer, workers)
}

#[test]
fn reads_after_settled_buckets(rt: HostRuntime) -> Result<(), Fail> {
    let graph = graph_of(rt.alloc(), 4, &DIAMOND)?;
    for workers in WORKERS {
        let [first, second] = words_of_run(&rt, &graph, workers)?;
        assert!(rt; first.0.is_unreached() && are_final(second));
    }
    Ok(())
}

// Offers the head of a short arc that leaves the source its length.
fn offer_first(graph: &Graph, source: u32, store: &Store<28>, caller: &mut Caller, head: u32)
    requires graph { graph.now ≡ store.now.graph }
    requires small { graph.now.n ≤ 10000 }
    requires source { source ≡ store.now.source }
    requires caller { caller.old.table ≡ store.now.table }
    ensures { caller.new.table ≡ caller.old.table }
{
    for arc in graph.arcs() {
        if arc.tail == source && arc.head == head && arc.len <= 1000 {
            let word = Word::pack(u64::from(arc.len), arc.tail);
            store.table().offer(caller, head, word);
            return;
        }
    }
}

// The same where another caller, split off before the run began, offered (3, 1) to vertex 2.
fn words_beside_another(
    rt: &(impl Abort + AllocGlobal + Threads + Wait + Sync),
    graph: &Graph,
    workers: u32,
) -> Result<[Words; 2], Fail>
    requires { graph.now.n ≡ 4 }
{
    let (store, caller, claimer) = Store::new(rt.alloc(), graph, width(rt, 2), 1)?;
    let (caller, mut other) = split(&store, caller);
    offer_first(graph, 1, &store, &mut other, 2);
    settled_words(rt, &store, caller, claimer, workers)
}

#[test]
fn reads_beside_another_caller(rt: HostRuntime) -> Result<(), Fail> {
    let graph = graph_of(rt.alloc(), 4, &DIAMOND)?;
    for workers in WORKERS {
        let [first, second] = words_beside_another(&rt, &graph, workers)?;
        assert!(rt; first.0 == Word::pack(3, 1) && are_final(second));
    }
    Ok(())
}
