//! Runs for one target.
ghost use Rattle.std.specs.Prelude.{◌≤◌};

use super::{WIDE, WORKERS, crew, width};
use sp_graph::Graph;
use sp_judge::{Answer, GraphKind, Random, plain_tree, random_graph};
use sp_phase::{RunError, run_pair, run_pair_with};
use sp_rounds::Gate;
use sp_word::Word;
use std::alloc::AllocError;
use std::process::Abort;
use std::sync::Wait;
use std::sync::atomic::{AtomicU64, Ordering};
use std::test::Fail;
use std::thread::Threads;
use tests_samples::{DIAMOND, Triple, graph_of, long_path};

const DELTAS: [u64; 3] = [1, 5, 100];

// A way round that is shorter than the one arc.
const TRIANGLE: [Triple; 3] = [(1, 3, 10), (1, 2, 1), (2, 3, 1)];

// What is told of a target: its distance and predecessor, or None.
type Told = Result<Option<(u64, u32)>, RunError>;

// A gate that counts the offers.
#[derive(Drop)]
struct Counter {
    offers: AtomicU64,
}

impl Gate for Counter {
    fn before_offer(&self, _worker: u32) {
        self.offers.fetch_add(1, Ordering::SeqCst);
    }

    fn after_offer(&self, _worker: u32) {}
}

// A word's distance and predecessor.
pub(super) fn parts(word: Word<28>) -> Option<(u64, u32)> {
    Some((word.dist()?, word.pred()?))
}

// What a run tells of the second of two vertices from the first.
fn pair(
    rt: &(impl Abort + AllocGlobal + Threads + Wait + Sync),
    graph: &Graph,
    delta: u64,
    workers: u32,
    ends: (u32, u32),
) -> Told
    requires { graph.now.n ≤ 10000 }
{
    let (delta, workers) = (width(rt, delta), crew(rt, workers));
    let found = run_pair(rt, rt.alloc(), graph, delta, workers, ends.0, ends.1)?;
    Ok(found.and_then(parts))
}

// Whether runs by every number of workers tell this.
fn crews_tell(
    rt: &(impl Abort + AllocGlobal + Threads + Wait + Sync),
    graph: &Graph,
    delta: u64,
    ends: (u32, u32),
    want: Told,
) -> bool
    requires { graph.now.n ≤ 10000 }
{
    for workers in WORKERS {
        if pair(rt, graph, delta, workers, ends) != want {
            return false;
        }
    }
    true
}

// Whether runs on the graph of these arcs do, with each of these widths.
fn all_tell(
    rt: &(impl Abort + AllocGlobal + Threads + Wait + Sync),
    n: u32,
    arcs: &[Triple],
    deltas: &[u64],
    ends: (u32, u32),
    want: Told,
) -> Result<bool, AllocError>
    requires { (1 ≤ n) × (n ≤ 10000) }
{
    let graph = graph_of(rt.alloc(), n, arcs)?;
    for delta in deltas {
        if !crews_tell(rt, &graph, *delta, ends, want) {
            return Ok(false);
        }
    }
    Ok(true)
}

#[test]
fn diamond(rt: HostRuntime) -> Result<(), Fail> {
    for (ends, told) in [
        ((1, 4), Some((5, 2))),
        ((1, 1), Some((0, 0))),
        ((4, 1), None),
    ] {
        assert!(rt; all_tell(&rt, 4, &DIAMOND, &DELTAS, ends, Ok(told))?);
    }
    Ok(())
}

#[test]
fn beyond_the_limit(rt: HostRuntime) -> Result<(), Fail> {
    let arcs = long_path(rt.alloc(), 15)?;
    for (ends, told) in [
        ((1, 17), Ok(Some((68_719_476_720, 16)))),
        ((1, 18), Err(RunError::TooFar(18))),
        ((18, 1), Ok(None)),
    ] {
        assert!(rt; all_tell(&rt, 18, &arcs, &WIDE, ends, told)?);
    }
    Ok(())
}

#[test]
fn first_word_is_not_final(rt: HostRuntime) -> Result<(), Fail> {
    assert!(rt; all_tell(&rt, 3, &TRIANGLE, &DELTAS, (1, 3), Ok(Some((2, 2))))?);
    Ok(())
}

#[test]
fn no_such_vertex(rt: HostRuntime) -> Result<(), Fail> {
    for ends in [(0, 1), (5, 1), (1, 0), (1, 5)] {
        assert!(rt; all_tell(&rt, 4, &DIAMOND, &DELTAS, ends, Err(RunError::NoSuchVertex))?);
    }
    Ok(())
}

// What a run from 1 to 2 tells, and how many offers it makes.
fn count_offers(
    rt: &(impl Abort + AllocGlobal + Threads + Wait + Sync),
    graph: &Graph,
    workers: u32,
) -> Result<(Option<(u64, u32)>, u64), RunError>
    requires { graph.now.n ≤ 10000 }
{
    let gate = Counter {
        offers: AtomicU64::new(0),
    };
    let (delta, workers) = (width(rt, 1), crew(rt, workers));
    let found = run_pair_with(rt, rt.alloc(), graph, delta, workers, 1, 2, &gate)?;
    Ok((found.and_then(parts), gate.offers.load(Ordering::SeqCst)))
}

#[test]
fn ends_with_the_target(rt: HostRuntime) -> Result<(), Fail> {
    let graph = graph_of(rt.alloc(), 4, &[(1, 2, 5), (2, 3, 5), (3, 4, 5)])?;
    for workers in WORKERS {
        assert!(rt; count_offers(&rt, &graph, workers) == Ok((Some((5, 1)), 1)));
    }
    Ok(())
}

// What the plain program tells of a target.
fn plain_pair(answer: &Answer<28>, target: u32) -> Told {
    let Answer::Tree(words) = answer else {
        return Err(RunError::Memory);
    };
    let word = words.get((target as usize).wrapping_sub(1));
    Ok(word.and_then(|word| parts(*word)))
}

// Whether a run tells what the plain program does.
fn agrees(
    rt: &(impl Abort + AllocGlobal + Threads + Wait + Sync),
    graph: &Graph,
    answer: &Answer<28>,
    workers: u32,
    ends: (u32, u32),
) -> bool
    requires { graph.now.n ≤ 10000 }
{
    pair(rt, graph, graph.mean_length(), workers, ends) == plain_pair(answer, ends.1)
}

// Whether runs for two random targets of a random graph do, by one worker and by two.
fn both_agree(
    rt: &(impl Abort + AllocGlobal + Threads + Wait + Sync),
    random: &mut Random,
    kind: GraphKind,
) -> Result<bool, AllocError> {
    let n = random.up_to(200);
    let graph = random_graph(rt.alloc(), random, kind, n)?;
    let source = random.up_to(n);
    let answer = plain_tree(rt.alloc(), &graph, source)?;
    let (one, other) = (random.up_to(n), random.up_to(n));
    Ok(
        agrees(rt, &graph, &answer, 1, (source, one))
            && agrees(rt, &graph, &answer, 2, (source, other)),
    )
}

// Whether runs on many random graphs do.
fn all_agree(
    rt: &(impl Abort + AllocGlobal + Threads + Wait + Sync),
    random: &mut Random,
    kind: GraphKind,
) -> Result<bool, AllocError> {
    for _ in 0..40 {
        if !both_agree(rt, random, kind)? {
            return Ok(false);
        }
    }
    Ok(true)
}

#[test]
fn random_targets(rt: HostRuntime) -> Result<(), Fail> {
    let mut random = Random::new(11);
    for kind in [GraphKind::Sparse, GraphKind::Ties, GraphKind::Parts] {
        assert!(rt; all_agree(&rt, &mut random, kind)?);
    }
    Ok(())
}
