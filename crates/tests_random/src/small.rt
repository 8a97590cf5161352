//! The engine and the plain program agree on random graphs.
ghost use Rattle.std.specs.Prelude.{◌≡◌, ◌≤◌, true, IfOk};
ghost use Rattle.sp_word.specs.Word.{is_layout, max_pred};

use crate::runs::{run, run_by_team, same};
use sp_graph::Graph;
use sp_judge::{Answer, Random, plain_tree};
use sp_word::Word;
use std::alloc::{AllocError, Global};
use std::process::Abort;
use std::sync::Wait;
use std::thread::Threads;
use tests_samples::graph_of;

// A run by rounds starts new threads in each round, which takes long on a busy machine, so several workers do this only for one
// graph in this many.
const SHARED: u32 = 10;

// A random arc between any two of `n` vertices.
fn random_arc(random: &mut Random, n: u32, longest: u32) -> (u32, u32, u32)
    requires { (1 ≤ n) × (1 ≤ longest) }
{
    (random.up_to(n), random.up_to(n), random.up_to(longest))
}

// A graph of 1 to 200 vertices with up to three arcs a vertex. Loops, parallel arcs, ties and unreached parts occur by chance.
fn random_graph(alloc: Global, random: &mut Random, longest: u32) -> Result<Graph, AllocError>
    requires { 1 ≤ longest }
    ensures { IfOk result (λ graph. (1 ≤ graph.n) × (graph.n ≤ 200)) }
{
    let n = random.up_to(200);
    let m = random.below(n * 3);
    let mut arcs = Vec::new(alloc);
    for _ in 0..m {
        arcs.push(random_arc(random, n, longest))?;
    }
    graph_of(alloc, n, &arcs)
}

// Compares every number of workers with this bucket width: by a team, and, unless skipped, by rounds that are all shared.
fn compare_crews<const P: u32>(
    rt: &(impl Abort + AllocGlobal + Threads + Wait + Sync),
    graph: &Graph,
    number: u32,
    source: u32,
    delta: u64,
    want: &Answer<P>,
)
    requires layout { is_layout P ≡ true }
    requires n { graph.now.n ≤ max_pred P }
{
    for workers in [1, 2, 3, 8] {
        if workers == 1 || number % SHARED == 0 {
            let told = run(rt, graph, delta, workers, source);
            assert!(rt;
                same(&told, want),
                "graph {number}, delta {delta}, {workers} workers"
            );
        }
        let told = run_by_team(rt, graph, delta, workers, source);
        assert!(rt;
            same(&told, want),
            "graph {number}, delta {delta}, a team of {workers}"
        );
    }
}

// Compares runs with several widths.
fn compare_runs<const P: u32>(
    rt: &(impl Abort + AllocGlobal + Threads + Wait + Sync),
    graph: &Graph,
    number: u32,
    source: u32,
    want: &Answer<P>,
)
    requires layout { is_layout P ≡ true }
    requires n { graph.now.n ≤ max_pred P }
{
    let most = Word::<P>::max_dist();
    let longest = u64::from(graph.longest()).max(1);
    for delta in [1, 2, graph.mean_length(), longest, most] {
        compare_crews(rt, graph, number, source, delta.min(most), want);
    }
}

// Compares the engine and the plain program on random graphs, each from a random source.
fn compare<const P: u32>(
    rt: &(impl Abort + AllocGlobal + Threads + Wait + Sync),
    seed: u64,
    graphs: u32,
    longest: u32,
) -> Result<(), AllocError>
    requires layout { is_layout P ≡ true }
    requires longest { 1 ≤ longest }
{
    let mut random = Random::new(seed);
    for number in 0..graphs {
        let graph = random_graph(rt.alloc(), &mut random, longest)?;
        assert!(rt; graph.n() <= Word::<P>::max_pred());
        let source = random.up_to(graph.n());
        let want = plain_tree::<P>(rt.alloc(), &graph, source)?;
        compare_runs(rt, &graph, number, source, &want);
    }
    Ok(())
}

// Short arcs make many ties, and many rounds of several tasks.
#[test]
fn short_arcs(rt: HostRuntime) -> Result<(), AllocError> {
    compare::<28>(&rt, 1, 65, 3)
}

#[test]
fn more_short_arcs(rt: HostRuntime) -> Result<(), AllocError> {
    compare::<28>(&rt, 2, 65, 3)
}

#[test]
fn arcs_up_to_5(rt: HostRuntime) -> Result<(), AllocError> {
    compare::<28>(&rt, 3, 65, 5)
}

#[test]
fn arcs_up_to_10(rt: HostRuntime) -> Result<(), AllocError> {
    compare::<28>(&rt, 4, 65, 10)
}

#[test]
fn middling_arcs(rt: HostRuntime) -> Result<(), AllocError> {
    compare::<28>(&rt, 5, 120, 100)
}

#[test]
fn more_middling_arcs(rt: HostRuntime) -> Result<(), AllocError> {
    compare::<28>(&rt, 6, 120, 1000)
}

#[test]
fn long_arcs(rt: HostRuntime) -> Result<(), AllocError> {
    compare::<28>(&rt, 7, 125, u32::MAX)
}

#[test]
fn more_long_arcs(rt: HostRuntime) -> Result<(), AllocError> {
    compare::<28>(&rt, 8, 125, u32::MAX)
}

#[test]
fn sums_that_overflow(rt: HostRuntime) -> Result<(), AllocError> {
    compare::<32>(&rt, 9, 125, u32::MAX)
}

#[test]
fn more_sums_that_overflow(rt: HostRuntime) -> Result<(), AllocError> {
    compare::<32>(&rt, 10, 125, u32::MAX)
}
