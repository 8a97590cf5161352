//! The engine and the plain program agree on graphs with the size and the shape of a town's roads.
ghost use Rattle.std.specs.Prelude.{◌≡◌, ◌≤◌, IfOk};

use crate::runs::{run, run_by_team, same};
use sp_graph::Graph;
use sp_judge::{Answer, Random, plain_tree};
use sp_word::Word;
use std::alloc::{AllocError, Global};
use std::process::Abort;
use std::sync::Wait;
use std::thread::Threads;
use tests_samples::{Triple, graph_of};

// Vertices form a square grid, row by row.
const SIDE: u32 = 100;

const N: u32 = 10_000;

// Streets lead both ways between neighbours on the grid; roads lead both ways between any two vertices.
#[derive(Clone, Copy)]
struct RoadMap {
    // the share of possible streets that exist, in percent
    kept: u32,
    // a street's length is from 1 more than this ..
    base: u32,
    // .. up to the sum of both
    spread: u32,
    // roads, each from 5,000 to 50,000 long
    roads: u32,
    // the number of parts; no street leads from one part to another
    parts: u32,
    ghost some: { 1 ≤ spread },
}

const TOWN: RoadMap = RoadMap {
    kept: 64,
    base: 49,
    spread: 1451,
    roads: 100,
    parts: 1,
};

const TIES: RoadMap = RoadMap {
    kept: 100,
    base: 0,
    spread: 1,
    roads: 0,
    parts: 1,
};

const PARTS: RoadMap = RoadMap {
    kept: 100,
    base: 0,
    spread: 100,
    roads: 0,
    parts: 7,
};

fn push_both(arcs: &mut Vec<Triple>, one: u32, other: u32, len: u32) -> Result<(), AllocError> {
    arcs.push((one, other, len))?;
    arcs.push((other, one, len))?;
    Ok(())
}

// The part to which a vertex belongs.
fn part_of(map: RoadMap, vertex: u32) -> u64 {
    u64::from(vertex.saturating_sub(1)) * u64::from(map.parts) / u64::from(N)
}

// Adds a street, at random, from a vertex to the one that is `step` vertices later.
fn push_street(
    map: RoadMap,
    random: &mut Random,
    arcs: &mut Vec<Triple>,
    tail: u32,
    step: u32,
) -> Result<(), AllocError> {
    let head = tail.saturating_add(step);
    let is_round_the_edge = step == 1 && tail % SIDE == 0;
    let is_apart = part_of(map, tail) != part_of(map, head);
    if head > N || is_round_the_edge || is_apart || random.below(100) >= map.kept {
        return Ok(());
    }
    let len = map.base.saturating_add(random.up_to(map.spread));
    push_both(arcs, tail, head, len)
}

// Adds the streets.
fn push_streets(
    map: RoadMap,
    random: &mut Random,
    arcs: &mut Vec<Triple>,
) -> Result<(), AllocError> {
    for place in 0..N {
        push_street(map, random, arcs, place + 1, 1)?;
        push_street(map, random, arcs, place + 1, SIDE)?;
    }
    Ok(())
}

// Adds the roads.
fn push_roads(map: RoadMap, random: &mut Random, arcs: &mut Vec<Triple>) -> Result<(), AllocError> {
    for _ in 0..map.roads {
        let (tail, head) = (random.up_to(N), random.up_to(N));
        let len = random.up_to(45_001).saturating_add(4_999);
        push_both(arcs, tail, head, len)?;
    }
    Ok(())
}

fn graph_by(alloc: Global, map: RoadMap, random: &mut Random) -> Result<Graph, AllocError>
    ensures { IfOk result (λ graph. graph.n ≡ 10000) }
{
    let mut arcs = Vec::new(alloc);
    push_streets(map, random, &mut arcs)?;
    push_roads(map, random, &mut arcs)?;
    graph_of(alloc, N, &arcs)
}

// Compares a team's runs with the plain program for several bucket widths.
fn compare_widths(
    rt: &(impl Abort + AllocGlobal + Threads + Wait + Sync),
    graph: &Graph,
    source: u32,
    want: &Answer<28>,
)
    requires { graph.now.n ≡ 10000 }
{
    let mean = graph.mean_length();
    let deltas = [
        (mean / 3).max(1),
        mean,
        mean.saturating_mul(3),
        Word::<28>::max_dist(),
    ];
    for delta in deltas {
        for workers in [1, 2, 8] {
            let told = run_by_team(rt, graph, delta, workers, source);
            assert!(rt; same(&told, want), "delta {delta}, {workers} workers");
        }
    }
}

// Compares runs that share every round. The buckets are wide, so that there aren't too many rounds. The source isn't cut off: the
// run reaches at least 1,000 vertices.
fn compare_shared(
    rt: &(impl Abort + AllocGlobal + Threads + Wait + Sync),
    graph: &Graph,
    source: u32,
    want: &Answer<28>,
)
    requires { graph.now.n ≡ 10000 }
{
    let delta = graph.mean_length().saturating_mul(3);
    for workers in [1, 2, 8] {
        let told = run(rt, graph, delta, workers, source);
        assert!(rt; same(&told, want), "{workers} workers, every round shared");
        assert!(rt; matches!(&told, Ok(tree) if tree.rows().len() >= 1000));
    }
}

// Compares both on the graph and the source that the seed gives.
fn compare(
    rt: &(impl Abort + AllocGlobal + Threads + Wait + Sync),
    map: RoadMap,
    seed: u64,
) -> Result<(), AllocError> {
    let mut random = Random::new(seed);
    let graph = graph_by(rt.alloc(), map, &mut random)?;
    let source = random.up_to(N);
    let want = plain_tree(rt.alloc(), &graph, source)?;
    compare_widths(rt, &graph, source, &want);
    compare_shared(rt, &graph, source, &want);
    Ok(())
}

#[test]
fn town(rt: HostRuntime) -> Result<(), AllocError> {
    compare(&rt, TOWN, 1)
}

#[test]
fn second_town(rt: HostRuntime) -> Result<(), AllocError> {
    compare(&rt, TOWN, 2)
}

#[test]
fn third_town(rt: HostRuntime) -> Result<(), AllocError> {
    compare(&rt, TOWN, 3)
}

#[test]
fn grid_of_ties(rt: HostRuntime) -> Result<(), AllocError> {
    compare(&rt, TIES, 4)
}

#[test]
fn grids_apart(rt: HostRuntime) -> Result<(), AllocError> {
    compare(&rt, PARTS, 5)
}
