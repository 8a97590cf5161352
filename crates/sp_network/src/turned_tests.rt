//! Compares turned graphs and graphs both ways with arcs that are written out, and with the result of a plain loop.
ghost use Rattle.std.specs.Prelude.{◌≡◌, ◌≤◌, All, IfOk, IfSome};
ghost use Rattle.sp_paths.specs.Paths.{IsArc};

use crate::{both_ways, both_ways_alone, turned, turned_alone};
use sp_graph::Graph;
use sp_paths::Arc;
use sp_word::Workers;
use std::alloc::{AllocError, Global};
use std::test::Fail;
use std::thread::Threads;

// An arc by its tail, its head and its length.
type Triple = (u32, u32, u32);

// The arc, if it is one of a graph of `n` vertices.
fn arc_of(n: u32, triple: Triple) -> Option<Arc>
    ensures { IfSome result (IsArc n) }
{
    let (tail, head, len) = triple;
    if tail < 1 || tail > n || head < 1 || head > n || len < 1 {
        return None;
    }
    Some(Arc { tail, head, len })
}

// The arcs, without those that no graph of `n` vertices has.
fn arcs_of(alloc: Global, n: u32, triples: &[Triple]) -> Result<Vec<Arc>, AllocError>
    ensures { IfOk result (λ arcs. All (IsArc n) arcs.items) }
{
    let mut arcs = Vec::new(alloc);
    for triple in triples {
        if let Some(arc) = arc_of(n, *triple) {
            arcs.push(arc)?;
        }
    }
    Ok(arcs)
}

// Whether the graph has `n` vertices and exactly these arcs, in this order.
fn is(graph: &Graph, n: u32, want: &[Triple]) -> bool {
    graph.n() == n
        && graph.m() == want.len()
        && graph
            .arcs()
            .iter()
            .zip(want)
            .all(|(arc, want)| (arc.tail, arc.head, arc.len) == *want)
}

// Whether a graph of `n` vertices with these arcs has the expected arcs when it is turned, and when its arcs lead both ways.
fn stands<R: Threads + Sync>(
    rt: &R,
    alloc: Global,
    n: u32,
    triples: &[Triple],
    round: &[Triple],
    both: &[Triple],
) -> Result<bool, AllocError>
    requires { 1 ≤ n }
{
    let arcs = arcs_of(alloc, n, triples)?;
    let graph = Graph::from_arcs(alloc, n, arcs)?;
    let workers = Workers::one();
    let other = turned(rt, alloc, &graph, workers)?;
    let wide = both_ways(rt, alloc, &graph, workers)?;
    let is_so = is(&other, n, round) && is(&wide, n, both);
    let other = turned_alone(alloc, &graph)?;
    let wide = both_ways_alone(alloc, &graph)?;
    Ok(graph.m() == triples.len() && is_so && is(&other, n, round) && is(&wide, n, both))
}

#[test]
fn small_graphs(rt: HostRuntime) -> Result<(), Fail> {
    let arcs = [(1, 2, 3), (1, 3, 3), (2, 4, 2), (3, 4, 2), (1, 4, 6)];
    let round = [(2, 1, 3), (3, 1, 3), (4, 1, 6), (4, 2, 2), (4, 3, 2)];
    let both = [
        (1, 2, 3),
        (1, 3, 3),
        (1, 4, 6),
        (2, 1, 3),
        (2, 4, 2),
        (3, 1, 3),
        (3, 4, 2),
        (4, 1, 6),
        (4, 2, 2),
        (4, 3, 2),
    ];
    let four = stands(&rt, rt.alloc(), 4, &arcs, &round, &both)?;
    assert!(rt; four);
    let again = [(1, 1, 5), (1, 1, 5)];
    let one = stands(&rt, rt.alloc(), 1, &[(1, 1, 5)], &[(1, 1, 5)], &again)?;
    assert!(rt; one);
    let none = stands(&rt, rt.alloc(), 1, &[], &[], &[])?;
    assert!(rt; none);
    Ok(())
}

// The next pseudo-random number.
fn next_number(number: u32) -> u32 {
    number.wrapping_mul(1_664_525).wrapping_add(1_013_904_223)
}

// Returns `count` random arcs between `n` vertices, in no order: many are parallel, and many are loops.
fn drawn(alloc: Global, n: u32, count: u32, seed: u32) -> Result<Vec<Triple>, AllocError>
    requires { 1 ≤ n }
{
    let mut triples = Vec::new(alloc);
    let mut number = seed;
    for _ in 0..count {
        let tail = next_number(number);
        let head = next_number(tail);
        number = next_number(head);
        triples.push((
            (tail >> 8) % n + 1,
            (head >> 8) % n + 1,
            (number >> 8) % 3 + 1,
        ))?;
    }
    Ok(triples)
}

// The first arcs and each of the others turned round, all in order.
fn with_turned(
    alloc: Global,
    first: &[Triple],
    triples: &[Triple],
) -> Result<Vec<Triple>, AllocError> {
    let mut all = first.to_vec(alloc)?;
    for triple in triples {
        all.push((triple.1, triple.0, triple.2))?;
    }
    all.sort()?;
    Ok(all)
}

// Whether a randomly generated graph has the arcs that a plain loop gives, turned and both ways.
fn drawn_stands<R: Threads + Sync>(
    rt: &R,
    alloc: Global,
    n: u32,
    count: u32,
    seed: u32,
) -> Result<bool, AllocError>
    requires { 1 ≤ n }
{
    let triples = drawn(alloc, n, count, seed)?;
    let round = with_turned(alloc, &[], &triples)?;
    let both = with_turned(alloc, &triples, &triples)?;
    stands(rt, alloc, n, &triples, &round, &both)
}

#[test]
fn drawn_graphs(rt: HostRuntime) -> Result<(), Fail> {
    for k in 0..200u32 {
        let stands = drawn_stands(&rt, rt.alloc(), k % 12 + 1, k % 50, k)?;
        assert!(rt; stands, "graph {k}");
    }
    Ok(())
}
