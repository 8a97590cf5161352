//! Rows of a small graph, and rows whose memory is refused.
ghost use Rattle.std.specs.Prelude.{◌≤◌};

use sp_graph::{Graph, Rows};
use sp_paths::Arc;
use std::alloc::{AllocError, Global};
use std::test::Fail;
use tests_samples::{Triple, arcs_of, graph_of};

// Whether these are the arcs, by tail, head and length.
fn are(row: &[Arc], want: &[Triple]) -> bool {
    row.len() == want.len()
        && row
            .iter()
            .zip(want)
            .all(|(arc, want)| (arc.tail, arc.head, arc.len) == *want)
}

#[test]
fn light_and_heavy(rt: HostRuntime) -> Result<(), Fail> {
    let graph = graph_of(rt.alloc(), 3, &[(1, 2, 3), (1, 3, 4)])?;
    let rows = Rows::split(rt.alloc(), &graph, 3)?;
    assert!(rt; rows.n() == 3);
    assert!(rt; are(rows.light(1), &[(1, 2, 3)]));
    assert!(rt; are(rows.heavy(1), &[(1, 3, 4)]));
    assert!(rt; rows.light(3).is_empty() && rows.heavy(3).is_empty());
    Ok(())
}

// The next of a sequence of random-looking numbers.
fn next_number(number: u32) -> u32 {
    number.wrapping_mul(1_664_525).wrapping_add(1_013_904_223)
}

// Random-looking arcs between `n` vertices, by tail, head and length, in no order.
fn drawn(alloc: Global, n: u32, count: u32) -> Result<Vec<Triple>, AllocError>
    requires { 1 ≤ n }
{
    let mut arcs = Vec::new(alloc);
    let mut number = 1;
    for _ in 0..count {
        let tail = next_number(number);
        let head = next_number(tail);
        number = next_number(head);
        arcs.push((
            (tail >> 8) % n + 1,
            (head >> 8) % n + 1,
            (number >> 8) % 3 + 1,
        ))?;
    }
    Ok(arcs)
}

// Whether the row of each arc's tail has the arc.
fn has_all(graph: &Graph, arcs: &[Triple]) -> bool {
    for (tail, head, len) in arcs {
        let is_there = graph.has_vertex(*tail)
            && graph
                .row(*tail)
                .iter()
                .any(|arc| arc.head == *head && arc.len == *len);
        if !is_there {
            return false;
        }
    }
    true
}

// Whether random-looking arcs get rows, whole and split, and none is lost.
fn makes_rows(alloc: Global, n: u32, count: u32) -> Result<bool, AllocError>
    requires { 1 ≤ n }
{
    let arcs = drawn(alloc, n, count)?;
    let graph = Graph::from_arcs(alloc, n, arcs_of(alloc, n, &arcs)?)?;
    let rows = Rows::split(alloc, &graph, 2)?;
    Ok(rows.n() == n && graph.m() == arcs.len() && has_all(&graph, &arcs))
}

// If memory is refused once, at any call, that call reports it, and the other attempt makes its rows correctly. Rows of 50,000
// vertices are in two ranges.
#[test]
fn refused_memory(rt: HostRuntime) {
    for n in [40, 50_000] {
        let first = makes_rows(rt.alloc(), n, 200);
        let second = makes_rows(rt.alloc(), n, 200);
        assert!(rt; first.is_ok() || second.is_ok());
        assert!(rt; first.unwrap_or(true) && second.unwrap_or(true));
    }
}
