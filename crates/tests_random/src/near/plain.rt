//! What a plain program tells of several sources: the lengths from each of them, and the least of those.

use crate::near::runs::Row;
use sp_answer::RunError;
use sp_graph::Graph;
use std::test::Fail;

// No walk leads there.
const NONE: u64 = u64::MAX;

// The length of a vertex.
fn length_of(lengths: &[u64], vertex: u32) -> u64 {
    match lengths.get((vertex as usize).wrapping_sub(1)) {
        Some(length) => *length,
        None => NONE,
    }
}

// Lowers the length of a vertex.
fn lower(lengths: &mut [u64], vertex: u32, length: u64) {
    if let Some(slot) = lengths.get_mut((vertex as usize).wrapping_sub(1)) {
        *slot = (*slot).min(length);
    }
}

// Lowers the head of each arc once.
fn pass(graph: &Graph, lengths: &mut [u64]) {
    for arc in graph.arcs() {
        let sum = length_of(lengths, arc.tail).saturating_add(u64::from(arc.len));
        lower(lengths, arc.head, sum);
    }
}

// Lowers each length to the one from a source.
fn lower_from(
    rt: &impl AllocGlobal,
    graph: &Graph,
    source: u32,
    nearest: &mut [u64],
) -> Result<(), Fail> {
    let mut lengths = vec![in rt.alloc(); NONE; graph.n() as usize]?;
    lower(lengths.as_mut_slice(), source, 0);
    for _ in 0..graph.n() {
        pass(graph, lengths.as_mut_slice());
    }
    let mut vertex = 0u32;
    for length in &lengths {
        vertex = vertex.saturating_add(1);
        lower(nearest, vertex, *length);
    }
    Ok(())
}

/// The least length from any of the sources to each vertex.
pub(crate) fn nearest_lengths(
    rt: &impl AllocGlobal,
    graph: &Graph,
    sources: &[u32],
) -> Result<Vec<u64>, Fail> {
    let mut nearest = vec![in rt.alloc(); NONE; graph.n() as usize]?;
    for source in sources {
        lower_from(rt, graph, *source, nearest.as_mut_slice())?;
    }
    Ok(nearest)
}

// The smallest tail of an arc by which a vertex has its length; 0 at a source.
fn predecessor(graph: &Graph, sources: &[u32], nearest: &[u64], vertex: u32) -> u32 {
    if sources.contains(&vertex) {
        return 0;
    }
    let mut least = u32::MAX;
    for arc in graph.arcs() {
        let sum = length_of(nearest, arc.tail).saturating_add(u64::from(arc.len));
        if arc.head == vertex && sum == length_of(nearest, vertex) {
            least = least.min(arc.tail);
        }
    }
    least
}

// Where the predecessors of a vertex lead.
fn root(graph: &Graph, sources: &[u32], nearest: &[u64], vertex: u32) -> u32 {
    let mut root = vertex;
    for _ in 0..graph.n() {
        let before = predecessor(graph, sources, nearest, root);
        if before == 0 {
            return root;
        }
        root = before;
    }
    root
}

/// The rows of the vertices that are no farther than the limit.
pub(crate) fn rows_within(
    rt: &impl AllocGlobal,
    graph: &Graph,
    sources: &[u32],
    nearest: &[u64],
    limit: u64,
) -> Result<Vec<Row>, Fail> {
    let mut rows = Vec::new(rt.alloc());
    let mut vertex = 0u32;
    for length in nearest {
        vertex = vertex.saturating_add(1);
        if *length <= limit {
            let before = predecessor(graph, sources, nearest, vertex);
            let root = root(graph, sources, nearest, vertex);
            rows.push((vertex, *length, before, root))?;
        }
    }
    Ok(rows)
}

// The smallest vertex beyond the limit that an arc reaches from one within it, if there is one.
fn far(graph: &Graph, nearest: &[u64], limit: u64) -> Option<u32> {
    let mut least = u32::MAX;
    for arc in graph.arcs() {
        if length_of(nearest, arc.tail) <= limit && length_of(nearest, arc.head) > limit {
            least = least.min(arc.head);
        }
    }
    if least == u32::MAX { None } else { Some(least) }
}

/// What a run without a limit is to tell, where words hold distances up to this one.
pub(crate) fn answer(
    rt: &impl AllocGlobal,
    graph: &Graph,
    sources: &[u32],
    nearest: &[u64],
    most: u64,
) -> Result<Result<Vec<Row>, RunError>, Fail> {
    match far(graph, nearest, most) {
        Some(vertex) => Ok(Err(RunError::TooFar(vertex))),
        None => Ok(Ok(rows_within(rt, graph, sources, nearest, most)?)),
    }
}
