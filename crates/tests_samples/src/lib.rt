//! The graphs of the worked examples and their texts, for tests; and benches for rounds, for tests and benchmarks.
#![tactic(auto)]

ghost use Rattle.std.specs.Prelude.{◌≡◌, ◌≤◌, All, IfOk, IfSome};
ghost use Rattle.sp_paths.specs.Paths.{IsArc};

mod rounds;

pub use rounds::{Bench, MOST_DIST, MOST_VERTICES, any_tasks, set_up};
use sp_graph::Graph;
use sp_paths::Arc;
use std::alloc::{AllocError, Global};

/// An arc's tail, head and length.
pub type Triple = (u32, u32, u32);

/// A graph of one vertex and no arc.
pub const ALONE_GR: &str = "p sp 1 0\n";

/// Its tree.
pub const ALONE_TREE: &str = "p spt 1 1\nv 1 0 0\ne 1\n";

/// The arcs of a graph of four vertices, with a tie at the last.
pub const DIAMOND: [Triple; 5] = [(1, 2, 3), (1, 3, 3), (2, 4, 2), (3, 4, 2), (1, 4, 6)];

/// The graph's text.
pub const DIAMOND_GR: &str = "p sp 4 5\na 1 2 3\na 1 3 3\na 2 4 2\na 3 4 2\na 1 4 6\n";

/// Vertex, distance and predecessor of its tree from vertex 1.
pub const DIAMOND_ROWS: [(u32, u64, u32); 4] = [(1, 0, 0), (2, 3, 1), (3, 3, 1), (4, 5, 2)];

/// The tree's text.
pub const DIAMOND_TREE: &str = "p spt 4 1\nv 1 0 0\nv 2 3 1\nv 3 3 1\nv 4 5 2\ne 4\n";

/// A list of one source, vertex 1.
pub const FROM_ONE: &str = "p aux sp ss 1\ns 1\n";

/// An arc from each of 18 vertices to the next: 16 of the greatest length, and the last of the length given.
pub fn long_path(alloc: Global, last: u32) -> Result<Vec<Triple>, AllocError> {
    let mut arcs = Vec::new(alloc);
    for tail in 1..17u32 {
        arcs.push((tail, tail + 1, u32::MAX))?;
    }
    arcs.push((17, 18, last))?;
    Ok(arcs)
}

// The arc, if it is one of a graph of `n` vertices.
fn arc_of(n: u32, triple: Triple) -> Option<Arc>
    ensures { IfSome result (IsArc n) }
{
    let (tail, head, len) = triple;
    let is_arc = 1 <= tail && tail <= n && 1 <= head && head <= n && 1 <= len;
    if is_arc {
        Some(Arc { tail, head, len })
    } else {
        None
    }
}

/// The arcs given, without those that aren't arcs of a graph of `n` vertices.
pub fn arcs_of(alloc: Global, n: u32, triples: &[Triple]) -> Result<Vec<Arc>, AllocError>
    ensures { IfOk result (λ arcs. All (IsArc n) arcs.items) }
{
    let mut arcs = Vec::new(alloc);
    for triple in triples {
        if let Some(arc) = arc_of(n, *triple) {
            arcs.push(arc)?;
        }
    }
    Ok(arcs)
}

/// The graph of `n` vertices with these arcs.
pub fn graph_of(alloc: Global, n: u32, triples: &[Triple]) -> Result<Graph, AllocError>
    requires { 1 ≤ n }
    ensures { IfOk result (λ graph. graph.n ≡ n) }
{
    let arcs = arcs_of(alloc, n, triples)?;
    Graph::build(alloc, n, &arcs)
}
