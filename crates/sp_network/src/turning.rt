//! Graphs whose arcs are turned round.
ghost use Rattle.std.specs.Prelude.{◌≡◌, All, IfOk};
ghost use Rattle.sp_paths.specs.Paths.{IsArc};
ghost use Rattle.sp_graph.specs.Order.{IsInOrder};
ghost use Rattle.sp_network.specs.Turned.{IsTurned, turned};

use crate::arcs::turned_arc;
use sp_graph::Graph;
use sp_paths::Arc;
use sp_word::Workers;
use std::alloc::{AllocError, Global};
use std::thread::Threads;

// Returns the arcs of a graph, each turned round.
fn turned_arcs(alloc: Global, graph: &Graph) -> Result<Vec<Arc>, AllocError>
    ensures turned { IfOk result (λ arcs. arcs.items ≡ turned graph.now.arcs) }
    ensures arcs { IfOk result (λ arcs. All (IsArc graph.now.n) arcs.items) }
{
    let mut arcs = Vec::with_capacity(alloc, graph.m())?;
    for arc in graph.arcs() {
        arcs.push(turned_arc(arc))?;
    }
    Ok(arcs)
}

/// Returns the graph with each arc turned round: a walk to `v` in one graph is a walk from `v` in the other.
///
/// It takes linear time: the arcs of each row are in order as soon as they are grouped by tail. It uses as many threads as there
/// are workers, or fewer, as `Graph::from_arcs_by` does. The call fails only if there is no memory for two more lists of the arcs
/// and for `n + 1` indices.
pub fn turned<R: Threads + Sync>(
    rt: &R,
    alloc: Global,
    graph: &Graph,
    workers: Workers,
) -> Result<Graph, AllocError>
    ensures turned { IfOk result (λ other. IsTurned graph.now other) }
    ensures order { IfOk result (λ other. IsInOrder other.arcs) }
{
    let n = graph.n();
    let arcs = turned_arcs(alloc, graph)?;
    Graph::from_arcs_by(rt, alloc, n, arcs, workers)
}

/// Returns the graph with each arc turned round, as `turned` does, on the calling thread alone.
pub fn turned_alone(alloc: Global, graph: &Graph) -> Result<Graph, AllocError>
    ensures turned { IfOk result (λ other. IsTurned graph.now other) }
    ensures order { IfOk result (λ other. IsInOrder other.arcs) }
{
    let n = graph.n();
    let arcs = turned_arcs(alloc, graph)?;
    Graph::from_arcs(alloc, n, arcs)
}
