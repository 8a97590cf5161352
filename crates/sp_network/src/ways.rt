//! Graphs whose arcs lead both ways.
ghost use Rattle.std.specs.Prelude.{◌≡◌, ◌*◌, ◌<◌, ◌^◌, length, All, IfOk, OnOk};
ghost use Rattle.sp_paths.specs.Paths.{IsArc};
ghost use Rattle.sp_graph.specs.Order.{IsInOrder};
ghost use Rattle.sp_network.specs.Turned.{IsBothWays, with_turned};

use crate::arcs::turned_arc;
use sp_graph::Graph;
use sp_paths::Arc;
use sp_word::Workers;
use std::alloc::{AllocError, Global};
use std::thread::Threads;

// Returns the arcs of a graph, each followed by the same arc turned round, unless these are 2^32 arcs or more.
#[tactic(auto, using(std::proofs::lemmas::Grind::common_steps, crate::proofs::TurnedArcs::with_turned_push))]
fn both_arcs(alloc: Global, graph: &Graph) -> Result<Vec<Arc>, AllocError>
    ensures both { IfOk result (λ arcs. arcs.items ≡ with_turned graph.now.arcs) }
    ensures arcs { IfOk result (λ arcs. All (IsArc graph.now.n) arcs.items) }
    ensures few { OnOk result (2 * length graph.now.arcs < 2 ^ 32) }
{
    let m = graph.m();
    if m > u32::MAX as usize / 2 {
        return Err(AllocError);
    }
    let mut arcs = Vec::with_capacity(alloc, 2 * m)?;
    for arc in graph.arcs() {
        arcs.push(*arc)?;
        arcs.push(turned_arc(arc))?;
    }
    Ok(arcs)
}

/// Returns the graph with the arcs of this one and, for each of them, an arc of the same length from its head to its tail. If the
/// graph has both already, each appears twice afterwards, and so does a loop.
///
/// It takes linear time, except that sorting a row of `l` arcs takes `l log l`. It uses as many threads as there are workers, or
/// fewer, as `Graph::from_arcs_by` does. The call fails if twice the arcs are 2^32 or more, and otherwise only if there is no
/// memory for two lists of twice the arcs and for `n + 1` indices.
#[tactic(auto, using(crate::proofs::TurnedArcs::made_both))]
pub fn both_ways<R: Threads + Sync>(
    rt: &R,
    alloc: Global,
    graph: &Graph,
    workers: Workers,
) -> Result<Graph, AllocError>
    ensures both { IfOk result (λ other. IsBothWays graph.now other) }
    ensures order { IfOk result (λ other. IsInOrder other.arcs) }
    ensures few { OnOk result (2 * length graph.now.arcs < 2 ^ 32) }
{
    let n = graph.n();
    let arcs = both_arcs(alloc, graph)?;
    Graph::from_arcs_by(rt, alloc, n, arcs, workers)
}

/// Returns the graph whose arcs lead both ways, as `both_ways` does, on the calling thread alone.
#[tactic(auto, using(crate::proofs::TurnedArcs::made_both))]
pub fn both_ways_alone(alloc: Global, graph: &Graph) -> Result<Graph, AllocError>
    ensures both { IfOk result (λ other. IsBothWays graph.now other) }
    ensures order { IfOk result (λ other. IsInOrder other.arcs) }
    ensures few { OnOk result (2 * length graph.now.arcs < 2 ^ 32) }
{
    let n = graph.n();
    let arcs = both_arcs(alloc, graph)?;
    Graph::from_arcs(alloc, n, arcs)
}
