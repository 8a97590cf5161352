//! Arcs in the form that C passes.
ghost use Rattle.std.specs.Prelude.{◌≡◌, ◌≤◌, ◌↔◌, IsTrue, IfSome, IfNone, IfOk, All, length, map};
ghost use Rattle.sp_paths.specs.Bags.{AreSame};
ghost use Rattle.sp_lists.specs.Limits.{IsFirstWithout};
ghost use Rattle.spt_c.specs.Arcs.{arc_of, graph_of};
ghost use Rattle.spt_c.specs.Asked.{IsArcOf};

use sp_graph::Graph;
use sp_lists::is_vertex;
use sp_paths::Arc;
use std::alloc::{AllocError, Global};

/// An arc passed by C. Calls test that it leads from a vertex to a vertex and has a positive length.
#[repr(C)]
#[derive(Clone, Copy, Debug, PartialEq, Eq)]
pub struct SptArc {
    pub tail: u32,
    pub head: u32,
    pub len: u32,
}

// Returns whether this is an arc of a graph of n vertices.
fn is_arc(n: u32, arc: SptArc) -> bool
    ensures { IsTrue result ↔ IsArcOf n arc }
{
    is_vertex(n, arc.tail) && is_vertex(n, arc.head) && 1 <= arc.len
}

/// Returns the index of the first invalid arc, if there is one.
pub(crate) fn first_bad(n: u32, arcs: &[SptArc]) -> Option<usize>
    ensures first { IfSome result (IsFirstWithout (IsArcOf n) arcs.now) }
    ensures none { IfNone result (All (IsArcOf n) arcs.now) }
{
    for (place, arc) in arcs.iter().enumerate() {
        if !is_arc(n, *arc) {
            return Some(place);
        }
    }
    None
}

// Returns the same arcs in the form that the engine takes.
fn converted(alloc: Global, arcs: &[SptArc]) -> Result<Vec<Arc>, AllocError>
    ensures { IfOk result (λ v. v.items ≡ map arc_of arcs.now) }
{
    arcs.iter()
        .map(|arc| Arc {
            tail: arc.tail,
            head: arc.head,
            len: arc.len,
        })
        .collect(alloc)
}

/// Returns the graph of n vertices with these arcs.
pub(crate) fn graph_of(alloc: Global, n: u32, arcs: &[SptArc]) -> Result<Graph, AllocError>
    requires some { 1 ≤ n }
    requires arcs { All (IsArcOf n) arcs.now }
    ensures same { IfOk result (λ graph. AreSame graph (graph_of n arcs.now)) }
    ensures count { IfOk result (λ graph. length graph.arcs ≡ length arcs.now) }
{
    let own = converted(alloc, arcs)?;
    Ok(Graph::from_arcs(alloc, n, own)?)
}
