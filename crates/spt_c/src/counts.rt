//! The size of a kept graph.
ghost use Rattle.std.specs.Prelude.{◌≡◌, Some};
ghost use Rattle.spt_c.specs.Place.{kept, IsInUse, IsFree, IsSame};
ghost use Rattle.spt_c.specs.InUse.{counts_in_use};
ghost use Rattle.spt_c.specs.Kept.{counts_of};

use crate::kept::of_kept;
use crate::place::{KeptGraph, Taken};
use sp_graph::Graph;
use std::alloc::Global;

/// The numbers of vertices and arcs of a graph, or the status for no graph.
#[repr(C)]
#[derive(Clone, Copy, Debug, PartialEq, Eq)]
pub struct SptCounts {
    pub status: u32,
    pub n: u32,
    pub m: u64,
}

// Returns the size of a graph.
fn counts_of(graph: &Graph) -> SptCounts
    ensures { result ≡ counts_of (Some graph.now) }
{
    SptCounts {
        status: 0,
        n: graph.n(),
        m: graph.m() as u64,
    }
}

// Returns the result of a call that finds no graph, by its status.
fn empty(status: u32) -> SptCounts
    ensures { result ≡ record { status = status; n = 0; m = 0 } }
{
    SptCounts { status, n: 0, m: 0 }
}

/// Returns the size of the graph in a place. The place still keeps the graph.
pub(crate) fn counts(alloc: Global, graph: &mut KeptGraph) -> SptCounts
    ensures counts { IsFree graph.old → result ≡ counts_of (kept graph.old) }
    ensures in_use { IsInUse graph.old → result ≡ counts_in_use }
    ensures same { IsSame graph.old graph.new }
{
    of_kept!(alloc, graph, held => counts_of(held.graph()), empty(10), empty(12))
}
