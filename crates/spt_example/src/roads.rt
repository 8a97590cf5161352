//! A graph that is built in memory.
ghost use Rattle.std.specs.Prelude.{◌≡◌, IfOk};

use sp_graph::Graph;
use sp_paths::Arc;
use std::alloc::{AllocError, Global};

fn arc(tail: u32, head: u32, len: u32) -> Arc
    ensures { result ≡ record { tail = tail; head = head; len = len } }
{
    Arc { tail, head, len }
}

/// Six vertices, to the last of which no arc leads.
pub fn roads(alloc: Global) -> Result<Graph, AllocError>
    ensures { IfOk result (λ graph. graph.n ≡ 6) }
{
    let arcs = [
        arc(1, 2, 4),
        arc(1, 3, 2),
        arc(3, 2, 1),
        arc(2, 4, 5),
        arc(3, 4, 8),
        arc(4, 5, 3),
    ];
    Graph::build(alloc, 6, &arcs)
}
