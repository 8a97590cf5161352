//! The law of walks.
ghost use Rattle.std.specs.Prelude.{◌≡◌};
ghost use Rattle.sp_paths.specs.Paths.{IsVertex, IsLawful};

use sp_graph::Graph;
use sp_offer::Lawful;
use std::marker::Model;

/// Allows a pair for a vertex only if some walk from the source to that vertex has this distance and its last arc
/// leaves this predecessor; for the source it also allows (0, 0).
#[derive(Drop)]
pub struct Walks<'g> {
    graph: &'g Graph,
    source: u32,
}

impl<'g> Model for Walks<'g> {
    ghost use Rattle.sp_run.specs.Walks.{WalksFrom};

    ghost Value = { WalksFrom };

    ghost view = { λ w. record { graph = w.graph.now; source = w.source } };
}

impl<'g> Walks<'g> {
    /// Makes the law of the walks from a vertex of the graph.
    pub fn new(graph: &'g Graph, source: u32) -> Walks<'g>
        requires { IsVertex graph.now.n source }
        ensures graph { result.graph ≡ graph.entry.now }
        ensures source { result.source ≡ source }
    {
        Walks { graph, source }
    }
}

impl<'g> Lawful for Walks<'g> {
    ghost allows = { λ w. IsLawful w.graph w.source };
}
