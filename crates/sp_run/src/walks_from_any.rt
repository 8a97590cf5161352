//! The law of walks from several sources.
ghost use Rattle.std.specs.Prelude.{◌≡◌, All};
ghost use Rattle.sp_paths.specs.Paths.{IsVertex};
ghost use Rattle.sp_paths.specs.Forests.{IsLawful};

use sp_graph::Graph;
use sp_offer::Lawful;
use std::marker::Model;

/// Allows a pair for a vertex only if some walk from one of the sources to that vertex has this distance and its last arc
/// leaves this predecessor; for each source it also allows (0, 0).
#[derive(Drop)]
pub struct WalksFromAny<'g> {
    graph: &'g Graph,
    sources: &'g [u32],
}

impl<'g> Model for WalksFromAny<'g> {
    ghost use Rattle.sp_run.specs.Sources.{WalkSources};

    ghost Value = { WalkSources };

    ghost view = { λ w. record { graph = w.graph.now; sources = w.sources.now } };
}

impl<'g> WalksFromAny<'g> {
    /// Makes the law of the walks from vertices of the graph.
    pub fn new(graph: &'g Graph, sources: &'g [u32]) -> WalksFromAny<'g>
        requires { All (IsVertex graph.now.n) sources.now }
        ensures graph { result.graph ≡ graph.entry.now }
        ensures sources { result.sources ≡ sources.entry.now }
    {
        WalksFromAny { graph, sources }
    }
}

impl<'g> Lawful for WalksFromAny<'g> {
    ghost allows = { λ w. IsLawful w.graph w.sources };
}
