//! A graph that has several owners.
ghost use Rattle.std.specs.Prelude.{◌≡◌, IfOk};
ghost use Rattle.spt_c.specs.Owners.{owned, held};

mod graph;

pub use graph::{HeldGraph, SharedGraph};
use sp_graph::Graph;
use sp_lists::{AnySearchPool, Prepared};
use std::alloc::{AllocError, Global};
use std::sync::Arc;

impl SharedGraph {
    /// Makes the first owner of a graph.
    pub fn new(alloc: Global, graph: Graph) -> Result<SharedGraph, AllocError>
        ensures { IfOk result (λ shared. owned shared ≡ graph) }
    {
        Ok(SharedGraph {
            graph: Arc::new(alloc, graph.with_places(alloc))?,
            pool: AnySearchPool::new(),
        })
    }

    /// Makes one more owner of the same graph.
    pub fn another(&self) -> Result<SharedGraph, AllocError>
        ensures { IfOk result (λ shared. owned shared ≡ owned self.now) }
    {
        Ok(SharedGraph {
            graph: Arc::try_clone(&self.graph)?,
            pool: AnySearchPool::new(),
        })
    }

    /// Returns the graph.
    pub fn graph(&self) -> &Graph
        ensures { result.now ≡ owned self.now }
    {
        &self.graph
    }

    /// Returns the graph with its search buffers.
    pub fn prepared(&self) -> Prepared<'_>
        ensures { result.graph.now ≡ owned self.now }
    {
        Prepared {
            graph: &self.graph,
            pool: &self.pool,
        }
    }
}

impl HeldGraph {
    /// Returns the graph.
    pub fn graph(&self) -> &Graph
        ensures { result.now ≡ held self.now }
    {
        self.shared.graph()
    }

    /// Returns the graph, and buffers for searches in it. They keep their words until the next call.
    pub fn prepared(&self) -> Prepared<'_>
        ensures { result.graph.now ≡ held self.now }
    {
        self.shared.prepared()
    }
}
