// This module contains only the types, so that definitions can name them.
use sp_graph::Graph;
use sp_lists::AnySearchPool;
use std::sync::Arc;

/// One owner of a graph. The graph is freed with its last owner. Each owner has buffers of its own for searches in the
/// graph.
#[derive(Drop)]
pub struct SharedGraph {
    pub(crate) graph: Arc<Graph>,
    pub(crate) pool: AnySearchPool,
}

/// A graph that was taken out of its place.
#[derive(Drop)]
pub struct HeldGraph {
    pub(crate) shared: Box<SharedGraph>,
}
