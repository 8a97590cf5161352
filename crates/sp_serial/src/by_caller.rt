//! The calling thread as an engine.
use crate::run_alone::words_alone;
use sp_answer::{Engine, RunError, RunRequest, RunWords};
use sp_graph::Graph;
use std::alloc::Global;

/// The calling thread, which answers runs alone: it starts no thread and never waits.
#[derive(Clone, Copy)]
pub struct ByCaller;

impl<const P: u32> Engine<P> for ByCaller {
    ghost can_run = { λ _. Unit {0} };

    fn run(&self, alloc: Global, graph: &Graph, run: RunRequest) -> Result<RunWords<P>, RunError> {
        words_alone::<P>(alloc, graph, run)
    }
}
