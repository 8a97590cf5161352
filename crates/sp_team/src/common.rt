//! The state shared by all workers of a team.
use crate::chunk::Chunk;
use crate::deques::{TeamDeques, make_deques};
use crate::schedule::FINER;
use crate::search::Search;
use crate::signals::Signals;
use crossbeam_deque::{Stealer, Worker};
use std::alloc::{AllocError, Global};

/// The state shared by all workers of a team.
///
/// It has no lifetime parameter: a closure that captures a type with a lifetime loses its contract clauses.
#[derive(Drop)]
pub struct Common {
    pub alloc: Global,
    /// The signals that the workers exchange.
    pub signals: Signals,
    /// The ends of the workers' deques from which others steal.
    pub stealers: Vec<Stealer<Chunk>>,
    /// The vertices whose arcs are relaxed first.
    pub queue: Vec<u32>,
    /// The vertices whose words are wanted; empty if all are.
    pub targets: Vec<u32>,
    /// The greatest distance wanted.
    pub limit: u64,
    /// A bucket's width starts as 2 to this power.
    pub shift: u32,
}

impl Common {
    /// Makes the shared state of a search, and each worker's deque.
    pub fn new<const P: u32>(
        alloc: Global,
        search: &Search<P>,
    ) -> Result<(Common, Vec<Worker<Chunk>>), AllocError> {
        let workers = search.team.workers.get() as usize;
        let TeamDeques { owners, stealers } = make_deques(alloc, workers)?;
        let common = Common {
            alloc,
            signals: Signals::new(alloc, workers)?,
            stealers,
            queue: Vec::from_slice(alloc, search.queue)?,
            targets: Vec::from_slice(alloc, search.targets)?,
            limit: search.limit,
            shift: search.team.delta.get().ilog2().saturating_sub(FINER),
        };
        Ok((common, owners))
    }
}
