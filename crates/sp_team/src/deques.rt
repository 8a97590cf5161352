//! The deques of a team, and stealing from any deques.
use crate::chunk::Chunk;
use crate::schedule::TRIES;
use crossbeam_deque::{Steal, Stealer, Worker};
use std::alloc::{AllocError, Global};

/// The deques of a team: each worker's own end, and the end from which the others steal.
#[derive(Drop)]
pub struct TeamDeques {
    pub owners: Vec<Worker<Chunk>>,
    pub stealers: Vec<Stealer<Chunk>>,
}

/// Makes one deque for each worker.
pub fn make_deques(alloc: Global, workers: usize) -> Result<TeamDeques, AllocError> {
    let mut owners = Vec::with_capacity(alloc, workers)?;
    let mut stealers = Vec::with_capacity(alloc, workers)?;
    for _ in 0..workers {
        let own = Worker::new_fifo(alloc, 16)?;
        stealers.push(own.stealer()?)?;
        owners.push(own)?;
    }
    Ok(TeamDeques { owners, stealers })
}

// Steals from a deque, if it can.
fn steal_one<T>(stealer: &Stealer<T>) -> Option<T> {
    for _ in 0..TRIES {
        match stealer.steal() {
            Steal::Success(found) => return Some(found),
            Steal::Empty => return None,
            Steal::Retry => {}
        }
    }
    None
}

/// Steals from the first of the deques from which it can.
pub fn steal<T>(stealers: &[Stealer<T>]) -> Option<T> {
    for stealer in stealers {
        if let Some(found) = steal_one(stealer) {
            return Some(found);
        }
    }
    None
}
