//! The buffers and pieces of the thread that reads a device: free buffers, and a deque from which other threads take pieces.
ghost use Rattle.std.specs.Arc.{arc_value};
ghost use Rattle.sp_parts.specs.Parts.{IsAt};

use crate::pieces::{Origin, Piece};
use crate::plan::Plan;
use crate::receiving::Group;
use crossbeam_deque::{Stealer, Worker};
use std::alloc::{AllocError, Global};
use std::sync::Arc;

/// A piece that came and isn't taken yet.
#[derive(Drop)]
pub struct PendingPiece {
    pub(crate) group: Arc<Group>,
    /// Whether other threads may read it.
    pub(crate) is_shared: bool,
}

/// Free buffers, and pieces that other threads may take.
#[derive(Drop)]
pub struct BufferPool<O: Origin> {
    alloc: Global,
    // the size of a buffer in bytes
    size: usize,
    spare: Vec<Arc<Group>>,
    own: Worker<Piece<O>>,
}

impl<O: Origin> BufferPool<O> {
    /// Makes a pool with a buffer.
    pub(crate) fn new(alloc: Global, plan: &Plan) -> Result<BufferPool<O>, AllocError> {
        let mut pool = BufferPool {
            alloc,
            size: plan.sizes.piece,
            spare: Vec::with_capacity(alloc, plan.pieces())?,
            own: Worker::new_fifo(alloc, plan.pieces())?,
        };
        let Some(first) = pool.buffer() else {
            return Err(AllocError);
        };
        pool.free(first);
        Ok(pool)
    }

    /// Returns a handle from which other threads take pieces.
    pub(crate) fn stealer(&self) -> Result<Stealer<Piece<O>>, AllocError> {
        self.own.stealer()
    }

    /// Returns a buffer for a piece: a free one, or a new one.
    pub(crate) fn buffer(&mut self) -> Option<Arc<Group>> {
        if let Some(group) = self.spare.pop() {
            return Some(group);
        }
        let group = Group::new(self.alloc, self.size.max(1)).ok()?;
        Arc::new(self.alloc, group).ok()
    }

    /// Keeps a free buffer.
    pub(crate) fn free(&mut self, group: Arc<Group>) {
        let _ = self.spare.push(group);
    }

    /// Offers a piece to other threads. Returns whether they may take it.
    pub(crate) fn share(&mut self, number: u64, start: u64, group: &Arc<Group>) -> bool
        requires { IsAt O.text start (arc_value group.now) }
    {
        match Arc::try_clone(group) {
            Ok(group) => self.own.push(Piece::new(number, start, group)).is_ok(),
            Err(_) => false,
        }
    }
}
