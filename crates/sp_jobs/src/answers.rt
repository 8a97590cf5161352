//! The result of a batch of sources or pairs, and of a matrix.
ghost use Rattle.std.specs.Prelude.{◌≡◌};
ghost use Rattle.sp_jobs.specs.declared.answers.BatchError.TheVariants.{Memory, Write};

use sp_dimacs::{DimacsError, WriteFault};
use sp_network::NetworkFault;
use std::alloc::AllocError;
use thiserror::Error;

/// A summary of what a batch has written.
#[derive(Clone, Copy, Debug, PartialEq, Eq)]
pub struct Summary {
    /// The number of sources or pairs.
    pub sources: u64,
    /// The number of those whose answer is a vertex that is too far.
    pub too_far: u64,
    /// The number of bytes written.
    pub bytes: u64,
}

/// The role of a number in a request.
#[derive(Clone, Copy, Debug, PartialEq, Eq)]
pub enum Role {
    Source,
    Target,
}

/// The reason why a batch wasn't completed.
#[derive(Clone, Copy, Debug, PartialEq, Eq, Error)]
pub enum BatchError {
    /// The file of the graph has an error. This is the first one.
    #[error("gr: {0}")]
    Gr(NetworkFault),
    /// The text of the sources has an error. This is the first one.
    #[error("ss: {0}")]
    Ss(DimacsError),
    /// The text of the targets has an error. This is the first one.
    #[error("targets: {0}")]
    Targets(DimacsError),
    /// The text of the pairs has an error. This is the first one.
    #[error("pairs: {0}")]
    Pairs(DimacsError),
    /// A source or a target isn't a vertex of the graph. These are the first such number and its role.
    #[error("source {0}: no such vertex")]
    NoSuchVertex(u32, Role),
    /// An allocation failed.
    #[error("memory")]
    Memory,
    /// The writer failed.
    #[error("write failed")]
    Write,
}

impl From<AllocError> for BatchError {
    ghost from_gives = { λ _ fault. fault ≡ Memory };

    fn from(_error: AllocError) -> BatchError {
        BatchError::Memory
    }
}

impl From<WriteFault> for BatchError {
    ghost from_gives = { λ _ fault. fault ≡ Write };

    fn from(_error: WriteFault) -> BatchError {
        BatchError::Write
    }
}
