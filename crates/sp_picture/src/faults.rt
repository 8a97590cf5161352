//! Why there is no picture of a run.
ghost use Rattle.std.specs.Prelude.{◌≡◌};
ghost use Rattle.sp_picture.specs.declared.faults.NoPicture.TheVariants.{Memory};

use std::alloc::{AllocError, AllocFailed};
use thiserror::Error;

/// Why there is no picture of a run.
#[derive(Clone, Copy, Debug, PartialEq, Eq, Error)]
pub enum NoPicture {
    /// The run has more steps than a picture shows.
    #[error("too many steps for a picture")]
    TooManySteps,
    /// An allocation failed.
    #[error("memory")]
    Memory,
}

impl From<AllocError> for NoPicture {
    ghost from_gives = { λ _ fault. fault ≡ Memory };

    fn from(_error: AllocError) -> NoPicture {
        NoPicture::Memory
    }
}
