//! The fault of a writer.
use thiserror::Error;

/// The writer failed. `Display` prints the number and the name of the fault.
#[derive(Clone, Copy, Debug, PartialEq, Eq, Error)]
#[error("10 Write")]
pub struct WriteFault;
