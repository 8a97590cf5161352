//! The faults of a graph's file.
use sp_dimacs::DimacsError;
use sp_packed::PackedFault;
use thiserror::Error;

/// The first fault of a graph's file. `Display` is that of the inner fault, which is for users of this library.
#[derive(Clone, Copy, Debug, PartialEq, Eq, Error)]
pub enum NetworkFault {
    /// The fault of a text, at its line.
    #[error(transparent)]
    Text(DimacsError),
    /// The fault of a packed text, at its byte.
    #[error(transparent)]
    Packed(PackedFault),
}
