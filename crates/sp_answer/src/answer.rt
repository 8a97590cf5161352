//! Why a run gave no tree.
use thiserror::Error;

/// Why a run gave no tree. The error displays as its number and its name, and the vertex if there is one.
#[derive(Clone, Copy, Debug, PartialEq, Eq, Error)]
pub enum RunError {
    /// An allocation failed.
    #[error("1 Memory")]
    Memory,
    /// The least length to this vertex doesn't fit in a word. Of such vertices, this is the smallest one that an arc
    /// reaches from a vertex whose least length fits.
    #[error("2 TooFar {0}")]
    TooFar(u32),
    /// The source isn't a vertex of the graph.
    #[error("3 NoSuchVertex")]
    NoSuchVertex,
}
