//! Entries waiting to be relaxed.
use sp_bins::Entry;

/// Entries of one bucket that a worker shares with the others.
#[derive(Drop)]
pub struct Chunk {
    /// The least distance of their bucket, and the power of 2 that is its width.
    pub start: u64,
    pub shift: u32,
    pub entries: Vec<Entry>,
}
