//! Queued vertices.

/// A queued vertex, with the tentative distance that it had when it was queued.
#[derive(Clone, Copy, PartialEq, Eq, Debug)]
pub struct Entry {
    pub vertex: u32,
    pub dist: u64,
}
