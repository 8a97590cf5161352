//! Marks of vertices whose arcs were relaxed.

/// A vertex whose arcs were relaxed, and the distance that it had then. A vertex whose distance doesn't fit in 32 bits gets no
/// mark.
#[derive(Clone, Copy, Debug, PartialEq, Eq)]
pub struct Mark {
    pub vertex: u32,
    pub dist: u32,
}
