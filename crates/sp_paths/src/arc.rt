//! Arcs.

/// An arc of a directed graph: it leads from its tail to its head, which are vertices numbered from 1, and has a
/// length.
#[derive(Clone, Copy, Debug, PartialEq, Eq)]
pub struct Arc {
    pub tail: u32,
    pub head: u32,
    pub len: u32,
}
