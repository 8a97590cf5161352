//! Buffers for the searches in a graph of any size.
use sp_serial::OwnSearchPool;

/// Buffers for the searches in a graph of any size: a pool for each layout of words. The layout with the greatest distances that
/// can name the vertices is used, and the other pools stay empty.
#[derive(Drop)]
pub struct AnySearchPool {
    pub(crate) of20: OwnSearchPool<20>,
    pub(crate) of24: OwnSearchPool<24>,
    pub(crate) of28: OwnSearchPool<28>,
    pub(crate) of32: OwnSearchPool<32>,
}

impl AnySearchPool {
    /// Returns pools without words. It takes no memory before the first search.
    pub fn new() -> AnySearchPool {
        AnySearchPool {
            of20: OwnSearchPool::new(),
            of24: OwnSearchPool::new(),
            of28: OwnSearchPool::new(),
            of32: OwnSearchPool::new(),
        }
    }
}
