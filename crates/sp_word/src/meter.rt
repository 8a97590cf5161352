//! A meter of a run's work.
use std::sync::atomic::{AtomicU64, Ordering};

/// Counts the vertices that the workers of a run have relaxed. The workers report their counts from time to time.
///
/// The count is only for display: a vertex that is relaxed again counts again, and no result depends on it.
#[derive(Drop)]
pub struct Meter {
    relaxed: AtomicU64,
}

impl Meter {
    /// Returns a meter that counts from 0.
    pub fn new() -> Meter {
        Meter {
            relaxed: AtomicU64::new(0),
        }
    }

    /// Adds `vertices` to the count.
    pub fn add(&self, vertices: u64) {
        self.relaxed.fetch_add(vertices, Ordering::SeqCst);
    }

    /// Returns the count.
    pub fn count(&self) -> u64 {
        self.relaxed.load(Ordering::SeqCst)
    }
}
