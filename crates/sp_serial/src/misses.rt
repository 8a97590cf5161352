//! Searches that gave up.
use std::sync::atomic::{AtomicU32, Ordering};

// After two searches in a row that gave up, the next 2 sources skip the search; after this many or more, the next 6 do.
const MOST_MISSES: u32 = 3;

/// Counts the searches that gave up in a row, on several threads.
#[derive(Drop)]
pub(crate) struct Misses {
    // The number of these searches, and the number of sources that still skip the search.
    misses: AtomicU32,
    rest: AtomicU32,
}

impl Misses {
    /// Returns a counter of no search.
    pub(crate) fn new() -> Misses {
        Misses {
            misses: AtomicU32::new(0),
            rest: AtomicU32::new(0),
        }
    }

    /// Returns whether this source skips the search.
    pub(crate) fn rests(&self) -> bool {
        let rest = self.rest.load(Ordering::SeqCst);
        if rest == 0 {
            return false;
        }
        // If another thread counts down at the same time, one of the two is enough.
        let _ = self
            .rest
            .compare_exchange(rest, rest - 1, Ordering::SeqCst, Ordering::SeqCst);
        true
    }

    /// Records a search that found its answer.
    pub(crate) fn hit(&self) {
        self.misses.store(0, Ordering::SeqCst);
    }

    /// Records a search that gave up.
    pub(crate) fn miss(&self) {
        let misses = self
            .misses
            .load(Ordering::SeqCst)
            .saturating_add(1)
            .min(MOST_MISSES);
        self.misses.store(misses, Ordering::SeqCst);
        self.rest
            .store((1u32 << misses).saturating_sub(2), Ordering::SeqCst);
    }
}
