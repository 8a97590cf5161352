//! How many threads read a text, and how it is cut.
ghost use Rattle.std.specs.Prelude.{◌<◌};

use sp_word::Workers;
use std::thread;
use std::thread::Threads;

/// How a text is cut. No result depends on it.
#[derive(Clone, Copy, Debug)]
pub struct Sizes {
    /// The number of bytes that one thread reads before others join.
    pub alone: usize,
    /// The greatest number of bytes that come from the device at a time.
    pub piece: usize,
}

/// The default sizes, which are faster than others.
pub const SIZES: Sizes = Sizes {
    alone: 262_144,
    piece: 131_072,
};

/// The greatest number of pieces for each thread at a time.
const EACH: usize = 4;

/// How many threads read a text, and how it is cut.
#[derive(Clone, Copy)]
pub struct Plan {
    pub(crate) threads: usize,
    pub(crate) sizes: Sizes,
}

impl Plan {
    /// Returns the greatest number of pieces at a time.
    pub(crate) fn pieces(&self) -> usize
        ensures { 0 < result }
    {
        self.threads.saturating_mul(EACH).max(1)
    }

    /// Returns how many threads join this one.
    pub(crate) fn others(&self) -> usize {
        self.threads.saturating_sub(1)
    }
}

/// Returns the number of threads that read: one for each worker, but no more than there are processors.
pub(crate) fn count_threads<H: Threads>(rt: &H, workers: Workers) -> usize {
    match thread::available_parallelism(rt) {
        Ok(count) => workers.at_most(count.get()).get() as usize,
        Err(_) => workers.get() as usize,
    }
}
