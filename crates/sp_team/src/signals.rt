//! The signals that workers of a team exchange. They are all advice: nothing is proved about them, and no proof rests on them.

use sp_word::ThreadsAndSleep;
use std::alloc::{AllocError, Global};
use std::sync::atomic::{AtomicU64, Ordering};

/// The level of a worker that has no entry.
const NONE: u64 = u64::MAX;

/// A number in a cache line of its own.
#[derive(Drop)]
struct CacheLine {
    number: AtomicU64,
    _room: [u64; 15],
}

impl CacheLine {
    fn new(number: u64) -> CacheLine {
        CacheLine {
            number: AtomicU64::new(number),
            _room: [0; 15],
        }
    }

    fn get(&self) -> u64 {
        self.number.load(Ordering::SeqCst)
    }

    fn set(&self, number: u64) {
        self.number.store(number, Ordering::SeqCst);
    }

    fn raise(&self) {
        self.number.fetch_add(1, Ordering::SeqCst);
    }

    fn lower(&self) {
        self.number.fetch_sub(1, Ordering::SeqCst);
    }
}

/// The signals that workers of a team exchange.
#[derive(Drop)]
pub struct Signals {
    // The number of workers that have entries or are stealing a shared chunk.
    active: CacheLine,
    // The number of workers that look for work.
    hungry: CacheLine,
    // The number of chunks in deques.
    shared: CacheLine,
    // The number of workers that sleep.
    asleep: CacheLine,
    // Changes when sleeping workers should look again.
    bell: CacheLine,
    // For each worker, the least distance of the bucket that it empties.
    levels: Vec<CacheLine>,
}

impl Signals {
    /// Makes the signals of this number of workers. The first worker starts with entries.
    pub fn new(alloc: Global, workers: usize) -> Result<Signals, AllocError> {
        let mut levels = Vec::with_capacity(alloc, workers)?;
        for worker in 0..workers {
            levels.push(CacheLine::new(if worker == 0 { 0 } else { NONE }))?;
        }
        Ok(Signals {
            active: CacheLine::new(1),
            hungry: CacheLine::new(0),
            shared: CacheLine::new(0),
            asleep: CacheLine::new(0),
            bell: CacheLine::new(0),
            levels,
        })
    }

    /// Whether there is only one worker.
    pub(crate) fn is_alone(&self) -> bool {
        self.levels.len() <= 1
    }

    /// The number of workers that look for work.
    pub(crate) fn hungry(&self) -> u64 {
        self.hungry.get()
    }

    /// The number of chunks in deques.
    pub(crate) fn shared(&self) -> u64 {
        self.shared.get()
    }

    /// Whether no worker has an entry or is stealing a shared chunk.
    pub(crate) fn is_over(&self) -> bool {
        self.active.get() == 0
    }

    /// Counts one more worker that has entries or is stealing a shared chunk.
    pub(crate) fn begin_work(&self) {
        self.active.raise();
    }

    /// Counts one fewer of these.
    pub(crate) fn end_work(&self) {
        self.active.lower();
    }

    /// Records that a worker that had entries has none left.
    pub fn leave(&self, worker: usize) {
        self.set_level(worker, NONE);
        self.end_work();
    }

    /// Counts one more worker that looks for work.
    pub(crate) fn begin_hunger(&self) {
        self.hungry.raise();
    }

    /// Counts one fewer of these.
    pub(crate) fn end_hunger(&self) {
        self.hungry.lower();
    }

    /// Records the least distance of the bucket that the worker empties.
    pub(crate) fn set_level(&self, worker: usize, level: u64) {
        if let Some(line) = self.levels.get(worker) {
            line.set(level);
        }
    }

    /// Returns the least of these distances over all workers.
    pub(crate) fn lowest(&self) -> u64 {
        let mut least = NONE;
        for line in &self.levels {
            least = least.min(line.get());
        }
        least
    }

    /// Records that a chunk was put into a deque, and wakes sleeping workers.
    pub(crate) fn put(&self) {
        self.shared.raise();
        if self.asleep.get() > 0 {
            self.bell.raise();
            self.bell.number.wake_all();
        }
    }

    /// Records that a chunk was taken out of a deque.
    pub(crate) fn taken(&self) {
        self.shared.lower();
    }

    /// Wakes sleeping workers, so that they see that all work is done.
    pub(crate) fn dismiss(&self) {
        self.bell.raise();
        self.bell.number.wake_all();
    }

    /// Sleeps until a wake-up call, or for at most `micros` microseconds. Returns at once if there is something to do.
    pub(crate) fn sleep<C: ThreadsAndSleep>(&self, rt: &C, micros: u64) {
        self.asleep.raise();
        let seen = self.bell.get();
        if self.shared.get() == 0 && !self.is_over() {
            let low = (seen % 4294967296) as u32;
            rt.sleep(&self.bell.number, low, micros);
        }
        self.asleep.lower();
    }
}
