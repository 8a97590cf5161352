//! Signals between the threads that read a text. They are hints only: nothing is proved about them, and no proof uses them.

use sp_word::ThreadsAndSleep;
use std::hint::spin_loop;
use std::sync::atomic::{AtomicBool, AtomicU64, Ordering};
use std::thread::yield_now;

/// An idle thread yields once it has looked in vain `LOOKS` times, and sleeps after `YIELDS` times.
const LOOKS: u32 = 1000;

const YIELDS: u32 = 2000;

/// The longest sleep, in microseconds.
const NAP: u64 = 500;

/// The signals between the threads that read a text.
#[derive(Drop)]
pub struct ReadingSignals {
    // Whether all is read.
    over: AtomicBool,
    // The number of threads that sleep.
    asleep: AtomicU64,
    // Changes when sleeping threads should look again.
    bell: AtomicU64,
}

impl ReadingSignals {
    /// Makes the signals for threads that start to read.
    pub(crate) fn new() -> ReadingSignals {
        ReadingSignals {
            over: AtomicBool::new(false),
            asleep: AtomicU64::new(0),
            bell: AtomicU64::new(0),
        }
    }

    /// Returns whether all is read.
    pub(crate) fn is_over(&self) -> bool {
        self.over.load(Ordering::SeqCst)
    }

    /// Signals that all is read.
    pub(crate) fn end(&self) {
        self.over.store(true, Ordering::SeqCst);
        self.wake();
    }

    /// Signals that there is something to do.
    pub(crate) fn ring(&self) {
        if self.asleep.load(Ordering::SeqCst) > 0 {
            self.wake();
        }
    }

    // Wakes the threads that sleep.
    fn wake(&self) {
        self.bell.fetch_add(1, Ordering::SeqCst);
        self.bell.wake_all();
    }

    // Sleeps until the bell changes, or for at most `NAP` microseconds, unless all is read.
    fn nap<H: ThreadsAndSleep>(&self, rt: &H) {
        self.asleep.fetch_add(1, Ordering::SeqCst);
        let seen = self.bell.load(Ordering::SeqCst);
        if !self.is_over() {
            let low = (seen % 4294967296) as u32;
            rt.sleep(&self.bell, low, NAP);
        }
        self.asleep.fetch_sub(1, Ordering::SeqCst);
    }

    /// Waits for some time, the longer the more often the thread has looked in vain.
    pub(crate) fn rest<H: ThreadsAndSleep>(&self, rt: &H, turn: u32) {
        if turn < LOOKS {
            spin_loop();
        } else if turn < YIELDS {
            yield_now();
        } else {
            self.nap(rt);
        }
    }
}
