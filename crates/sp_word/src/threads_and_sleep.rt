//! The runtime handle for the threads of a run: the calling thread alone, or several threads that may wait for one another.
use std::marker::Sync;
use std::sync::Wait;
use std::sync::atomic::AtomicU64;
use std::thread::Threads;
use std::time::Duration;

/// The runtime handle for the threads of a run. Only this call waits for another thread, so a function that is generic over a
/// handle returns unless this call waits. With [`Alone`], whose type has no `Wait`, it returns.
pub trait ThreadsAndSleep: Threads + Sync {
    /// Parks the thread while the low 32 bits of the bell are `seen` and nobody wakes the threads parked there, for at most
    /// `micros` microseconds. With [`Alone`] it returns at once.
    fn sleep(&self, bell: &AtomicU64, seen: u32, micros: u64);
}

impl<R: Threads + Wait + Sync> ThreadsAndSleep for R {
    fn sleep(&self, bell: &AtomicU64, seen: u32, micros: u64) {
        bell.park_timeout(self, seen, Duration::from_micros(micros));
    }
}

/// The runtime handle of a thread that works alone and never waits for another one.
#[derive(Clone, Copy)]
pub struct Alone<R>(R);

impl<R: Threads> Alone<R> {
    /// Wraps a runtime, or a reference to one.
    pub fn new(rt: R) -> Alone<R> {
        Alone(rt)
    }
}

impl<R: Threads> Threads for Alone<R> {}

impl<R: Threads + Sync> ThreadsAndSleep for Alone<R> {
    fn sleep(&self, _bell: &AtomicU64, _seen: u32, _micros: u64) {}
}
