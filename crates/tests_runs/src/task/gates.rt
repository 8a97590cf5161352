//! Gates that hold workers, for a bounded number of loads, and one that counts offers.

use sp_rounds::Gate;
use std::sync::atomic::{AtomicBool, AtomicU64, Ordering};

const MOST_LOADS: u64 = 1_000_000_000;

/// Holds the first worker that comes until another has come, and records whether it came.
#[derive(Drop)]
pub struct WorkersMeet {
    // 0 while none came; then the first worker's number and one more
    first: AtomicU64,
    other_came: AtomicBool,
    met: AtomicBool,
}

impl WorkersMeet {
    pub fn new() -> WorkersMeet {
        WorkersMeet {
            first: AtomicU64::new(0),
            other_came: AtomicBool::new(false),
            met: AtomicBool::new(false),
        }
    }

    pub fn met(&self) -> bool {
        self.met.load(Ordering::SeqCst)
    }
}

impl Gate for WorkersMeet {
    fn before_offer(&self, worker: u32) {
        let me = (worker as u64).saturating_add(1);
        match self
            .first
            .compare_exchange(0, me, Ordering::SeqCst, Ordering::SeqCst)
        {
            Ok(_) => {
                for _ in 0..MOST_LOADS {
                    if self.other_came.load(Ordering::SeqCst) {
                        self.met.store(true, Ordering::SeqCst);
                        return;
                    }
                }
            }
            Err(first) => {
                if first != me {
                    self.other_came.store(true, Ordering::SeqCst);
                }
            }
        }
    }

    fn after_offer(&self, _worker: u32) {}
}

/// Holds the leader once, until worker 1 has come twice, and counts how often worker 1 came.
#[derive(Drop)]
pub struct Thief {
    thefts: AtomicU64,
    held: AtomicBool,
}

impl Thief {
    pub fn new() -> Thief {
        Thief {
            thefts: AtomicU64::new(0),
            held: AtomicBool::new(false),
        }
    }

    pub fn came(&self) -> u64 {
        self.thefts.load(Ordering::SeqCst)
    }
}

impl Gate for Thief {
    fn before_offer(&self, worker: u32) {
        if worker != 0 {
            self.thefts.fetch_add(1, Ordering::SeqCst);
            return;
        }
        if self.held.swap(true, Ordering::SeqCst) {
            return;
        }
        for _ in 0..MOST_LOADS {
            if self.thefts.load(Ordering::SeqCst) >= 2 {
                return;
            }
        }
    }

    fn after_offer(&self, _worker: u32) {}
}

/// Counts the offers of the leader, and those of others.
#[derive(Drop)]
pub struct Count {
    leaders: AtomicU64,
    others: AtomicU64,
}

impl Count {
    pub fn new() -> Count {
        Count {
            leaders: AtomicU64::new(0),
            others: AtomicU64::new(0),
        }
    }

    /// Whether the leader made so many offers, and nobody else made any.
    pub fn is_leader_alone(&self, offers: u64) -> bool {
        self.leaders.load(Ordering::SeqCst) == offers && self.others.load(Ordering::SeqCst) == 0
    }
}

impl Gate for Count {
    fn before_offer(&self, worker: u32) {
        let offers = if worker == 0 {
            &self.leaders
        } else {
            &self.others
        };
        offers.fetch_add(1, Ordering::SeqCst);
    }

    fn after_offer(&self, _worker: u32) {}
}
