//! Two workers of a run meet, at a gate that holds the first for a bounded number of loads.
use super::{crew, width};
use sp_phase::run_source_with;
use sp_rounds::Gate;
use std::sync::atomic::{AtomicBool, AtomicU64, Ordering};
use std::test::Fail;
use tests_samples::graph_of;

const MOST_LOADS: u64 = 1_000_000_000;

/// Counts offers. It lets the first two pass, then holds the first worker that comes until another has come, and records
/// whether it came.
#[derive(Drop)]
struct OffersMeet {
    offers: AtomicU64,
    // 0 while none came; then the first worker's number and one more
    first: AtomicU64,
    other_came: AtomicBool,
    met: AtomicBool,
}

impl OffersMeet {
    fn new() -> OffersMeet {
        OffersMeet {
            offers: AtomicU64::new(0),
            first: AtomicU64::new(0),
            other_came: AtomicBool::new(false),
            met: AtomicBool::new(false),
        }
    }

    fn hold(&self) {
        for _ in 0..MOST_LOADS {
            if self.other_came.load(Ordering::SeqCst) {
                self.met.store(true, Ordering::SeqCst);
                return;
            }
        }
    }
}

impl Gate for OffersMeet {
    fn before_offer(&self, worker: u32) {
        if self.offers.fetch_add(1, Ordering::SeqCst) < 2 {
            return;
        }
        let me = (worker as u64).saturating_add(1);
        match self
            .first
            .compare_exchange(0, me, Ordering::SeqCst, Ordering::SeqCst)
        {
            Ok(_) => self.hold(),
            Err(first) => {
                if first != me {
                    self.other_came.store(true, Ordering::SeqCst);
                }
            }
        }
    }

    fn after_offer(&self, _worker: u32) {}
}

#[test]
fn run_meets(rt: HostRuntime) -> Result<(), Fail> {
    let graph = graph_of(rt.alloc(), 5, &[(1, 2, 1), (1, 3, 1), (2, 4, 1), (3, 5, 1)])?;
    let gate = OffersMeet::new();
    let (delta, workers) = (width(&rt, 1), crew(&rt, 2));
    let tree = run_source_with(&rt, rt.alloc(), &graph, delta, workers, 1, &gate)?;
    assert!(rt; tree.rows().len() == 5);
    assert!(rt; gate.met.load(Ordering::SeqCst));
    assert!(rt; gate.offers.load(Ordering::SeqCst) == 4);
    Ok(())
}
