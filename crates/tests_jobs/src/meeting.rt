//! Several workers at the same time.
ghost use Rattle.std.specs.Prelude.{◌≤◌, [], length};

use crate::batches::{crew, summary};
use crate::threads::count_processors;
use sp_device::{UpToWriter, Write};
use sp_jobs::{
    Assignment, BatchError, LEAST_ITEMS, Nobody, Progress, Question, Summary, answer_sources,
};
use sp_word::Workers;
use std::alloc::{AllocError, Global};
use std::sync::Wait;
use std::sync::atomic::{AtomicU64, Ordering};
use std::test::Fail;
use std::thread::Threads;

// A source is held for no more loads than this.
const MOST_LOADS: u64 = 1_000_000_000;

/// Holds each source after the first ones until a given number of sources have begun, for a bounded number of loads. It counts
/// the sources that saw the others begin. Its answers have no text.
#[derive(Drop)]
struct SourcesMeet {
    first: u64,
    wanted: u64,
    begun: AtomicU64,
    met: AtomicU64,
}

impl SourcesMeet {
    fn meet(&self) {
        let begun = self.begun.fetch_add(1, Ordering::SeqCst);
        if begun < self.first || begun >= self.wanted {
            return;
        }
        for _ in 0..MOST_LOADS {
            if self.begun.load(Ordering::SeqCst) >= self.wanted {
                self.met.fetch_add(1, Ordering::SeqCst);
                return;
            }
        }
    }
}

impl Question for SourcesMeet {
    type Found = u32;

    ghost told = { λ _. record { count = 1; far = 0; text = [] } };

    ghost can_ask = { λ _ _. Unit {0} };

    ghost answers = { λ _ _ _. Unit {0} };

    fn progress(written: Summary, count: usize) -> Progress {
        Progress::Sources { written, count }
    }

    fn find(&self, _alloc: Global, _workers: Workers, source: u32) -> Result<u32, AllocError> {
        self.meet();
        Ok(source)
    }

    fn write<W: Write>(
        &self,
        _alloc: Global,
        _found: &u32,
        _out: &mut W,
    ) -> Result<Summary, BatchError> {
        Ok(Summary {
            sources: 1,
            too_far: 0,
            bytes: 0,
        })
    }
}

// Whether as many sources are found at once as there are workers and processors for them, in a graph that is just large enough.
// The remaining sources are found before these.
fn do_meet(
    rt: &(impl AllocGlobal + Threads + Wait + Sync),
    sources: &[u32],
    workers: Workers,
) -> bool
    requires { length sources.now ≤ 9 }
{
    let count = sources.len() as u64;
    let at_once = count.min(workers.get() as u64).min(count_processors(rt));
    let over = count
        .saturating_sub(at_once)
        .checked_rem(at_once)
        .unwrap_or(0);
    let meeting = SourcesMeet {
        first: over,
        wanted: over.saturating_add(at_once),
        begun: AtomicU64::new(0),
        met: AtomicU64::new(0),
    };
    let asked = Assignment {
        sources,
        count: sources.len(),
        items: LEAST_ITEMS,
        workers,
        listener: &Nobody,
    };
    let mut out = UpToWriter::new(rt.alloc(), 0, 1);
    let answer = answer_sources(rt, rt.alloc(), &meeting, &asked, &mut out);
    answer == summary(count, 0, 0) && meeting.met.load(Ordering::SeqCst) == at_once
}

// Two sources are found at once, and then groups of nine, by 2 workers and by 64.
#[test]
fn workers_meet(rt: HostRuntime) -> Result<(), Fail> {
    let nine = [1, 700, 1, 2951, 2000, 2950, 700, 2951, 3];
    for workers in [2, 64] {
        assert!(rt;
            do_meet(&rt, &[1, 4], crew(&rt, workers)),
            "{workers} workers did not meet"
        );
        assert!(rt;
            do_meet(&rt, &nine, crew(&rt, workers)),
            "{workers} workers did not meet"
        );
    }
    Ok(())
}
