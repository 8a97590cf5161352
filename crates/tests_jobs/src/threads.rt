//! Sources answered by several threads, as counted by the system.
ghost use denote.Param.Send.{IsSync};

use crate::batches::{AMPLE, BatchCase, Ran, run, width_of};
use crate::graphs::ONE;
use crate::groups::{NINE, town};
use std::alloc::Global;
use std::fs;
use std::process::Abort;
use std::rt::Files;
use std::sync::Wait;
use std::sync::atomic::{AtomicBool, Ordering};
use std::test::Fail;
use std::thread::{Threads, available_parallelism, join};

// Enough vertices for four threads.
const N: u32 = 20_000;

// The greatest number of looks at a run, and of runs.
const MOST_LOOKS: u32 = 100_000_000;

const MOST_RUNS: u32 = 100;

/// The number of processors.
pub(crate) fn count_processors(rt: &impl Threads) -> u64 {
    match available_parallelism(rt) {
        Ok(count) => count.get() as u64,
        Err(_) => 1,
    }
}

// Three arcs from each vertex, to later vertices, wrapping round from the last vertex to the first.
fn ring(alloc: Global) -> Result<String, Fail> {
    let mut text = format!(in alloc; "p sp {N} 60000\n")?;
    for place in 0..N {
        let tail = place + 1;
        for step in [1u32, 7, 4999] {
            let head = place.saturating_add(step) % N + 1;
            text.push_str(&format!(in alloc; "a {tail} {head} {step}\n")?)?;
        }
    }
    Ok(text)
}

// The number of threads of this process now.
fn count_threads<R: Files + AllocGlobal>(rt: &R) -> u64 {
    let Ok(text) = fs::read_to_string(rt, "/proc/self/status") else {
        return 0;
    };
    for line in text.lines() {
        if let Some(count) = line.strip_prefix("Threads:") {
            return count.trim().parse().unwrap_or(0);
        }
    }
    0
}

// Looks until there are more than `usual` threads, or the run is done. Returns whether there were more.
fn look<R: Files + AllocGlobal>(rt: &R, usual: u64, done: &AtomicBool) -> bool {
    for _ in 0..MOST_LOOKS {
        if count_threads(rt) > usual {
            return true;
        }
        if done.load(Ordering::SeqCst) {
            return false;
        }
    }
    false
}

// Runs a batch on a thread of its own, and returns whether there were more threads meanwhile.
fn run_looked_at<R: Files + AllocGlobal + Threads + Wait + Sync + Abort>(
    rt: &R,
    case: BatchCase,
    workers: u32,
) -> (Ran, bool) {
    let usual = count_threads(rt).saturating_add(1);
    let done = AtomicBool::new(false);
    let done = &done;
    let run = move || -> Ran
        requires { IsSync R.row }
    {
        let ran = run::<28>(rt, case, width_of(rt, Some(500)), workers);
        done.store(true, Ordering::SeqCst);
        ran
    };
    join(rt, run, || look(rt, usual, done))
}

// Repeats runs until more threads are seen.
fn is_shared<R: Files + AllocGlobal + Threads + Wait + Sync + Abort>(
    rt: &R,
    case: BatchCase,
    workers: u32,
    want: &Ran,
) -> bool {
    for _ in 0..MOST_RUNS {
        let (ran, seen) = run_looked_at(rt, case, workers);
        if ran.answer != want.answer || ran.out.taken() != want.out.taken() {
            return false;
        }
        if seen {
            return true;
        }
    }
    false
}

// Whether a batch starts threads if there are several processors, and gives the same as one worker.
fn starts_threads<R: Files + AllocGlobal + Threads + Wait + Sync + Abort>(
    rt: &R,
    case: BatchCase,
) -> bool {
    let want = run::<28>(rt, case, width_of(rt, Some(500)), 1);
    if want.answer.is_err() {
        return false;
    }
    count_processors(rt) == 1 || is_shared(rt, case, 2, &want) && is_shared(rt, case, 64, &want)
}

// One source of a large graph, and nine sources of a graph that is too small for several threads at one source.
#[test]
fn runs_start_threads(rt: HostRuntime) -> Result<(), Fail> {
    for (gr, ss) in [(ring(rt.alloc())?, ONE), (town(rt.alloc())?, NINE)] {
        let case = BatchCase {
            gr: &gr,
            ss,
            room: AMPLE,
        };
        assert!(rt; starts_threads(&rt, case));
    }
    Ok(())
}
