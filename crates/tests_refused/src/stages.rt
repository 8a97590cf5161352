//! A run by rounds, bucket by bucket, which is spent once memory was refused to it.
use crate::report::{Ending, tell_refusal, tell_tree};
use crate::sample::Sample;
use sp_device::Write;
use sp_phase::{Run, RunError, Store};
use sp_rounds::OpenGate;
use sp_word::Workers;
use std::io;
use std::sync::Wait;
use std::thread::Threads;

// More buckets than any sample has.
const MOST_BUCKETS: u32 = 40;

// Reports how a run that was refused memory ends: every further call must fail with `Memory`.
fn tell_spent<R: Threads + Wait + Sync>(rt: &R, mut run: Run<28>) -> Ending {
    let settled = run.settle(rt, &OpenGate);
    let heavy = run.heavy(rt, &OpenGate);
    let finished = run.finish(rt, &OpenGate);
    let is_spent = matches!(&settled, Err(RunError::Memory))
        && matches!(&heavy, Err(RunError::Memory))
        && matches!(&finished, Err(RunError::Memory));
    if is_spent {
        Ending::Memory
    } else {
        Ending::Wrong
    }
}

// Settles all buckets, and prints the number of each. Returns whether memory was refused.
fn settle_all<R: Print + Threads + Wait + Sync>(rt: &R, run: &mut Run<28>) -> io::Result<bool> {
    for _ in 0..MOST_BUCKETS {
        let bucket = match run.settle(rt, &OpenGate) {
            Ok(Some(bucket)) => bucket,
            Ok(None) => return Ok(false),
            Err(_) => return Ok(true),
        };
        println!(rt; "b {bucket}")?;
        if run.heavy(rt, &OpenGate).is_err() {
            return Ok(true);
        }
    }
    Ok(false)
}

// Writes the tree's block, or reports why there is none.
fn finish<R: Threads + Wait + Sync, W: Write>(rt: &R, out: &mut W, run: Run<28>) -> Ending {
    match run.finish(rt, &OpenGate) {
        Ok((tree, _)) => tell_tree(out, &tree),
        Err(refusal) => tell_refusal(out, refusal),
    }
}

/// Runs from vertex 1: `begin`, then `settle` and `heavy` for each bucket, and `finish`.
pub fn call_run<R: AllocGlobal + Print + Threads + Wait + Sync, W: Write>(
    rt: &R,
    out: &mut W,
    sample: Sample,
    workers: Workers,
) -> io::Result<Ending> {
    let alloc = rt.alloc();
    let graph = sample.graph(alloc)?;
    let Ok((store, caller, claimer)) = Store::<28>::new(alloc, &graph, sample.delta(), 1) else {
        return Ok(Ending::Memory);
    };
    let Ok(mut run) = Run::begin(alloc, &store, caller, claimer, workers) else {
        return Ok(Ending::Memory);
    };
    if settle_all(rt, &mut run)? {
        return Ok(tell_spent(rt, run));
    }
    Ok(finish(rt, out, run))
}
