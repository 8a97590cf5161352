//! Jobs from bytes to bytes: texts in memory, and standard output.
ghost use Rattle.std.specs.Prelude.{◌≡◌, IfOk};
ghost use Rattle.sp_jobs.specs.Listing.{IsNumbered};

use crate::report::Ending;
use crate::sample::Sample;
use sp_device::Peeked;
use sp_dimacs::{OfRead, Write};
use sp_jobs::{
    BatchError, BucketWidth, Listing, Nobody, Settings, Summary, run_batch, run_matrix_told,
    run_nearest_told,
};
use sp_network::{Direction, NetworkFault};
use sp_packed::PackedKind;
use sp_pairs::run_pairs;
use sp_text::Kind;
use sp_word::Workers;
use std::alloc::{AllocError, Global};
use std::collections::VecDeque;
use std::io;
use std::sync::Wait;
use std::thread::Threads;
use tests_samples::FROM_ONE;

// Whether memory was refused.
fn is_memory(error: BatchError) -> bool {
    match error {
        BatchError::Memory => true,
        BatchError::Gr(NetworkFault::Packed(fault)) => matches!(fault.kind, PackedKind::Memory),
        BatchError::Gr(NetworkFault::Text(fault))
        | BatchError::Ss(fault)
        | BatchError::Targets(fault)
        | BatchError::Pairs(fault) => matches!(fault.kind, Kind::Memory),
        _ => false,
    }
}

// Prints how a batch ended.
fn tell_batch<R: Print>(rt: &R, answer: Result<Summary, BatchError>) -> io::Result<Ending> {
    match answer {
        Ok(summary) => {
            println!(rt; "{} {} {}", summary.sources, summary.too_far, summary.bytes)?;
            Ok(Ending::Answered)
        }
        Err(error) => {
            if is_memory(error) {
                Ok(Ending::Memory)
            } else {
                Ok(Ending::Wrong)
            }
        }
    }
}

/// Runs a batch from vertex 1.
pub fn call_run_batch<R: AllocGlobal + Print + Threads + Wait + Sync, W: Write>(
    rt: &R,
    out: &mut W,
    sample: Sample,
    workers: Workers,
) -> io::Result<Ending> {
    let mut gr = Peeked::new(OfRead::new(sample.gr().as_bytes()));
    let mut ss = OfRead::new(FROM_ONE.as_bytes());
    let width = BucketWidth::Of(sample.delta());
    let answer = run_batch::<28, R, _, _, _>(rt, rt.alloc(), &mut gr, &mut ss, out, width, workers);
    tell_batch(rt, answer)
}

/// Answers two pairs.
pub fn call_run_pairs<R: AllocGlobal + Print + Threads + Wait + Sync, W: Write>(
    rt: &R,
    out: &mut W,
    sample: Sample,
    workers: Workers,
) -> io::Result<Ending> {
    let mut gr = Peeked::new(OfRead::new(sample.gr().as_bytes()));
    let mut pairs = OfRead::new(sample.pairs().as_bytes());
    let width = BucketWidth::MeanLength;
    let answer = run_pairs::<28, &R, _, _, _>(
        &rt,
        rt.alloc(),
        &mut gr,
        &mut pairs,
        out,
        width,
        workers,
    );
    tell_batch(rt, answer)
}

// A list from an owned text.
type List = Listing<'static, OfRead<VecDeque<u8>>>;

// The list of this text.
fn listed(alloc: Global, text: &str) -> Result<List, AllocError>
    ensures { IfOk result IsNumbered }
{
    let bytes = text.as_bytes().to_vec(alloc)?;
    Ok(Listing::InText(OfRead::new(VecDeque::from(bytes)), None))
}

/// Writes a matrix of one row, from vertex 1.
pub fn call_run_matrix<R: AllocGlobal + Print + Threads + Wait + Sync, W: Write>(
    rt: &R,
    out: &mut W,
    sample: Sample,
    workers: Workers,
) -> io::Result<Ending> {
    let settings = Settings {
        direction: Direction::AsGiven,
        width: BucketWidth::MeanLength,
        workers,
        listener: &Nobody,
    };
    let (Ok(sources), Ok(targets)) = (
        listed(rt.alloc(), FROM_ONE),
        listed(rt.alloc(), sample.targets()),
    ) else {
        return Ok(Ending::Memory);
    };
    let answer = run_matrix_told::<28, &R, _, _, _, _, _>(
        &rt,
        rt.alloc(),
        &mut Peeked::new(OfRead::new(sample.gr().as_bytes())),
        sources,
        targets,
        out,
        &settings,
    );
    tell_batch(rt, answer)
}

/// Writes the forest of vertex 1 alone.
pub fn call_run_nearest<R: AllocGlobal + Print + Threads + Wait + Sync, W: Write>(
    rt: &R,
    out: &mut W,
    sample: Sample,
    workers: Workers,
) -> io::Result<Ending> {
    let settings = Settings {
        direction: Direction::AsGiven,
        width: BucketWidth::MeanLength,
        workers,
        listener: &Nobody,
    };
    let Ok(sources) = listed(rt.alloc(), FROM_ONE) else {
        return Ok(Ending::Memory);
    };
    let answer = run_nearest_told::<28, &R, _, _, _, _>(
        &rt,
        rt.alloc(),
        &mut Peeked::new(OfRead::new(sample.gr().as_bytes())),
        sources,
        None,
        out,
        &settings,
    );
    tell_batch(rt, answer)
}
