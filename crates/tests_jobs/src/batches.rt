//! Batches over memory.
ghost use Rattle.std.specs.Prelude.{◌≡◌, true, IfOk};
ghost use Rattle.sp_word.specs.Word.{is_layout};
ghost use Rattle.sp_jobs.specs.Listing.{IsNumbered};

use sp_device::{OfRead, Peeked, UpToWriter};
use sp_jobs::{BatchError, BucketWidth, Listing, Nobody, Settings, Summary, run_batch};
use sp_network::Direction;
use sp_word::{Delta, Workers};
use std::alloc::{AllocError, Global};
use std::collections::VecDeque;
use std::process::Abort;
use std::sync::Wait;
use std::thread::Threads;

/// More bytes than any text here has.
pub(crate) const AMPLE: u32 = 1 << 20;

/// The texts of a graph and of its sources, and the number of bytes that the writer takes in all.
#[derive(Clone, Copy)]
pub(crate) struct BatchCase<'t> {
    pub(crate) gr: &'t str,
    pub(crate) ss: &'t str,
    pub(crate) room: u32,
}

/// The result of a batch.
#[derive(Drop)]
pub(crate) struct Ran {
    pub(crate) answer: Result<Summary, BatchError>,
    pub(crate) out: UpToWriter,
}

impl Ran {
    /// Whether the batch gave this answer and wrote this text.
    pub(crate) fn gave(&self, answer: Result<Summary, BatchError>, text: &str) -> bool {
        self.answer == answer && self.out.taken() == text.as_bytes()
    }
}

/// Makes a number of workers.
pub(crate) fn crew(rt: &impl Abort, number: u32) -> Workers {
    Workers::new(number).expect(rt, "a number of workers in range")
}

/// The width of a bucket; without a number, that of the graph's mean arc length.
pub(crate) fn width_of<const P: u32>(rt: &impl Abort, delta: Option<u64>) -> BucketWidth<P>
    requires { is_layout P ≡ true }
{
    match delta {
        Some(delta) => BucketWidth::Of(Delta::new(delta).expect(rt, "a width in range")),
        None => BucketWidth::MeanLength,
    }
}

/// The settings of a job whose progress nobody is told.
pub(crate) fn settings<const P: u32>(
    rt: &impl Abort,
    direction: Direction,
    delta: Option<u64>,
    workers: u32,
) -> Settings<'static, P, Nobody>
    requires { is_layout P ≡ true }
{
    Settings {
        direction,
        width: width_of(rt, delta),
        workers: crew(rt, workers),
        listener: &Nobody,
    }
}

/// A list of numbers, or of an owned text.
pub(crate) type List = Listing<'static, OfRead<VecDeque<u8>>>;

/// The list of this text.
pub(crate) fn listed(alloc: Global, text: &str) -> Result<List, AllocError>
    ensures { IfOk result IsNumbered }
{
    let bytes = text.as_bytes().to_vec(alloc)?;
    Ok(Listing::InText(OfRead::new(VecDeque::from(bytes)), None))
}

/// Runs a batch.
pub(crate) fn run<const P: u32>(
    rt: &(impl Abort + AllocGlobal + Threads + Wait + Sync),
    case: BatchCase,
    width: BucketWidth<P>,
    workers: u32,
) -> Ran
    requires { is_layout P ≡ true }
{
    let mut out = UpToWriter::new(rt.alloc(), case.room as usize, AMPLE as usize);
    let answer = run_batch(
        rt,
        rt.alloc(),
        &mut Peeked::new(OfRead::new(case.gr.as_bytes())),
        &mut OfRead::new(case.ss.as_bytes()),
        &mut out,
        width,
        crew(rt, workers),
    );
    Ran { answer, out }
}

/// Runs a batch in buckets of width 2.
pub(crate) fn run_narrow(
    rt: &(impl Abort + AllocGlobal + Threads + Wait + Sync),
    case: BatchCase,
    workers: u32,
) -> Ran {
    run::<28>(rt, case, width_of(rt, Some(2)), workers)
}

/// The answer when everything was written.
pub(crate) fn summary(sources: u64, too_far: u64, bytes: u64) -> Result<Summary, BatchError> {
    Ok(Summary {
        sources,
        too_far,
        bytes,
    })
}
