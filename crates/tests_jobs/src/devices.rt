//! Devices that fail.
ghost use Rattle.std.specs.Prelude.{◌<◌, ◌≤◌, length};

use crate::batches::{BatchCase, crew, run_narrow, summary, width_of};
use crate::graphs::{ALONE, DIAMOND, ONE, TWO, TWO_TEXT};
use sp_device::{OfRead, Peeked, UpTo, UpToWriter};
use sp_jobs::{BatchError, Summary, run_batch};
use sp_network::NetworkFault;
use sp_text::{DimacsError, Kind};
use std::process::Abort;
use std::sync::Wait;
use std::test::Fail;
use std::thread::Threads;

// Whether a writer that takes only `case.room` bytes took the beginning of the text, and its failure was reported.
fn is_begun(
    rt: &(impl Abort + AllocGlobal + Threads + Wait + Sync),
    case: BatchCase,
    workers: u32,
    text: &str,
) -> bool {
    match text.get(..case.room as usize) {
        Some(begun) => run_narrow(rt, case, workers).gave(Err(BatchError::Write), begun),
        None => false,
    }
}

/// Whether a writer that fails after every `step`th number of bytes has the beginning of the text, and a writer with room has all
/// of it.
pub(crate) fn is_written_up_to(
    rt: &(impl Abort + AllocGlobal + Threads + Wait + Sync),
    case: BatchCase,
    step: u32,
    workers: u32,
    answer: Result<Summary, BatchError>,
    text: &str,
) -> bool
    requires { 0 < step }
{
    for room in 0..case.room {
        let short = BatchCase { room, ..case };
        if room % step == 0 && !is_begun(rt, short, workers, text) {
            return false;
        }
    }
    run_narrow(rt, case, workers).gave(answer, text)
}

#[test]
fn writers_that_fail_after_some_bytes(rt: HostRuntime) -> Result<(), Fail> {
    let alone = BatchCase {
        gr: ALONE,
        ss: ONE,
        room: 12,
    };
    assert!(rt; is_begun(&rt, alone, 1, "p spt 1 1\nv 1 0 0\ne 1\n"));
    let case = BatchCase {
        gr: DIAMOND,
        ss: TWO,
        room: 68,
    };
    assert!(rt; is_written_up_to(&rt, case, 1, 2, summary(2, 0, 68), TWO_TEXT));
    Ok(())
}

#[test]
fn writer_of_a_byte_a_call(rt: HostRuntime) -> Result<(), Fail> {
    let mut out = UpToWriter::new(rt.alloc(), 1000, 1);
    let answer = run_batch(
        &rt,
        rt.alloc(),
        &mut Peeked::new(OfRead::new(DIAMOND.as_bytes())),
        &mut OfRead::new(TWO.as_bytes()),
        &mut out,
        width_of::<28>(&rt, Some(1)),
        crew(&rt, 64),
    );
    assert!(rt; answer == summary(2, 0, 68) && out.taken() == TWO_TEXT.as_bytes());
    Ok(())
}

// Whether nothing is written, and this fault is reported, if the graph's device gives this text and then fails.
fn is_fault(
    rt: &(impl Abort + AllocGlobal + Threads + Wait + Sync),
    text: &[u8],
    fault: DimacsError,
) -> bool
    requires { length text.now ≤ 1000 }
{
    let mut out = UpToWriter::new(rt.alloc(), 1000, 1000);
    let answer = run_batch(
        rt,
        rt.alloc(),
        &mut Peeked::new(UpTo::failing(text)),
        &mut OfRead::new(ONE.as_bytes()),
        &mut out,
        width_of::<28>(rt, Some(1)),
        crew(rt, 1),
    );
    answer == Err(BatchError::Gr(NetworkFault::Text(fault))) && out.taken().is_empty()
}

#[test]
fn failing_reader(rt: HostRuntime) -> Result<(), Fail> {
    let read = DimacsError {
        line: 2,
        kind: Kind::Read,
    };
    assert!(rt; is_fault(&rt, b"p sp 1 0\n", read));
    let no_problem = DimacsError {
        line: 1,
        kind: Kind::NoProblem,
    };
    assert!(rt; is_fault(&rt, b"a 1 2 3\n", no_problem));
    Ok(())
}
