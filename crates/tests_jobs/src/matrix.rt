//! Matrices over memory.
ghost use Rattle.sp_jobs.specs.Listing.{IsNumbered};

use crate::batches::{List, listed, settings, summary};
use crate::graphs::{DIAMOND, TWO, WIDE};
use sp_device::{OfRead, Peeked, UpToWriter};
use sp_jobs::{BatchError, Listing, Role, Summary, run_matrix_told};
use sp_network::Direction;
use std::process::Abort;
use std::sync::Wait;
use std::test::Fail;
use std::thread::Threads;

/// The targets 4, 1 and 4.
const TARGETS: &str = "p aux sp ss 3\ns 4\ns 1\ns 4\n";

/// The lines of the sources 1 and 4.
const LINES: &str = "d 1 4 5 2\nd 1 1 0 0\nd 1 4 5 2\nd 4 4 0 0\nn 4 1\nd 4 4 0 0\n";

// Whether a number of workers give this answer for such lists, and this text to a writer that takes a number of bytes.
fn is_written(
    rt: &(impl Abort + AllocGlobal + Threads + Wait + Sync),
    gr: &str,
    sources: List,
    targets: List,
    by: (u32, u32),
    wanted: (Result<Summary, BatchError>, &str),
) -> bool
    requires sources { IsNumbered sources }
    requires targets { IsNumbered targets }
{
    let mut out = UpToWriter::new(rt.alloc(), by.1 as usize, 1000);
    let told = run_matrix_told(
        &rt,
        rt.alloc(),
        &mut Peeked::new(OfRead::new(gr.as_bytes())),
        sources,
        targets,
        &mut out,
        &settings::<28>(rt, Direction::AsGiven, Some(2), by.0),
    );
    told == wanted.0 && out.taken() == wanted.1.as_bytes()
}

#[test]
fn matrix_of_two_sources_and_three_targets(rt: HostRuntime) -> Result<(), Fail> {
    let failed = Err(BatchError::Write);
    let whole = summary(6, 0, 56);
    for (gr, by, answer, text) in [
        (DIAMOND, (1, 56), whole, LINES),
        (DIAMOND, (2, 56), whole, LINES),
        (DIAMOND, (64, 56), whole, LINES),
        (WIDE, (2, 56), whole, LINES),
        (WIDE, (64, 56), whole, LINES),
        (WIDE, (2, 13), failed, "d 1 4 5 2\nd 1"),
        (WIDE, (64, 13), failed, "d 1 4 5 2\nd 1"),
    ] {
        let (sources, targets) = (listed(rt.alloc(), TWO)?, listed(rt.alloc(), TARGETS)?);
        assert!(rt; is_written(&rt, gr, sources, targets, by, (answer, text)));
    }
    Ok(())
}

// Whether this is the answer, and the text, for the source 4 of the diamond, given as a number instead of a text.
fn is_written_of_4(
    rt: &(impl Abort + AllocGlobal + Threads + Wait + Sync),
    targets: List,
    answer: Result<Summary, BatchError>,
    text: &str,
) -> bool
    requires { IsNumbered targets }
{
    let sources = Listing::These(&[4]);
    is_written(rt, DIAMOND, sources, targets, (1, 1000), (answer, text))
}

// Two of the lists have a target that isn't a vertex.
#[test]
fn matrix_of_given_numbers(rt: HostRuntime) -> Result<(), Fail> {
    let lines = "d 4 4 0 0\nn 4 1\nd 4 4 0 0\n";
    let whole = summary(3, 0, 26);
    let none = Err(BatchError::NoSuchVertex(5, Role::Target));
    let beyond = listed(rt.alloc(), "p aux sp ss 2\ns 1\ns 5\n")?;
    assert!(rt; is_written_of_4(&rt, listed(rt.alloc(), TARGETS)?, whole, lines));
    assert!(rt; is_written_of_4(&rt, beyond, none, ""));
    assert!(rt; is_written_of_4(&rt, Listing::These(&[4, 1, 4]), whole, lines));
    assert!(rt; is_written_of_4(&rt, Listing::These(&[1, 5]), none, ""));
    Ok(())
}
