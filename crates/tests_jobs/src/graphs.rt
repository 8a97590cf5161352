//! Graphs and the texts of their trees. `tests/commands.py` compares what is written for worked examples.

use crate::batches::{AMPLE, BatchCase, run, summary, width_of};
use sp_jobs::{BatchError, BucketWidth, Role, Summary};
use std::process::Abort;
use std::sync::Wait;
use std::test::Fail;
use std::thread::Threads;

pub(crate) const ALONE: &str = "p sp 1 0\n";

pub(crate) const DIAMOND: &str = "p sp 4 5\na 1 2 3\na 1 3 3\na 2 4 2\na 3 4 2\na 1 4 6\n";

/// The diamond among so many vertices that several sources are answered at once.
pub(crate) const WIDE: &str = "p sp 2000 5\na 1 2 3\na 1 3 3\na 2 4 2\na 3 4 2\na 1 4 6\n";

/// A path of 18 vertices, whose last is the least distance too far from its first.
pub(crate) const BEYOND: &str = "\
p sp 18 17
a 1 2 4294967295
a 2 3 4294967295
a 3 4 4294967295
a 4 5 4294967295
a 5 6 4294967295
a 6 7 4294967295
a 7 8 4294967295
a 8 9 4294967295
a 9 10 4294967295
a 10 11 4294967295
a 11 12 4294967295
a 12 13 4294967295
a 13 14 4294967295
a 14 15 4294967295
a 15 16 4294967295
a 16 17 4294967295
a 17 18 15
";

pub(crate) const ONE: &str = "p aux sp ss 1\ns 1\n";

/// The sources 1 and 4.
pub(crate) const TWO: &str = "p aux sp ss 2\ns 1\ns 4\n";

/// Their blocks in the graph of the diamond.
pub(crate) const TWO_TEXT: &str =
    "p spt 4 1\nv 1 0 0\nv 2 3 1\nv 3 3 1\nv 4 5 2\ne 4\np spt 4 4\nv 4 0 0\ne 1\n";

// Bucket widths with numbers of workers. Without a number, the width is the graph's mean arc length.
const CREWS: [(Option<u64>, u32); 7] = [
    (Some(1), 1),
    (Some(2), 2),
    (Some(100), 64),
    (Some(68719476734), 1),
    (None, 1),
    (None, 2),
    (None, 64),
];

// Whether a batch gives this answer and this text for all bucket widths and numbers of workers.
fn is_answered(
    rt: &(impl Abort + AllocGlobal + Threads + Wait + Sync),
    (gr, ss): (&str, &str),
    answer: Result<Summary, BatchError>,
    text: &str,
) -> bool {
    let case = BatchCase {
        gr,
        ss,
        room: AMPLE,
    };
    for (delta, workers) in CREWS {
        if !run::<28>(rt, case, width_of(rt, delta), workers).gave(answer, text) {
            return false;
        }
    }
    true
}

#[test]
fn sources_of_the_diamond(rt: HostRuntime) -> Result<(), Fail> {
    let none = Err(BatchError::NoSuchVertex(9, Role::Source));
    let wrong = "p aux sp ss 3\ns 1\ns 9\ns 7\n";
    assert!(rt; is_answered(&rt, (DIAMOND, TWO), summary(2, 0, 68), TWO_TEXT));
    assert!(rt; is_answered(&rt, (DIAMOND, "p aux sp ss 0\n"), summary(0, 0, 0), ""));
    assert!(rt; is_answered(&rt, (DIAMOND, wrong), none, ""));
    let text =
        "p spt 2000 1\nv 1 0 0\nv 2 3 1\nv 3 3 1\nv 4 5 2\ne 4\np spt 2000 4\nv 4 0 0\ne 1\n";
    assert!(rt; is_answered(&rt, (WIDE, TWO), summary(2, 0, 74), text));
    Ok(())
}

// With 32 bits for the predecessor, the second of two long arcs leads too far.
#[test]
fn too_far(rt: HostRuntime) -> Result<(), Fail> {
    let case = BatchCase {
        gr: "p sp 3 2\na 1 2 4294967294\na 2 3 1\n",
        ss: ONE,
        room: 100,
    };
    let ran = run::<32>(&rt, case, BucketWidth::MeanLength, 1);
    assert!(rt; ran.gave(summary(1, 1, 6), "x 1 3\n"));
    Ok(())
}
