//! Each job in each direction of the diamond's arcs, from a packed file and from lines.
use crate::batches::{listed, settings, summary};
use crate::graphs::{DIAMOND, TWO};
use sp_device::{OfRead, Peeked, UpToWriter};
use sp_jobs::{BatchError, Summary, run_batch_told, run_matrix_told, run_nearest_told};
use sp_network::Direction;
use sp_pairs::{PairAnswer, run_pairs_told};
use std::process::Abort;
use std::sync::Wait;
use std::test::Fail;
use std::thread::Threads;

/// The diamond's packed file: numbers of four bytes, lowest byte first. After the mark come the numbers of vertices and arcs, the
/// ends of the rows, the head and length of each arc, and the sum.
pub(crate) const PACKED: &[u8] = b"\x89SPT\r\n\x1a\x01\x04\0\0\0\x05\0\0\0\
\0\0\0\0\x03\0\0\0\x04\0\0\0\x05\0\0\0\
\x05\0\0\0\x02\0\0\0\x03\0\0\0\x03\0\0\0\
\x03\0\0\0\x04\0\0\0\x06\0\0\0\x04\0\0\0\
\x02\0\0\0\x04\0\0\0\x02\0\0\0\xd1\x5d\x6a\x55\
\0\0\0\0\x2c\xea\xca\x55\x06\0\0\0";

/// Every pair of a source and a target among 1 and 4.
const PAIRS: &str = "p pairs 4\nq 1 1\nq 1 4\nq 4 1\nq 4 4\n";

/// The vertices 2 and 3.
const MIDDLE: &str = "p aux sp ss 2\ns 2\ns 3\n";

/// The output for one direction of the arcs.
#[derive(Clone, Copy)]
struct Wanted {
    direction: Direction,
    /// A list of one source.
    ss: &'static str,
    /// Its tree.
    tree: &'static str,
    /// The lines of `PAIRS`.
    lines: &'static str,
    /// The forest of `MIDDLE`.
    forest: &'static str,
}

const AS_GIVEN: Wanted = Wanted {
    direction: Direction::AsGiven,
    ss: "p aux sp ss 1\ns 1\n",
    tree: "p spt 4 1\nv 1 0 0\nv 2 3 1\nv 3 3 1\nv 4 5 2\ne 4\n",
    lines: "d 1 1 0 0\nd 1 4 5 2\nn 4 1\nd 4 4 0 0\n",
    forest: "p near 4 2\nv 2 0 0 2\nv 3 0 0 3\nv 4 2 2 2\ne 3\n",
};

const TOWARDS: Wanted = Wanted {
    direction: Direction::Towards,
    ss: "p aux sp ss 1\ns 4\n",
    tree: "p spt 4 4\nv 1 5 2\nv 2 2 4\nv 3 2 4\nv 4 0 0\ne 4\n",
    lines: "d 1 1 0 0\nn 1 4\nd 4 1 5 2\nd 4 4 0 0\n",
    forest: "p near 4 2\nv 1 3 2 2\nv 2 0 0 2\nv 3 0 0 3\ne 3\n",
};

const BOTH_WAYS: Wanted = Wanted {
    direction: Direction::BothWays,
    ss: "p aux sp ss 1\ns 2\n",
    tree: "p spt 4 2\nv 1 3 2\nv 2 0 0\nv 3 4 4\nv 4 2 2\ne 4\n",
    lines: "d 1 1 0 0\nd 1 4 5 2\nd 4 1 5 2\nd 4 4 0 0\n",
    forest: "p near 4 2\nv 1 3 2 2\nv 2 0 0 2\nv 3 0 0 3\nv 4 2 2 2\ne 4\n",
};

/// The bytes of the diamond's file, and a job's direction and number of workers.
#[derive(Clone, Copy)]
struct DirectedJob<'t> {
    gr: &'t [u8],
    direction: Direction,
    workers: u32,
}

// Whether this many answers were counted and exactly this text was written.
fn is_whole(answer: Result<Summary, BatchError>, count: u64, out: &UpToWriter, text: &str) -> bool {
    answer == summary(count, 0, text.len() as u64) && out.taken() == text.as_bytes()
}

fn has_tree(
    rt: &(impl Abort + AllocGlobal + Threads + Wait + Sync),
    given: DirectedJob,
    ss: &str,
    text: &str,
) -> bool {
    let Ok(sources) = listed(rt.alloc(), ss) else {
        return false;
    };
    let mut out = UpToWriter::new(rt.alloc(), 1000, 1000);
    let answer = run_batch_told(
        &rt,
        rt.alloc(),
        &mut Peeked::new(OfRead::new(given.gr)),
        sources,
        None,
        &mut out,
        &settings::<28>(rt, given.direction, None, given.workers),
    );
    is_whole(answer, 1, &out, text)
}

fn has_matrix(
    rt: &(impl Abort + AllocGlobal + Threads + Wait + Sync),
    given: DirectedJob,
    text: &str,
) -> bool {
    let (Ok(sources), Ok(targets)) = (listed(rt.alloc(), TWO), listed(rt.alloc(), TWO)) else {
        return false;
    };
    let mut out = UpToWriter::new(rt.alloc(), 1000, 1000);
    let answer = run_matrix_told(
        &rt,
        rt.alloc(),
        &mut Peeked::new(OfRead::new(given.gr)),
        sources,
        targets,
        &mut out,
        &settings::<28>(rt, given.direction, None, given.workers),
    );
    is_whole(answer, 4, &out, text)
}

fn has_pairs(
    rt: &(impl Abort + AllocGlobal + Threads + Wait + Sync),
    given: DirectedJob,
    text: &str,
) -> bool {
    let mut out = UpToWriter::new(rt.alloc(), 1000, 1000);
    let answer = run_pairs_told::<_, PairAnswer, _, _, _, _, _>(
        &rt,
        rt.alloc(),
        &mut Peeked::new(OfRead::new(given.gr)),
        &mut OfRead::new(PAIRS.as_bytes()),
        &mut out,
        &settings::<28>(rt, given.direction, None, given.workers),
    );
    is_whole(answer, 4, &out, text)
}

fn has_forest(
    rt: &(impl Abort + AllocGlobal + Threads + Wait + Sync),
    given: DirectedJob,
    text: &str,
) -> bool {
    let Ok(sources) = listed(rt.alloc(), MIDDLE) else {
        return false;
    };
    let mut out = UpToWriter::new(rt.alloc(), 1000, 1000);
    let answer = run_nearest_told(
        &rt,
        rt.alloc(),
        &mut Peeked::new(OfRead::new(given.gr)),
        sources,
        None,
        &mut out,
        &settings::<28>(rt, given.direction, None, given.workers),
    );
    is_whole(answer, 1, &out, text)
}

// Whether each job gives exactly this for the file with any number of workers.
fn is_written(
    rt: &(impl Abort + AllocGlobal + Threads + Wait + Sync),
    gr: &[u8],
    wanted: Wanted,
) -> bool {
    for workers in [1, 2, 64] {
        let given = DirectedJob {
            gr,
            direction: wanted.direction,
            workers,
        };
        if !has_tree(rt, given, wanted.ss, wanted.tree)
            || !has_matrix(rt, given, wanted.lines)
            || !has_pairs(rt, given, wanted.lines)
            || !has_forest(rt, given, wanted.forest)
        {
            return false;
        }
    }
    true
}

#[test]
fn jobs_in_each_direction_of_each_form(rt: HostRuntime) -> Result<(), Fail> {
    for wanted in [AS_GIVEN, TOWARDS, BOTH_WAYS] {
        assert!(rt; is_written(&rt, PACKED, wanted));
        assert!(rt; is_written(&rt, DIAMOND.as_bytes(), wanted));
    }
    Ok(())
}
