//! Forests in memory: the worked examples, with the texts of the specification.
ghost use Rattle.std.specs.Prelude.{◌≡◌, ◌≤◌, true, IfSome};
ghost use Rattle.sp_word.specs.Word.{is_layout, max_dist};
ghost use Rattle.sp_jobs.specs.Listing.{IsNumbered};

use crate::batches::{List, listed, settings, summary};
use crate::graphs::{BEYOND, DIAMOND};
use sp_device::{OfRead, Peeked, UpToWriter};
use sp_jobs::{BatchError, Listing, Role, Summary, run_nearest_told};
use sp_network::Direction;
use std::process::Abort;
use std::sync::Wait;
use std::test::Fail;
use std::thread::Threads;

/// The output for the sources 1 and 3 of the diamond.
const OF_1_AND_3: &str = "p near 4 2\nv 1 0 0 1\nv 2 3 1 1\nv 3 0 0 3\nv 4 2 3 3\ne 4\n";

/// A graph, and a list of its sources.
#[derive(Clone, Copy)]
struct NearestInput<'t> {
    gr: &'t str,
    ss: &'t str,
}

// Whether a number of workers give this answer for a list of sources, and this text to a writer that takes a number of bytes.
fn is_answered<const P: u32>(
    rt: &(impl Abort + AllocGlobal + Threads + Wait + Sync),
    gr: &str,
    list: List,
    limit: Option<u64>,
    by: (u32, u32),
    wanted: (Result<Summary, BatchError>, &str),
) -> bool
    requires layout { is_layout P ≡ true }
    requires limit { IfSome limit (λ limit. limit ≤ max_dist P) }
    requires list { IsNumbered list }
{
    let mut out = UpToWriter::new(rt.alloc(), by.1 as usize, 1000);
    let told = run_nearest_told(
        &rt,
        rt.alloc(),
        &mut Peeked::new(OfRead::new(gr.as_bytes())),
        list,
        limit,
        &mut out,
        &settings::<P>(rt, Direction::AsGiven, Some(2), by.0),
    );
    told == wanted.0 && out.taken() == wanted.1.as_bytes()
}

// Whether any number of workers writes and counts exactly this.
fn is_written<const P: u32>(
    rt: &(impl Abort + AllocGlobal + Threads + Wait + Sync),
    sources: NearestInput,
    limit: Option<u64>,
    text: &str,
) -> bool
    requires layout { is_layout P ≡ true }
    requires limit { IfSome limit (λ limit. limit ≤ max_dist P) }
{
    let far = text.starts_with('x') as u64;
    let answer = summary(1, far, text.len() as u64);
    for workers in [1, 2, 64] {
        let Ok(list) = listed(rt.alloc(), sources.ss) else {
            return false;
        };
        if !is_answered::<P>(rt, sources.gr, list, limit, (workers, 1000), (answer, text)) {
            return false;
        }
    }
    true
}

// The sources 1 and 3 of the diamond, also with one of them named twice; and no source.
#[test]
fn sources_are_a_set(rt: HostRuntime) -> Result<(), Fail> {
    for (ss, text) in [
        ("p aux sp ss 2\ns 1\ns 3\n", OF_1_AND_3),
        ("p aux sp ss 3\ns 3\ns 1\ns 3\n", OF_1_AND_3),
        ("p aux sp ss 0\n", "p near 4 0\ne 0\n"),
    ] {
        let sources = NearestInput { gr: DIAMOND, ss };
        assert!(rt; is_written::<28>(&rt, sources, None, text));
    }
    Ok(())
}

// A tie goes to the smaller predecessor, and a source that can be reached from another keeps its own pair.
#[test]
fn ties_and_sources_on_the_way(rt: HostRuntime) -> Result<(), Fail> {
    for (gr, ss, text) in [
        (
            DIAMOND,
            "p aux sp ss 2\ns 2\ns 3\n",
            "p near 4 2\nv 2 0 0 2\nv 3 0 0 3\nv 4 2 2 2\ne 3\n",
        ),
        (
            "p sp 3 2\na 3 1 5\na 2 1 5\n",
            "p aux sp ss 2\ns 3\ns 2\n",
            "p near 3 2\nv 1 5 2 2\nv 2 0 0 2\nv 3 0 0 3\ne 3\n",
        ),
        (
            "p sp 2 1\na 1 2 1\n",
            "p aux sp ss 2\ns 1\ns 2\n",
            "p near 2 2\nv 1 0 0 1\nv 2 0 0 2\ne 2\n",
        ),
    ] {
        assert!(rt; is_written::<28>(&rt, NearestInput { gr, ss }, None, text));
    }
    Ok(())
}

// A vertex that is too far from the only source, and one at the greatest distance.
#[test]
fn far_vertices(rt: HostRuntime) -> Result<(), Fail> {
    let ss = "p aux sp ss 1\ns 1\n";
    let path = NearestInput { gr: BEYOND, ss };
    assert!(rt; is_written::<28>(&rt, path, None, "x 18\n"));
    let alone = "p near 18 1\nv 1 0 0 1\ne 1\n";
    assert!(rt; is_written::<28>(&rt, path, Some(4294967294), alone));
    let gr = "p sp 2 1\na 1 2 4294967294\n";
    let text = "p near 2 1\nv 1 0 0 1\nv 2 4294967294 1 1\ne 2\n";
    assert!(rt; is_written::<32>(&rt, NearestInput { gr, ss }, None, text));
    Ok(())
}

// NearestInput given as numbers, one of them not a vertex; and a writer that fails.
#[test]
fn given_sources(rt: HostRuntime) -> Result<(), Fail> {
    let none = Err(BatchError::NoSuchVertex(5, Role::Source));
    let beyond = Listing::These(&[3, 5, 6]);
    assert!(rt; is_answered::<28>(&rt, DIAMOND, beyond, None, (2, 1000), (none, "")));
    let failed = Err(BatchError::Write);
    let begun = "p near 4 2\nv ";
    let given = Listing::These(&[3, 1]);
    assert!(rt; is_answered::<28>(&rt, DIAMOND, given, None, (2, 13), (failed, begun)));
    Ok(())
}
