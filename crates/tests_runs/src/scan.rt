//! What arcs show about words, with one thread and with several.
ghost use Rattle.std.specs.Prelude.{◌≤◌, length, All};
ghost use Rattle.sp_paths.specs.Paths.{IsArc};

use sp_judge::{Scan, open_tails, scan_arcs};
use sp_paths::Arc;
use sp_word::Word;
use std::alloc::AllocError;
use std::test::Fail;
use std::thread::Threads;
use tests_samples::{DIAMOND, Triple, arcs_of};

// Whether a scan of the arcs shows this with several numbers of threads.
fn all_show<R: Threads + Sync>(rt: &R, words: &[Word<28>], arcs: &[Arc], told: Scan) -> bool
    requires few { length words.now ≤ 1000 }
    requires arcs { All (IsArc (length words.now)) arcs.now }
{
    for threads in [1, 2, 5, 64] {
        if scan_arcs(rt, words, arcs, threads) != told {
            return false;
        }
    }
    true
}

// Whether a scan of these arcs shows this for the words of vertices 1, 2 and so on, and these tails are open.
fn show<R: Threads + AllocGlobal + Sync>(
    rt: &R,
    arcs: &[Triple],
    words: &[Word<28>],
    told: Scan,
    open: &[u32],
) -> Result<bool, AllocError>
    requires { length words.now ≤ 1000 }
{
    let arcs = arcs_of(rt.alloc(), words.len() as u32, arcs)?;
    let tails = open_tails(rt.alloc(), words, &arcs)?;
    Ok(all_show(rt, words, &arcs, told) && tails.as_slice() == open)
}

#[test]
fn diamond_is_whole(rt: HostRuntime) -> Result<(), Fail> {
    let tree = [
        Word::pack(0, 0),
        Word::pack(3, 1),
        Word::pack(3, 1),
        Word::pack(5, 2),
    ];
    assert!(rt; show(&rt, &DIAMOND, &tree, Scan::Whole, &[])?);
    Ok(())
}

#[test]
fn greater_predecessor_is_open(rt: HostRuntime) -> Result<(), Fail> {
    let words = [
        Word::pack(0, 0),
        Word::pack(3, 1),
        Word::pack(3, 1),
        Word::pack(5, 3),
    ];
    assert!(rt; show(&rt, &DIAMOND, &words, Scan::Open, &[2])?);
    Ok(())
}

#[test]
fn unreached_head_is_open(rt: HostRuntime) -> Result<(), Fail> {
    let words = [
        Word::pack(0, 0),
        Word::pack(3, 1),
        Word::pack(3, 1),
        Word::unreached(),
    ];
    assert!(rt; show(&rt, &DIAMOND, &words, Scan::Open, &[2, 3, 1])?);
    Ok(())
}

#[test]
fn parts_without_an_arc_from_the_source_show_nothing(rt: HostRuntime) -> Result<(), Fail> {
    let none = Word::unreached();
    let words = [none, none, none, Word::pack(0, 0)];
    assert!(rt; show(&rt, &DIAMOND, &words, Scan::Whole, &[])?);
    Ok(())
}

#[test]
fn smallest_vertex_too_far_is_left_out(rt: HostRuntime) -> Result<(), Fail> {
    let arcs = [(1, 4, 9), (2, 3, 5), (2, 1, 5), (4, 2, 1)];
    let none = Word::unreached();
    let words = [
        none,
        Word::pack(68719476730, 4),
        none,
        Word::pack(68719476729, 1),
    ];
    assert!(rt; show(&rt, &arcs, &words, Scan::LeavesOut(1), &[])?);
    Ok(())
}
