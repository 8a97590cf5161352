//! Runs for several targets of a source, by the calling thread alone.
ghost use Rattle.std.specs.Prelude.{◌≡◌, ◌≤◌, All};

use crate::near::runs::graph_of;
use sp_answer::{PairAnswer, RunError, answers_of};
use sp_graph::Graph;
use sp_serial::{ByCaller, SearchBuffers};
use sp_word::Word;
use std::process::Abort;
use std::test::Fail;
use tests_samples::{DIAMOND, long_path};

// Runs from a source, and compares: these answers, or why there are none.
fn compare(
    rt: &(impl Abort + AllocGlobal),
    graph: &Graph,
    source: u32,
    targets: &[u32],
    want: Result<&[PairAnswer], RunError>,
) {
    assert!(rt; graph.n() <= Word::<28>::max_pred());
    let told = answers_of::<28, PairAnswer, ByCaller>(
        &ByCaller,
        rt.alloc(),
        graph,
        source,
        targets,
    );
    match (told, want) {
        (Ok(answers), Ok(want)) => assert!(rt; answers.as_slice() == want),
        (Err(error), Err(want)) => assert!(rt; error == want),
        _ => assert!(rt; false),
    }
}

#[test]
fn targets_in_their_order(rt: HostRuntime) -> Result<(), Fail> {
    let graph = graph_of(&rt, 4, &DIAMOND)?;
    let near = PairAnswer::Found { dist: 5, pred: 2 };
    let own = PairAnswer::Found { dist: 0, pred: 0 };
    compare(&rt, &graph, 1, &[4, 1, 4], Ok(&[near, own, near]));
    compare(
        &rt,
        &graph,
        4,
        &[4, 1, 4],
        Ok(&[own, PairAnswer::NoWalk, own]),
    );
    compare(&rt, &graph, 4, &[], Ok(&[]));
    Ok(())
}

#[test]
fn far_vertex_is_told_of_no_other_target(rt: HostRuntime) -> Result<(), Fail> {
    let graph = graph_of(&rt, 18, &long_path(rt.alloc(), u32::MAX)?)?;
    let far = PairAnswer::TooFar(18);
    let last = PairAnswer::Found {
        dist: 68_719_476_720,
        pred: 16,
    };
    compare(&rt, &graph, 1, &[18, 17], Ok(&[far, last]));
    compare(&rt, &graph, 1, &[17], Ok(&[last]));
    Ok(())
}

#[test]
fn some_end_is_no_vertex(rt: HostRuntime) -> Result<(), Fail> {
    let graph = graph_of(&rt, 4, &DIAMOND)?;
    compare(&rt, &graph, 5, &[], Err(RunError::NoSuchVertex));
    compare(&rt, &graph, 1, &[4, 0], Err(RunError::NoSuchVertex));
    Ok(())
}

// Whether a search tells these answers.
fn tells(room: &mut SearchBuffers<28>, source: u32, targets: &[u32], want: &[PairAnswer]) -> bool
    requires source { (1 ≤ source) × (source ≤ room.old.n) }
    requires targets { All (λ t. (1 ≤ t) × (t ≤ room.old.n)) targets.now }
    ensures { room.new ≡ room.old }
{
    match room.find::<PairAnswer>(source, targets, 4) {
        Ok(Some(answers)) => answers.as_slice() == want,
        Ok(None) | Err(_) => false,
    }
}

#[test]
fn room_serves_source_after_source(rt: HostRuntime) -> Result<(), Fail> {
    let graph = graph_of(&rt, 4, &DIAMOND)?;
    assert!(rt; graph.n() == 4);
    let mut room = SearchBuffers::<28>::new(rt.alloc(), &graph)?;
    let near = PairAnswer::Found { dist: 5, pred: 2 };
    let own = PairAnswer::Found { dist: 0, pred: 0 };
    let first = tells(&mut room, 1, &[4, 1, 4], &[near, own, near]);
    // (no walk leads from 4 to 1)
    let none = tells(&mut room, 4, &[4, 1], &[]);
    let last = tells(&mut room, 4, &[4], &[own]);
    assert!(rt; first && !none && last);
    Ok(())
}
