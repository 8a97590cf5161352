//! Runs with several numbers of workers and widths of buckets, and by the calling thread alone, and what they are to tell.
ghost use Rattle.std.specs.Prelude.{◌≡◌, ◌≤◌, true, IfOk, IfSome};
ghost use Rattle.sp_word.specs.Word.{is_layout, max_dist};

use sp_answer::{RunError, Tree, forest_of, part_of};
use sp_graph::Graph;
use sp_run::{Forest, run_nearest, run_within};
use sp_serial::ByCaller;
use sp_team::Team;
use sp_word::{Delta, Word, Workers};
use std::process::Abort;
use std::sync::Wait;
use std::test::Fail;
use std::thread::Threads;
use tests_samples::Triple;

const WORKERS: [u32; 3] = [1, 2, 64];

const DELTAS: [u64; 3] = [1, 5, 4_294_967_294];

/// A row that is wanted: vertex, distance, predecessor and root.
pub(crate) type Row = (u32, u64, u32, u32);

/// The graph of arcs that are given by tail, head and length.
pub(crate) fn graph_of(
    rt: &(impl Abort + AllocGlobal),
    n: u32,
    arcs: &[Triple],
) -> Result<Graph, Fail>
    ensures { IfOk result (λ graph. graph.n ≤ 10000) }
{
    assert!(rt; 1 <= n && n <= 10_000);
    Ok(tests_samples::graph_of(rt.alloc(), n, arcs)?)
}

// Buckets so wide, and so many workers.
fn team_of<const P: u32>(rt: &impl Abort, width: u64, workers: u32) -> Team<P>
    requires { is_layout P ≡ true }
{
    let delta = Delta::new(width).expect(rt, "a width in range");
    let workers = Workers::new(workers).expect(rt, "a number of workers in range");
    Team { delta, workers }
}

/// Whether a forest has these rows and no others.
pub(crate) fn has_rows<const P: u32>(forest: &Forest<P>, want: &[Row]) -> bool {
    if forest.rows().len() != want.len() {
        return false;
    }
    for (row, want) in forest.rows().iter().zip(want) {
        let is_row = row.0 == want.0
            && row.1.dist() == Some(want.1)
            && row.1.pred() == Some(want.2)
            && row.2 == want.3;
        if !is_row {
            return false;
        }
    }
    true
}

/// Whether a tree has these rows and no others.
pub(crate) fn has_tree_rows<const P: u32>(tree: &Tree<P>, want: &[Row]) -> bool {
    if tree.rows().len() != want.len() {
        return false;
    }
    for (row, want) in tree.rows().iter().zip(want) {
        let is_row = row.0 == want.0
            && row.1.dist() == Some(want.1)
            && row.1.pred() == Some(want.2);
        if !is_row {
            return false;
        }
    }
    true
}

// Whether a run from these sources tells what is wanted: these rows, or why there are none.
fn tells<const P: u32>(
    told: &Result<Forest<P>, RunError>,
    want: &Result<Vec<Row>, RunError>,
) -> bool {
    match (told, want) {
        (Ok(forest), Ok(rows)) => has_rows(forest, rows.as_slice()),
        (Err(error), Err(other)) => *error == *other,
        _ => false,
    }
}

// The limit, which is a distance of a word.
fn limit_of<const P: u32>(rt: &impl Abort, limit: Option<u64>) -> Option<u64>
    requires { is_layout P ≡ true }
    ensures { IfSome result (λ limit. limit ≤ max_dist P) }
{
    match limit {
        Some(limit) => {
            assert!(rt; limit <= Word::<P>::max_dist());
            Some(limit)
        }
        None => None,
    }
}

/// Runs from the sources, for each number of workers and width, and by the calling thread alone, and compares.
pub(crate) fn compare_nearest<const P: u32>(
    rt: &(impl Abort + AllocGlobal + Threads + Wait + Sync),
    graph: &Graph,
    sources: &[u32],
    limit: Option<u64>,
    want: &Result<Vec<Row>, RunError>,
)
    requires { is_layout P ≡ true }
{
    assert!(rt; graph.n() <= Word::<P>::max_pred());
    let limit = limit_of::<P>(rt, limit);
    let told = forest_of::<P, ByCaller>(&ByCaller, rt.alloc(), graph, sources, limit);
    assert!(rt; tells(&told, want), "alone");
    for workers in WORKERS {
        for delta in DELTAS {
            let team = team_of::<P>(rt, delta, workers);
            let told = run_nearest(rt, rt.alloc(), graph, team, sources, limit);
            assert!(rt; tells(&told, want), "delta {delta}, {workers} workers");
        }
    }
}

/// Whether runs from these sources have these rows.
pub(crate) fn nearest_has<const P: u32>(
    rt: &(impl Abort + AllocGlobal + Threads + Wait + Sync),
    graph: &Graph,
    sources: &[u32],
    limit: Option<u64>,
    rows: &[Row],
) -> Result<(), Fail>
    requires { is_layout P ≡ true }
{
    let want = Ok(Vec::from_slice(rt.alloc(), rows)?);
    compare_nearest::<P>(rt, graph, sources, limit, &want);
    Ok(())
}

/// Runs within the limit from a source, for each number of workers and width, and by the calling thread alone, and compares:
/// these rows, whose roots play no part.
pub(crate) fn compare_within<const P: u32>(
    rt: &(impl Abort + AllocGlobal + Threads + Wait + Sync),
    graph: &Graph,
    source: u32,
    limit: u64,
    want: &[Row],
)
    requires { is_layout P ≡ true }
{
    assert!(rt; graph.n() <= Word::<P>::max_pred());
    assert!(rt; limit <= Word::<P>::max_dist());
    match part_of::<P, ByCaller>(&ByCaller, rt.alloc(), graph, source, limit) {
        Ok(tree) => assert!(rt; has_tree_rows(&tree, want), "alone"),
        Err(_) => assert!(rt; false),
    }
    for workers in WORKERS {
        for delta in DELTAS {
            let team = team_of::<P>(rt, delta, workers);
            match run_within(rt, rt.alloc(), graph, team, source, limit) {
                Ok(tree) => assert!(rt; has_tree_rows(&tree, want), "delta {delta}, {workers}"),
                Err(_) => assert!(rt; false),
            }
        }
    }
}
