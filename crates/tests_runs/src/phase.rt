//! Runs on small graphs, with several numbers of workers and bucket widths.
ghost use Rattle.std.specs.Prelude.{◌≡◌, ◌≤◌, IfOk};

use sp_files::Tree;
use sp_graph::Graph;
use sp_offer::Caller;
use sp_phase::{RunError, Store, run_source, run_source_with};
use sp_rounds::OpenGate;
use sp_team::Team;
use sp_word::{Delta, Meter, Workers};
use std::alloc::{AllocError, Global};
use std::process::Abort;
use std::sync::Wait;
use std::test::Fail;
use std::thread::Threads;
use tests_samples::{DIAMOND, DIAMOND_ROWS, Triple, graph_of, long_path};

mod meeting;
mod pairs;
mod refused;
mod settling;
mod targets;
mod watching;

const WORKERS: [u32; 3] = [1, 2, 64];

// A row of a tree: vertex, distance, predecessor.
type Row = (u32, u64, u32);

// The expected result of a run: the rows of the tree, or why there is none.
type Told<'w> = Result<&'w [Row], RunError>;

// This many workers.
pub(crate) fn crew(rt: &impl Abort, number: u32) -> Workers {
    Workers::new(number).expect(rt, "a number of workers in range")
}

// This bucket width.
fn width(rt: &impl Abort, width: u64) -> Delta<28> {
    Delta::new(width).expect(rt, "a width in range")
}

// The result of a run in which the workers share every round.
fn run(
    rt: &(impl Abort + AllocGlobal + Threads + Wait + Sync),
    graph: &Graph,
    delta: u64,
    workers: u32,
    source: u32,
) -> Result<Tree<28>, RunError>
    requires { graph.now.n ≤ 10000 }
{
    let (delta, workers) = (width(rt, delta), crew(rt, workers));
    run_source_with(rt, rt.alloc(), graph, delta, workers, source, &OpenGate)
}

// The same by a team that lasts for the whole run and counts on a meter.
fn run_by_team(
    rt: &(impl Abort + AllocGlobal + Threads + Wait + Sync),
    graph: &Graph,
    workers: u32,
    meter: &Meter,
) -> Result<Tree<28>, RunError>
    requires { graph.now.n ≤ 10000 }
{
    let team = Team {
        delta: width(rt, 2),
        workers: crew(rt, workers),
    };
    sp_run::run_by_team(rt, rt.alloc(), graph, team, meter, 1)
}

// Splits the caller of a store in two.
fn split(store: &Store<28>, caller: Caller) -> (Caller, Caller)
    requires { caller.table ≡ store.now.table }
    ensures first { result.0.table ≡ store.now.table }
    ensures second { result.1.table ≡ store.now.table }
{
    let Ok(both) = store.table().split(caller) else {
        unreachable!()
    };
    both
}

// Whether the tree has these rows.
fn has_rows(tree: &Tree<28>, want: &[Row]) -> bool {
    tree.rows().len() == want.len()
        && tree.rows().iter().zip(want).all(|(row, want)| {
            row.0 == want.0 && row.1.dist() == Some(want.1) && row.1.pred() == Some(want.2)
        })
}

// Whether a run has this result.
fn is_told(told: &Result<Tree<28>, RunError>, want: Told<'_>) -> bool {
    match (told, want) {
        (Ok(tree), Ok(rows)) => has_rows(tree, rows),
        (Err(error), Err(wanted)) => *error == wanted,
        _ => false,
    }
}

// Whether runs with each number of workers have this result.
fn crews_tell(
    rt: &(impl Abort + AllocGlobal + Threads + Wait + Sync),
    graph: &Graph,
    delta: u64,
    source: u32,
    want: Told<'_>,
) -> bool
    requires { graph.now.n ≤ 10000 }
{
    for workers in WORKERS {
        let told = run(rt, graph, delta, workers, source);
        if !is_told(&told, want) {
            return false;
        }
    }
    true
}

// Whether runs on the graph of these arcs have this result, with each of these widths.
fn all_tell(
    rt: &(impl Abort + AllocGlobal + Threads + Wait + Sync),
    n: u32,
    arcs: &[Triple],
    deltas: &[u64],
    source: u32,
    want: Told<'_>,
) -> Result<bool, AllocError>
    requires { (1 ≤ n) × (n ≤ 10000) }
{
    let graph = graph_of(rt.alloc(), n, arcs)?;
    for delta in deltas {
        if !crews_tell(rt, &graph, *delta, source, want) {
            return Ok(false);
        }
    }
    Ok(true)
}

// The rows of the long path from its first vertex; the last vertex has this distance and predecessor.
fn path_rows(alloc: Global, dist: u64, pred: u32) -> Result<Vec<Row>, AllocError> {
    let mut rows = Vec::new(alloc);
    for place in 0..17u32 {
        rows.push((place + 1, u64::from(place) * 4_294_967_295, place))?;
    }
    rows.push((18, dist, pred))?;
    Ok(rows)
}

const WIDE: [u64; 3] = [1, 4_294_967_295, 68_719_476_734];

#[test]
fn diamond(rt: HostRuntime) -> Result<(), Fail> {
    assert!(rt; all_tell(&rt, 4, &DIAMOND, &[1, 2, 100], 1, Ok(&DIAMOND_ROWS))?);
    Ok(())
}

// Whether teams of each size find the diamond's tree.
fn teams_find_it(rt: &(impl Abort + AllocGlobal + Threads + Wait + Sync), graph: &Graph) -> bool
    requires { graph.now.n ≤ 10000 }
{
    for workers in WORKERS {
        let told = run_by_team(rt, graph, workers, &Meter::new());
        if !is_told(&told, Ok(&DIAMOND_ROWS)) {
            return false;
        }
    }
    true
}

#[test]
fn by_a_team(rt: HostRuntime) -> Result<(), Fail> {
    let graph = graph_of(rt.alloc(), 4, &DIAMOND)?;
    assert!(rt; teams_find_it(&rt, &graph));
    let (delta, workers) = (width(&rt, 2), crew(&rt, 64));
    let told = run_source(&rt, rt.alloc(), &graph, delta, workers, 1);
    assert!(rt; is_told(&told, Ok(&DIAMOND_ROWS)));
    Ok(())
}

// The graph of a path of 1,000 vertices, and a vertex that isn't reached.
fn path(alloc: Global) -> Result<Graph, AllocError>
    ensures { IfOk result (λ graph. graph.n ≡ 1001) }
{
    let mut arcs = Vec::new(alloc);
    for tail in 1u32..1000 {
        arcs.push((tail, tail + 1, 1))?;
    }
    graph_of(alloc, 1001, &arcs)
}

// The number of vertices that a team reaches, and the number that it counts.
fn count(
    rt: &(impl Abort + AllocGlobal + Threads + Wait + Sync),
    graph: &Graph,
    workers: u32,
) -> Result<(usize, u64), RunError>
    requires { graph.now.n ≤ 10000 }
{
    let meter = Meter::new();
    let tree = run_by_team(rt, graph, workers, &meter)?;
    Ok((tree.rows().len(), meter.count()))
}

#[test]
fn meter_counts_each_vertex_of_a_path(rt: HostRuntime) -> Result<(), Fail> {
    let graph = path(rt.alloc())?;
    for workers in WORKERS {
        assert!(rt; count(&rt, &graph, workers) == Ok((1000, 1000)));
    }
    Ok(())
}

#[test]
fn no_such_vertex(rt: HostRuntime) -> Result<(), Fail> {
    let none = Err(RunError::NoSuchVertex);
    assert!(rt; all_tell(&rt, 4, &DIAMOND, &[2], 0, none)?);
    assert!(rt; all_tell(&rt, 4, &DIAMOND, &[2], 5, none)?);
    Ok(())
}

#[test]
fn parallel_arcs(rt: HostRuntime) -> Result<(), Fail> {
    let arcs = [(1, 2, 5), (1, 2, 4), (1, 1, 1)];
    assert!(rt; all_tell(&rt, 2, &arcs, &[1], 1, Ok(&[(1, 0, 0), (2, 4, 1)]))?);
    Ok(())
}

#[test]
fn unreached(rt: HostRuntime) -> Result<(), Fail> {
    assert!(rt; all_tell(&rt, 3, &[(1, 2, 7)], &[1], 2, Ok(&[(2, 0, 0)]))?);
    Ok(())
}

#[test]
fn light_and_heavy(rt: HostRuntime) -> Result<(), Fail> {
    let rows = [(1, 0, 0), (2, 3, 1), (3, 4, 1)];
    assert!(rt; all_tell(&rt, 3, &[(1, 2, 3), (1, 3, 4)], &[3], 1, Ok(&rows))?);
    Ok(())
}

#[test]
fn at_the_limit(rt: HostRuntime) -> Result<(), Fail> {
    let arcs = long_path(rt.alloc(), 14)?;
    let rows = path_rows(rt.alloc(), 68_719_476_734, 17)?;
    assert!(rt; all_tell(&rt, 18, &arcs, &WIDE, 1, Ok(&rows))?);
    Ok(())
}

#[test]
fn beyond_the_limit(rt: HostRuntime) -> Result<(), Fail> {
    let arcs = long_path(rt.alloc(), 15)?;
    assert!(rt; all_tell(&rt, 18, &arcs, &WIDE, 1, Err(RunError::TooFar(18)))?);
    Ok(())
}

#[test]
fn short_way_round(rt: HostRuntime) -> Result<(), Fail> {
    let mut arcs = long_path(rt.alloc(), 15)?;
    arcs.push((1, 18, 9))?;
    let rows = path_rows(rt.alloc(), 9, 1)?;
    assert!(rt; all_tell(&rt, 18, &arcs, &WIDE, 1, Ok(&rows))?);
    Ok(())
}
