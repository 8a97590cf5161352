//! Threads under fire: teams of several sizes agree with the plain program on 1,000 random graphs of every kind.
ghost use Rattle.std.specs.Prelude.{◌≡◌, ◌≤◌, true};
ghost use Rattle.sp_word.specs.Word.{is_layout, max_pred};

use crate::runs::{run_by_team, same};
use sp_graph::Graph;
use sp_judge::{Answer, GraphKind, Random, plain_tree, random_graph};
use sp_word::Word;
use std::alloc::AllocError;
use std::process::Abort;
use std::sync::Wait;
use std::thread::Threads;

const TEAMS: [u32; 5] = [1, 2, 3, 8, 64];

// A team larger than this answers for one graph in five: on busy processors, starting its threads takes most of the time.
const MANY: u32 = 8;

// The width of a bucket: 1, the mean length of an arc, eight times that, or the greatest width.
fn width_of<const P: u32>(graph: &Graph, number: u32) -> u64
    requires { is_layout P ≡ true }
{
    let most = Word::<P>::max_dist();
    match number % 4 {
        0 => 1,
        1 => graph.mean_length().min(most),
        2 => graph.mean_length().saturating_mul(8).min(most),
        _ => most,
    }
}

// Lets each team answer for the graph with this number.
fn compare_teams<const P: u32>(
    rt: &(impl Abort + AllocGlobal + Threads + Wait + Sync),
    graph: &Graph,
    number: u32,
    source: u32,
    want: &Answer<P>,
)
    requires layout { is_layout P ≡ true }
    requires n { graph.now.n ≤ max_pred P }
{
    let delta = width_of::<P>(graph, number);
    for workers in TEAMS {
        if workers > MANY && number % 5 > 0 {
            continue;
        }
        let told = run_by_team(rt, graph, delta, workers, source);
        assert!(rt; same(&told, want), "graph {number}, a team of {workers}");
    }
}

// Does the same for random graphs of a kind, each from a random source.
fn fire<const P: u32>(
    rt: &(impl Abort + AllocGlobal + Threads + Wait + Sync),
    kind: GraphKind,
    seed: u64,
    graphs: u32,
) -> Result<(), AllocError>
    requires { is_layout P ≡ true }
{
    let mut random = Random::new(seed);
    for number in 0..graphs {
        let n = random.up_to(2000);
        let graph = random_graph(rt.alloc(), &mut random, kind, n)?;
        assert!(rt; graph.n() <= Word::<P>::max_pred());
        let source = random.up_to(n);
        let want = plain_tree::<P>(rt.alloc(), &graph, source)?;
        compare_teams(rt, &graph, number, source, &want);
    }
    Ok(())
}

#[test]
fn sparse_under_fire(rt: HostRuntime) -> Result<(), AllocError> {
    fire::<28>(&rt, GraphKind::Sparse, 1, 125)
}

#[test]
fn wide_words_under_fire(rt: HostRuntime) -> Result<(), AllocError> {
    fire::<20>(&rt, GraphKind::Sparse, 2, 100)
}

#[test]
fn dense_under_fire(rt: HostRuntime) -> Result<(), AllocError> {
    fire::<28>(&rt, GraphKind::Dense, 3, 65)
}

#[test]
fn more_dense_under_fire(rt: HostRuntime) -> Result<(), AllocError> {
    fire::<24>(&rt, GraphKind::Dense, 9, 60)
}

#[test]
fn ties_under_fire(rt: HostRuntime) -> Result<(), AllocError> {
    fire::<24>(&rt, GraphKind::Ties, 4, 150)
}

#[test]
fn parallel_arcs_under_fire(rt: HostRuntime) -> Result<(), AllocError> {
    fire::<32>(&rt, GraphKind::Parallel, 5, 125)
}

#[test]
fn parts_under_fire(rt: HostRuntime) -> Result<(), AllocError> {
    fire::<28>(&rt, GraphKind::Parts, 6, 125)
}

#[test]
fn long_arcs_under_fire(rt: HostRuntime) -> Result<(), AllocError> {
    fire::<28>(&rt, GraphKind::Long, 7, 65)
}

#[test]
fn more_long_arcs_under_fire(rt: HostRuntime) -> Result<(), AllocError> {
    fire::<28>(&rt, GraphKind::Long, 10, 60)
}

#[test]
fn short_words_under_fire(rt: HostRuntime) -> Result<(), AllocError> {
    fire::<32>(&rt, GraphKind::Long, 8, 125)
}
