//! Runs from several sources of random graphs tell what a plain program does.
ghost use Rattle.std.specs.Prelude.{◌≡◌, ◌≤◌, true};
ghost use Rattle.sp_word.specs.Word.{is_layout};

use crate::near::plain::{answer, nearest_lengths, rows_within};
use crate::near::runs::{compare_nearest, graph_of};
use sp_graph::Graph;
use sp_judge::Random;
use sp_word::Word;
use std::process::Abort;
use std::sync::Wait;
use std::test::Fail;
use std::thread::Threads;

// An arc between any two of `n` vertices.
fn random_arc(random: &mut Random, n: u32, longest: u32) -> (u32, u32, u32)
    requires { (1 ≤ n) × (1 ≤ longest) }
{
    (random.up_to(n), random.up_to(n), random.up_to(longest))
}

/// A graph of 1 to 40 vertices with up to two arcs a vertex: loops, parallel arcs, ties and unreached parts come by themselves.
pub(crate) fn random_graph(
    rt: &(impl Abort + AllocGlobal),
    random: &mut Random,
    longest: u32,
) -> Result<Graph, Fail>
    requires { 1 ≤ longest }
{
    let n = random.up_to(40);
    let m = random.below(n * 2);
    let mut arcs = Vec::new(rt.alloc());
    for _ in 0..m {
        arcs.push(random_arc(random, n, longest))?;
    }
    graph_of(rt, n, &arcs)
}

// None to four sources, each of which may come again.
fn random_sources(
    rt: &impl AllocGlobal,
    random: &mut Random,
    graph: &Graph,
) -> Result<Vec<u32>, Fail> {
    let mut sources = Vec::new(rt.alloc());
    for _ in 0..random.below(5) {
        sources.push(random.up_to(graph.n()))?;
    }
    Ok(sources)
}

// Compares both on random graphs, with no limit and with a random one.
fn compare<const P: u32>(
    rt: &(impl Abort + AllocGlobal + Threads + Wait + Sync),
    seed: u64,
    graphs: u32,
    longest: u32,
) -> Result<(), Fail>
    requires layout { is_layout P ≡ true }
    requires longest { 1 ≤ longest }
{
    let mut random = Random::new(seed);
    for _ in 0..graphs {
        let graph = random_graph(rt, &mut random, longest)?;
        let sources = random_sources(rt, &mut random, &graph)?;
        let nearest = nearest_lengths(rt, &graph, &sources)?;
        let want = answer(rt, &graph, &sources, &nearest, Word::<P>::max_dist())?;
        compare_nearest::<P>(rt, &graph, &sources, None, &want);
        let limit = u64::from(random.up_to(longest)).min(Word::<P>::max_dist());
        let want = Ok(rows_within(rt, &graph, &sources, &nearest, limit)?);
        compare_nearest::<P>(rt, &graph, &sources, Some(limit), &want);
    }
    Ok(())
}

#[test]
fn short_arcs(rt: HostRuntime) -> Result<(), Fail> {
    compare::<28>(&rt, 1, 6, 3)
}

#[test]
fn middling_arcs(rt: HostRuntime) -> Result<(), Fail> {
    compare::<28>(&rt, 2, 6, 20)
}

#[test]
fn sums_that_overflow(rt: HostRuntime) -> Result<(), Fail> {
    compare::<32>(&rt, 3, 6, u32::MAX)
}
