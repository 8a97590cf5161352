//! Routes to all vertices of random graphs with many ties, near their source and by a run: those that the predecessors of a whole
//! tree lead through.
ghost use Rattle.std.specs.Prelude.{◌≡◌, ◌≤◌, true};
ghost use Rattle.sp_word.specs.Word.{is_layout, max_pred};
ghost use Rattle.sp_paths.specs.Paths.{IsVertex};

use crate::near::random::random_graph;
use sp_answer::{RouteAnswer, answers_of, are_vertices};
use sp_graph::Graph;
use sp_judge::{Answer, Random, plain_tree};
use sp_serial::{ByCaller, OwnSearchPool};
use sp_word::Word;
use std::process::Abort;
use std::test::Fail;

// The word of a vertex.
fn word_of<const P: u32>(words: &[Word<P>], vertex: u32) -> Word<P>
    requires { is_layout P ≡ true }
{
    match words.get((vertex as usize).wrapping_sub(1)) {
        Some(word) => *word,
        None => Word::unreached(),
    }
}

// The vertices that the predecessors lead through, from the source to a vertex.
fn walked<const P: u32>(
    rt: &impl AllocGlobal,
    words: &[Word<P>],
    vertex: u32,
) -> Result<RouteAnswer, Fail>
    requires { is_layout P ≡ true }
{
    let Some(dist) = word_of(words, vertex).dist() else {
        return Ok(RouteAnswer::NoWalk);
    };
    let mut route = Vec::new(rt.alloc());
    let mut at = vertex;
    for _ in 0..words.len() {
        if at != 0 {
            route.push(at)?;
            at = word_of(words, at).pred().unwrap_or(0);
        }
    }
    route.reverse();
    Ok(RouteAnswer::Found { dist, route })
}

// The vertices of a tree: all of them, or those that it reaches.
fn vertices_of<const P: u32>(
    rt: &impl AllocGlobal,
    words: &[Word<P>],
    is_reached: bool,
) -> Result<Vec<u32>, Fail> {
    let mut vertices = Vec::new(rt.alloc());
    let mut vertex = 0u32;
    for word in words {
        vertex = vertex.saturating_add(1);
        if !(is_reached && word.is_unreached()) {
            vertices.push(vertex)?;
        }
    }
    Ok(vertices)
}

// Compares answers for targets with what the tree leads through.
fn compare_answers<const P: u32>(
    rt: &(impl Abort + AllocGlobal),
    words: &[Word<P>],
    targets: &[u32],
    answers: &[RouteAnswer],
) -> Result<(), Fail>
    requires { is_layout P ≡ true }
{
    assert!(rt; answers.len() == targets.len());
    for (answer, target) in answers.iter().zip(targets) {
        let want = walked(rt, words, *target)?;
        assert!(rt; *answer == want);
    }
    Ok(())
}

// Compares the routes from a source: near it to the vertices that are reached, and by a run to all.
fn compare_routes<const P: u32>(
    rt: &(impl Abort + AllocGlobal),
    pool: &OwnSearchPool<P>,
    graph: &Graph,
    source: u32,
    words: &[Word<P>],
) -> Result<(), Fail>
    requires layout { is_layout P ≡ true }
    requires n { graph.now.n ≤ max_pred P }
    requires source { IsVertex graph.now.n source }
{
    let reached = vertices_of(rt, words, true)?;
    assert!(rt; are_vertices(graph, reached.as_slice()));
    match pool.find::<RouteAnswer>(rt.alloc(), graph, source, reached.as_slice()) {
        Some(near) => compare_answers(rt, words, reached.as_slice(), near.as_slice())?,
        None => assert!(rt; false),
    }
    let all = vertices_of(rt, words, false)?;
    match answers_of::<P, RouteAnswer, ByCaller>(&ByCaller, rt.alloc(), graph, source, &all) {
        Ok(told) => compare_answers(rt, words, all.as_slice(), told.as_slice()),
        Err(_) => {
            assert!(rt; false);
            Ok(())
        }
    }
}

// Compares the routes of random graphs, each from a random source.
fn compare<const P: u32>(
    rt: &(impl Abort + AllocGlobal),
    seed: u64,
    longest: u32,
) -> Result<(), Fail>
    requires layout { is_layout P ≡ true }
    requires longest { 1 ≤ longest }
{
    let mut random = Random::new(seed);
    let pool = OwnSearchPool::<P>::new();
    for _ in 0..1500u32 {
        let graph = random_graph(rt, &mut random, longest)?;
        assert!(rt; graph.n() <= Word::<P>::max_pred());
        let source = random.up_to(graph.n());
        match plain_tree::<P>(rt.alloc(), &graph, source)? {
            Answer::Tree(words) => compare_routes(rt, &pool, &graph, source, words.as_slice())?,
            Answer::TooFar(_) => assert!(rt; false),
        }
    }
    Ok(())
}

#[test]
fn arcs_of_length_one(rt: HostRuntime) -> Result<(), Fail> {
    compare::<20>(&rt, 1, 1)
}

#[test]
fn short_arcs(rt: HostRuntime) -> Result<(), Fail> {
    compare::<28>(&rt, 2, 3)
}

#[test]
fn longer_arcs(rt: HostRuntime) -> Result<(), Fail> {
    compare::<32>(&rt, 3, 8)
}
