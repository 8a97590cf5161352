//! Runs for some targets of one source.
ghost use Rattle.std.specs.Prelude.{◌≤◌};

use super::pairs::parts;
use super::{WORKERS, crew, width};
use sp_graph::Graph;
use sp_judge::{Answer, GraphKind, Random, plain_tree, random_graph};
use sp_run::{PairAnswer, TargetsQuestion, run_targets};
use sp_word::{Meter, Team};
use std::alloc::{AllocError, Global};
use std::process::Abort;
use std::sync::Wait;
use std::test::Fail;
use std::thread::Threads;
use tests_samples::{DIAMOND, Triple, graph_of, long_path};

const DELTAS: [u64; 3] = [1, 5, 100];

// What a run is asked, and what it should tell.
#[derive(Clone, Copy)]
struct TargetsCase<'c> {
    source: u32,
    targets: &'c [u32],
    want: &'c [PairAnswer],
}

// Whether a run tells what it should.
fn tells(
    rt: &(impl Abort + AllocGlobal + Threads + Wait + Sync),
    graph: &Graph,
    delta: u64,
    workers: u32,
    case: TargetsCase<'_>,
) -> Result<bool, AllocError>
    requires { graph.now.n ≤ 10000 }
{
    let query = TargetsQuestion {
        source: case.source,
        targets: case.targets,
    };
    let team = Team {
        delta: width(rt, delta),
        workers: crew(rt, workers),
    };
    match run_targets(rt, rt.alloc(), graph, team, &Meter::new(), query) {
        Ok(answers) => Ok(answers.as_slice() == case.want),
        Err(_) => Err(AllocError),
    }
}

// Whether runs by every number of workers do.
fn crews_tell(
    rt: &(impl Abort + AllocGlobal + Threads + Wait + Sync),
    graph: &Graph,
    delta: u64,
    case: TargetsCase<'_>,
) -> Result<bool, AllocError>
    requires { graph.now.n ≤ 10000 }
{
    for workers in WORKERS {
        if !tells(rt, graph, delta, workers, case)? {
            return Ok(false);
        }
    }
    Ok(true)
}

// Whether runs on the graph of these arcs do, with several widths.
fn all_tell(
    rt: &(impl Abort + AllocGlobal + Threads + Wait + Sync),
    n: u32,
    arcs: &[Triple],
    case: TargetsCase<'_>,
) -> Result<bool, AllocError>
    requires least { 1 ≤ n }
    requires most { n ≤ 10000 }
{
    let graph = graph_of(rt.alloc(), n, arcs)?;
    for delta in DELTAS {
        if !crews_tell(rt, &graph, delta, case)? {
            return Ok(false);
        }
    }
    Ok(true)
}

fn found(dist: u64, pred: u32) -> PairAnswer {
    PairAnswer::Found { dist, pred }
}

#[test]
fn targets_of_diamond(rt: HostRuntime) -> Result<(), Fail> {
    let all = TargetsCase {
        source: 1,
        targets: &[4, 1, 3, 4],
        want: &[found(5, 2), found(0, 0), found(3, 1), found(5, 2)],
    };
    let back = TargetsCase {
        source: 4,
        targets: &[1],
        want: &[PairAnswer::NoWalk],
    };
    let none = TargetsCase {
        source: 1,
        targets: &[],
        want: &[],
    };
    assert!(rt; all_tell(&rt, 4, &DIAMOND, all)?);
    assert!(rt; all_tell(&rt, 4, &DIAMOND, back)?);
    assert!(rt; all_tell(&rt, 4, &DIAMOND, none)?);
    Ok(())
}

#[test]
fn targets_beyond_the_limit(rt: HostRuntime) -> Result<(), Fail> {
    let arcs = long_path(rt.alloc(), 15)?;
    let near = found(68_719_476_720, 16);
    let one = TargetsCase {
        source: 1,
        targets: &[17],
        want: &[near],
    };
    let both = TargetsCase {
        source: 1,
        targets: &[18, 17],
        want: &[PairAnswer::TooFar(18), near],
    };
    let back = TargetsCase {
        source: 18,
        targets: &[1, 18],
        want: &[PairAnswer::NoWalk, found(0, 0)],
    };
    assert!(rt; all_tell(&rt, 18, &arcs, one)?);
    assert!(rt; all_tell(&rt, 18, &arcs, both)?);
    assert!(rt; all_tell(&rt, 18, &arcs, back)?);
    Ok(())
}

#[test]
fn first_words_are_not_final(rt: HostRuntime) -> Result<(), Fail> {
    let case = TargetsCase {
        source: 1,
        targets: &[3],
        want: &[found(2, 2)],
    };
    assert!(rt; all_tell(&rt, 3, &[(1, 3, 10), (1, 2, 1), (2, 3, 1)], case)?);
    Ok(())
}

// What the plain program tells of a target.
fn plain_answer(answer: &Answer<28>, target: u32) -> PairAnswer {
    let words = match answer {
        Answer::TooFar(vertex) => return PairAnswer::TooFar(*vertex),
        Answer::Tree(words) => words,
    };
    let word = words.get((target as usize).wrapping_sub(1));
    match word.and_then(|word| parts(*word)) {
        Some((dist, pred)) => found(dist, pred),
        None => PairAnswer::NoWalk,
    }
}

// From 1 to 20 random targets.
fn random_vertices(alloc: Global, random: &mut Random, n: u32) -> Result<Vec<u32>, AllocError>
    requires { 1 ≤ n }
{
    let mut list = Vec::new(alloc);
    for _ in 0..random.up_to(20) {
        list.push(random.up_to(n))?;
    }
    Ok(list)
}

// What the plain program tells of these targets.
fn plain_answers(
    alloc: Global,
    answer: &Answer<28>,
    targets: &[u32],
) -> Result<Vec<PairAnswer>, AllocError> {
    let mut answers = Vec::new(alloc);
    for target in targets {
        answers.push(plain_answer(answer, *target))?;
    }
    Ok(answers)
}

// Whether runs for some targets of a random graph tell what the plain program does, by one worker and by four.
fn both_agree(
    rt: &(impl Abort + AllocGlobal + Threads + Wait + Sync),
    random: &mut Random,
    kind: GraphKind,
) -> Result<bool, AllocError> {
    let n = random.up_to(200);
    let graph = random_graph(rt.alloc(), random, kind, n)?;
    let source = random.up_to(n);
    let answer = plain_tree(rt.alloc(), &graph, source)?;
    let targets = random_vertices(rt.alloc(), random, n)?;
    let want = plain_answers(rt.alloc(), &answer, &targets)?;
    let case = TargetsCase {
        source,
        targets: &targets,
        want: &want,
    };
    let delta = graph.mean_length();
    Ok(tells(rt, &graph, delta, 1, case)? && tells(rt, &graph, delta, 4, case)?)
}

// Whether runs on many random graphs do.
fn all_agree(
    rt: &(impl Abort + AllocGlobal + Threads + Wait + Sync),
    random: &mut Random,
    kind: GraphKind,
) -> Result<bool, AllocError> {
    for _ in 0..40 {
        if !both_agree(rt, random, kind)? {
            return Ok(false);
        }
    }
    Ok(true)
}

#[test]
fn random_lists_of_targets(rt: HostRuntime) -> Result<(), Fail> {
    let mut random = Random::new(12);
    for kind in [GraphKind::Sparse, GraphKind::Ties, GraphKind::Parts] {
        assert!(rt; all_agree(&rt, &mut random, kind)?);
    }
    Ok(())
}
