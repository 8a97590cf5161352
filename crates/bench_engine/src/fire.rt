//! Threads under fire: checks that teams of several sizes agree with the plain program on random graphs.
ghost use Rattle.std.specs.Prelude.{◌≡◌, ◌≤◌, true};
ghost use Rattle.sp_word.specs.Word.{is_layout, max_pred};
ghost use Rattle.sp_paths.specs.Paths.{IsVertex};

use sp_files::Tree;
use sp_graph::Graph;
use sp_judge::{Answer, GraphKind, Random, plain_tree, random_graph};
use sp_run::{RunError, run_by_team};
use sp_team::Team;
use sp_word::{Delta, Meter, Word, Workers};
use std::io;
use std::sync::Wait;
use std::thread::Threads;

const TEAMS: [u32; 5] = [1, 2, 3, 8, 64];

const KINDS: [GraphKind; 6] = [
    GraphKind::Sparse,
    GraphKind::Dense,
    GraphKind::Ties,
    GraphKind::Parallel,
    GraphKind::Parts,
    GraphKind::Long,
];

/// How many answers matched those of the plain program, and how many didn't.
#[derive(Clone, Copy)]
struct Score {
    passed: u64,
    failed: u64,
}

// Whether a run's result matches the plain program's answer.
fn is_same<const P: u32>(told: &Result<Tree<P>, RunError>, plain: &Answer<P>) -> bool {
    match (told, plain) {
        (Err(RunError::TooFar(vertex)), Answer::TooFar(far)) => vertex == far,
        (Ok(tree), Answer::Tree(words)) => {
            let mut reached = words
                .iter()
                .zip(1u32..)
                .filter(|pair| !pair.0.is_unreached());
            tree.n() as usize == words.len()
                && tree
                    .rows()
                    .iter()
                    .all(|row| reached.next() == Some((&row.1, row.0)))
                && reached.next().is_none()
        }
        _ => false,
    }
}

// A team of this many workers. Its bucket width is 1, part of the longest arc's length, about four times that length, or the
// greatest width.
fn team_of<const P: u32>(graph: &Graph, number: u32, workers: u32) -> Option<Team<P>>
    requires { is_layout P ≡ true }
{
    let longest = u64::from(graph.longest());
    let most = Word::<P>::max_dist();
    let width = match number % 5 {
        0 => 1,
        1 => longest / 20 + 1,
        2 => longest / 2 + 1,
        3 => longest * 4 + 1,
        _ => most,
    };
    Some(Team {
        delta: Delta::new(width.min(most))?,
        workers: Workers::new(workers)?,
    })
}

// Lets each team answer for one source of a graph.
fn shoot<const P: u32, R: AllocGlobal + Print + Threads + Wait + Sync>(
    rt: &R,
    graph: &Graph,
    source: u32,
    number: u32,
    score: &mut Score,
) -> io::Result<()>
    requires layout { is_layout P ≡ true }
    requires most { graph.now.n ≤ max_pred P }
    requires source { IsVertex graph.now.n source }
{
    let want = plain_tree::<P>(rt.alloc(), graph, source)?;
    for workers in TEAMS {
        let Some(team) = team_of(graph, number, workers) else {
            return Err(io::Error::other("there is no such team"));
        };
        let told = run_by_team(rt, rt.alloc(), graph, team, &Meter::new(), source);
        if is_same(&told, &want) {
            score.passed = score.passed.saturating_add(1);
        } else {
            score.failed = score.failed.saturating_add(1);
            println!(rt; "graph {number}, a team of {workers}: not the plain program's answer")?;
        }
    }
    Ok(())
}

// Tests one graph, with the kind and the layout that its number selects.
fn shoot_at<R: AllocGlobal + Print + Threads + Wait + Sync>(
    rt: &R,
    random: &mut Random,
    number: u32,
    score: &mut Score,
) -> io::Result<()> {
    let kind = KINDS[(number % 6) as usize];
    let n = random.up_to(2000);
    let graph = random_graph(rt.alloc(), random, kind, n)?;
    let source = random.up_to(n);
    match number / 6 % 4 {
        0 => shoot::<20, R>(rt, &graph, source, number, score),
        1 => shoot::<24, R>(rt, &graph, source, number, score),
        2 => shoot::<28, R>(rt, &graph, source, number, score),
        _ => shoot::<32, R>(rt, &graph, source, number, score),
    }
}

/// Lets teams of 1, 2, 3, 8 and 64 workers answer for this many random graphs of 1 to 2,000 vertices, and prints how many answers
/// matched those of the plain program.
pub fn fire<R: AllocGlobal + Print + Threads + Wait + Sync>(
    rt: &R,
    graphs: u32,
    seed: u64,
) -> io::Result<()> {
    let mut random = Random::new(seed);
    let mut score = Score {
        passed: 0,
        failed: 0,
    };
    for number in 0..graphs {
        shoot_at(rt, &mut random, number, &mut score)?;
    }
    let Score { passed, failed } = score;
    println!(rt; "{passed} passed, {failed} failed")?;
    if failed > 0 {
        return Err(io::Error::other("a team answered otherwise"));
    }
    Ok(())
}
