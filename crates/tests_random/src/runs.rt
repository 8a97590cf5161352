//! Runs by rounds and by a team, compared with the plain program.
ghost use Rattle.std.specs.Prelude.{◌≡◌, ◌≤◌, true};
ghost use Rattle.sp_word.specs.Word.{is_layout, max_pred};

use sp_files::Tree;
use sp_graph::Graph;
use sp_judge::Answer;
use sp_phase::{RunError, run_source_with};
use sp_rounds::OpenGate;
use sp_team::Team;
use sp_word::{Delta, Meter, Workers};
use std::process::Abort;
use std::sync::Wait;
use std::thread::Threads;

// A team with this bucket width and this many workers.
fn team<const P: u32>(rt: &impl Abort, width: u64, workers: u32) -> Team<P>
    requires { is_layout P ≡ true }
{
    let delta = Delta::new(width).expect(rt, "a width in range");
    let workers = Workers::new(workers).expect(rt, "a number of workers in range");
    Team { delta, workers }
}

/// The result of a run in which the workers share every round.
pub(crate) fn run<const P: u32>(
    rt: &(impl Abort + AllocGlobal + Threads + Wait + Sync),
    graph: &Graph,
    delta: u64,
    workers: u32,
    source: u32,
) -> Result<Tree<P>, RunError>
    requires layout { is_layout P ≡ true }
    requires n { graph.now.n ≤ max_pred P }
{
    let team = team(rt, delta, workers);
    run_source_with(
        rt,
        rt.alloc(),
        graph,
        team.delta,
        team.workers,
        source,
        &OpenGate,
    )
}

/// The same by a team that lasts for the whole run.
pub(crate) fn run_by_team<const P: u32>(
    rt: &(impl Abort + AllocGlobal + Threads + Wait + Sync),
    graph: &Graph,
    delta: u64,
    workers: u32,
    source: u32,
) -> Result<Tree<P>, RunError>
    requires layout { is_layout P ≡ true }
    requires n { graph.now.n ≤ max_pred P }
{
    let team = team(rt, delta, workers);
    sp_run::run_by_team(rt, rt.alloc(), graph, team, &Meter::new(), source)
}

/// Whether a run's result matches the plain program's answer.
pub(crate) fn same<const P: u32>(told: &Result<Tree<P>, RunError>, plain: &Answer<P>) -> bool {
    match (told, plain) {
        (Err(RunError::TooFar(vertex)), Answer::TooFar(far)) => vertex == far,
        (Ok(tree), Answer::Tree(words)) => {
            let mut reached = words
                .iter()
                .zip(1u32..)
                .filter(|pair| !pair.0.is_unreached());
            tree.n() as usize == words.len()
                && tree
                    .rows()
                    .iter()
                    .all(|row| reached.next() == Some((&row.1, row.0)))
                && reached.next().is_none()
        }
        _ => false,
    }
}
