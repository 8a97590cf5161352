//! A run from one source, by a team.
ghost use Rattle.std.specs.Prelude.{◌≡◌, ◌≤◌, true, IfOk, IfErr};
ghost use Rattle.sp_word.specs.Word.{is_layout, max_pred};
ghost use Rattle.sp_answer.specs.Answer.{IsAnswer, IsRefusal};

use crate::run_words::words_of_run;
use sp_answer::{RunError, RunRequest, Tree, Until};
use sp_graph::Graph;
use sp_word::{Delta, Meter, Team, ThreadsAndSleep, Workers};
use std::alloc::Global;
use std::thread;
use std::thread::Threads;

// A worker for fewer vertices takes longer to start than it saves.
const LEAST_VERTICES: u32 = 5000;

// Returns the number of workers that have enough to do: at most one for each processor, and one for every few thousand vertices.
fn useful_workers<R: Threads>(rt: &R, n: u32, workers: Workers) -> Workers
    ensures { result ≤ workers }
{
    let few = workers.at_most((n / LEAST_VERTICES) as usize);
    if few.get() == 1 {
        return few;
    }
    match thread::available_parallelism(rt) {
        Ok(count) => few.at_most(count.get()),
        Err(_) => few,
    }
}

/// Returns the team, with at most as many workers as are useful for a graph of `n` vertices.
pub fn useful_team<const P: u32, R: Threads>(rt: &R, n: u32, team: &Team<P>) -> Team<P>
    ensures delta { result.delta ≡ team.now.delta }
    ensures fewer { result.workers ≤ team.now.workers }
{
    Team {
        workers: useful_workers(rt, n, team.workers),
        ..*team
    }
}

/// Returns the shortest-path tree from the source, or the vertex that is too far for a word of `P` bits of predecessor.
///
/// `delta` is the width of a bucket, and `workers` the greatest number of threads, including this one. The answer doesn't depend
/// on either. There are never more threads than processors, and at most one for every few thousand vertices, but always this one.
pub fn run_source<const P: u32, C: ThreadsAndSleep>(
    rt: &C,
    alloc: Global,
    graph: &Graph,
    delta: Delta<P>,
    workers: Workers,
    source: u32,
) -> Result<Tree<P>, RunError>
    requires layout { is_layout P ≡ true }
    requires n { graph.now.n ≤ max_pred P }
    ensures tree { IfOk result (IsAnswer P graph.now source) }
    ensures refused { IfErr result (IsRefusal P graph.now source) }
{
    let team = Team {
        delta,
        workers: useful_workers(rt, graph.n(), workers),
    };
    run_by_team(rt, alloc, graph, team, &Meter::new(), source)
}

/// Does what `run_source` does, with exactly as many threads as the team has workers. They count the vertices that they relax
/// on the meter.
pub fn run_by_team<const P: u32, C: ThreadsAndSleep>(
    rt: &C,
    alloc: Global,
    graph: &Graph,
    team: Team<P>,
    meter: &Meter,
    source: u32,
) -> Result<Tree<P>, RunError>
    requires layout { is_layout P ≡ true }
    requires n { graph.now.n ≤ max_pred P }
    ensures tree { IfOk result (IsAnswer P graph.now source) }
    ensures refused { IfErr result (IsRefusal P graph.now source) }
{
    let run = RunRequest {
        sources: &[source],
        until: Until::All,
    };
    let words = words_of_run(rt, alloc, graph, team, meter, run)?;
    let tree = words.tree(graph, source)?;
    match tree.to_tree(alloc) {
        Ok(tree) => Ok(tree),
        Err(_) => Err(RunError::Memory),
    }
}
