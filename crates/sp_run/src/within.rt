//! Runs within a distance of one source.
ghost use Rattle.std.specs.Prelude.{◌≡◌, ◌≤◌, true, IfOk, IfErr};
ghost use Rattle.sp_word.specs.Word.{is_layout, max_dist, max_pred};
ghost use Rattle.sp_answer.specs.Within.{IsTreeWithin, IsRefusalWithin};

use crate::run_words::words_of_run;
use sp_answer::{RunError, RunRequest, Tree, Until};
use sp_graph::Graph;
use sp_word::{Meter, Team, ThreadsAndSleep};
use std::alloc::Global;

/// Returns the part of the shortest-path tree within a distance of its source: the vertices whose least length is at most the
/// limit, each with its word in the tree. The run goes no farther, so a small part of a large graph takes little time.
///
/// Vertices beyond the limit don't matter, however far they are. The answer doesn't depend on the number of threads or on the
/// width of a bucket.
pub fn run_within<const P: u32, C: ThreadsAndSleep>(
    rt: &C,
    alloc: Global,
    graph: &Graph,
    team: Team<P>,
    source: u32,
    limit: u64,
) -> Result<Tree<P>, RunError>
    requires layout { is_layout P ≡ true }
    requires n { graph.now.n ≤ max_pred P }
    requires limit { limit ≤ max_dist P }
    ensures tree { IfOk result (IsTreeWithin graph.now source limit) }
    ensures refused { IfErr result (IsRefusalWithin graph.now source) }
{
    let run = RunRequest {
        sources: &[source],
        until: Until::Limit(limit),
    };
    let words = words_of_run(rt, alloc, graph, team, &Meter::new(), run)?;
    match words.part(alloc, graph, source, limit) {
        Ok(tree) => Ok(tree),
        Err(_) => Err(RunError::Memory),
    }
}
