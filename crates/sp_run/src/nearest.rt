//! The nearest of several sources.
ghost use Rattle.std.specs.Prelude.{◌≡◌, ◌≤◌, true, IfOk, IfErr, IfSome};
ghost use Rattle.sp_word.specs.Word.{is_layout, max_dist, max_pred};
ghost use Rattle.sp_answer.specs.Nearest.{IsForestAnswer, IsRefusal};

use crate::run_words::words_of_run;
use sp_answer::{Forest, RunError, RunRequest, Until};
use sp_graph::Graph;
use sp_word::{Meter, Team, ThreadsAndSleep};
use std::alloc::Global;

/// A query of the nearest source: the sources, in any order, and the greatest distance to report, if not all are wanted.
#[derive(Clone, Copy)]
pub struct Nearest<'s> {
    pub sources: &'s [u32],
    pub limit: Option<u64>,
}

/// Returns the forest of shortest paths from the sources. For each vertex it has the least distance from any source, the smallest
/// vertex before it on such a walk, and its root, the source at which its chain of predecessors begins. With a limit, the forest
/// has only the vertices within it, and the run goes no farther; vertices beyond it don't matter. Without a limit, a vertex may
/// be too far for a word of `P` bits of predecessor.
///
/// The answer doesn't depend on the order of the sources, on how often one is named, on the number of threads, or on the width of
/// a bucket. If no source is named, no vertex is reached.
pub fn run_nearest<const P: u32, C: ThreadsAndSleep>(
    rt: &C,
    alloc: Global,
    graph: &Graph,
    team: Team<P>,
    sources: &[u32],
    limit: Option<u64>,
) -> Result<Forest<P>, RunError>
    requires layout { is_layout P ≡ true }
    requires n { graph.now.n ≤ max_pred P }
    requires limit { IfSome limit (λ limit. limit ≤ max_dist P) }
    ensures forest { IfOk result (IsForestAnswer P graph.now sources.now limit) }
    ensures refused { IfErr result (IsRefusal P graph.now sources.now limit) }
{
    let until = Until::up_to(limit);
    let run = RunRequest { sources, until };
    let words = words_of_run(rt, alloc, graph, team, &Meter::new(), run)?;
    words.forest(alloc, graph, sources, limit)
}
