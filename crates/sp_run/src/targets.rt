//! Runs for some targets of one source.
ghost use Rattle.std.specs.Prelude.{◌≡◌, ◌≤◌, true, IfOk, IfErr};
ghost use Rattle.sp_word.specs.Word.{is_layout, max_dist, max_pred};
ghost use Rattle.sp_answer.specs.Run.{AreAllEnds, AreAnswersFor, IsTargetsRefusal};

use crate::run_words::words_of_run;
use sp_answer::{PairAnswer, RunError, RunRequest, Until, are_vertices};
use sp_graph::Graph;
use sp_word::{Meter, Team, ThreadsAndSleep};
use std::alloc::Global;

/// A query for targets: the source, and the targets in any order.
#[derive(Clone, Copy)]
pub struct TargetsQuestion<'t> {
    pub source: u32,
    pub targets: &'t [u32],
}

/// Returns the answers for a source's targets, in the order of the targets. The run ends once the words of all targets are final,
/// so near targets take little time.
///
/// The answers don't depend on the number of threads or on the width of a bucket. The workers count the vertices that they relax
/// on the meter.
pub fn run_targets<const P: u32, C: ThreadsAndSleep>(
    rt: &C,
    alloc: Global,
    graph: &Graph,
    team: Team<P>,
    meter: &Meter,
    query: TargetsQuestion,
) -> Result<Vec<PairAnswer>, RunError>
    requires layout { is_layout P ≡ true }
    requires n { graph.now.n ≤ max_pred P }
    ensures ends { IfOk result
        (λ _. AreAllEnds graph.now.n query.entry.source query.entry.targets.now) }
    ensures answers { IfOk result (λ answers. AreAnswersFor graph.now
        query.entry.source (max_dist P) query.entry.targets.now answers.items) }
    ensures refused { IfErr result
        (IsTargetsRefusal graph.now.n query.entry.source query.entry.targets.now) }
{
    let TargetsQuestion { source, targets } = query;
    if !graph.has_vertex(source) || !are_vertices(graph, targets) {
        return Err(RunError::NoSuchVertex);
    }
    if targets.is_empty() {
        return Ok(Vec::new(alloc));
    }
    let run = RunRequest {
        sources: &[source],
        until: Until::Targets(targets),
    };
    let Ok(words) = words_of_run(rt, alloc, graph, team, meter, run) else {
        return Err(RunError::Memory);
    };
    match words.answers(alloc, graph, source, targets) {
        Ok(answers) => Ok(answers),
        Err(_) => Err(RunError::Memory),
    }
}
