//! One run by a team for everything that can be asked about sources.
ghost use Rattle.std.specs.Prelude.{◌≡◌, ◌≤◌, true, IfOk, IfErr};
ghost use Rattle.sp_word.specs.Word.{is_layout, max_pred};
ghost use Rattle.sp_answer.specs.Run.{IsAsked, AreRunWords, IsRunRefusal};

use crate::run::RunFromAny;
use sp_answer::{RunError, RunRequest, RunWords, are_vertices};
use sp_graph::Graph;
use sp_word::{Meter, Team, ThreadsAndSleep};
use std::alloc::Global;

/// Runs from the sources as far as `until` asks. Returns the words of all vertices, and the smallest vertex that is too far, if
/// there is one and it matters to the query. The words are those of the forest of the sources; or those of its part within a
/// limit, beyond which a word says nothing; or those of the targets, and then the words of other vertices say nothing.
///
/// The answer doesn't depend on the order of the sources, on how often one is named, on the number of threads, or on the width of
/// a bucket. The workers count the vertices that they relax on the meter.
pub fn words_of_run<const P: u32, C: ThreadsAndSleep>(
    rt: &C,
    alloc: Global,
    graph: &Graph,
    team: Team<P>,
    meter: &Meter,
    run: RunRequest,
) -> Result<RunWords<P>, RunError>
    requires layout { is_layout P ≡ true }
    requires n { graph.now.n ≤ max_pred P }
    requires asked { IsAsked P graph.now.n run.until }
    ensures words { IfOk result (λ made. AreRunWords P graph.now
        run.entry.sources.now run.entry.until made.words.items made.far) }
    ensures refused { IfErr result (IsRunRefusal graph.now run.entry.sources.now) }
{
    let RunRequest { sources, until } = run;
    if !are_vertices(graph, sources) {
        return Err(RunError::NoSuchVertex);
    }
    match RunFromAny::new(alloc, graph, sources, team, meter).relax(rt, until) {
        Ok(made) => Ok(made),
        Err(_) => Err(RunError::Memory),
    }
}
