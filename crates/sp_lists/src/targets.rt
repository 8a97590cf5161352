//! The answers for targets of a source.
ghost use Rattle.std.specs.Prelude.{◌≡◌, ℕ, All, IfOk};
ghost use Rattle.sp_paths.specs.Paths.{Graph as Network, IsVertex};
ghost use Rattle.sp_word.specs.Word.{max_dist};
ghost use Rattle.sp_answer.specs.Run.{IsAnswerFor, AreAnswersBy, AreAnswersFor};
ghost use Rattle.sp_lists.specs.Limits.{IsCount, pred_bits, reach};
ghost use Rattle.sp_lists.specs.Target.{IsFoundIn};
ghost use Rattle.sp_lists.specs.Routes.{AreRouteAnswers};

use crate::cells::Cell;
use crate::outcomes::Outcome;
use crate::prepared::{Prepared, PreparedLayout, by_layout, fitting};
use sp_answer::{PairAnswer, RouteAnswer, TargetAnswer};
use sp_serial::{ByCaller, answers_near};
use std::alloc::{AllocError, Global};

// Converts an answer: no distance is equal to the greatest number, which stands for no walk.
fn of_answer(answer: PairAnswer) -> Result<Cell, Outcome>
    ensures { (g : Network) (s t max : ℕ) → IsAnswerFor g s t max answer
        → IsFoundIn max g s t result }
{
    match answer {
        PairAnswer::Found { dist, pred } => Ok(Cell { dist, pred }),
        PairAnswer::TooFar(vertex) => Err(Outcome::TooFar(vertex)),
        PairAnswer::NoWalk => Ok(Cell::unreached()),
    }
}

// Returns what is told of targets, found by a search near the source or by a run.
fn told_by<const P: u32, A: TargetAnswer<P>>(
    alloc: Global,
    at: PreparedLayout<P>,
    source: u32,
    targets: &[u32],
) -> Result<Vec<A>, AllocError>
    requires bits { P ≡ pred_bits at.graph.now.n }
    requires n { IsCount at.graph.now.n }
    requires source { IsVertex at.graph.now.n source }
    requires targets { All (IsVertex at.graph.now.n) targets.now }
    ensures reach { max_dist P ≡ reach at.entry.graph.now.n }
    ensures answers { IfOk result (λ answers.
        AreAnswersBy (A.is_answer at.entry.graph.now source) targets.now answers.items) }
{
    let PreparedLayout { graph, pool } = at;
    fitting::<P>(graph);
    answers_near(&ByCaller, pool, alloc, graph, source, targets)
}

/// Returns the answers for targets of a source, in their order. The search ends as soon as they are known.
pub(crate) fn find_answers(
    alloc: Global,
    prepared: Prepared,
    source: u32,
    targets: &[u32],
) -> Result<Vec<PairAnswer>, AllocError>
    requires n { IsCount prepared.graph.now.n }
    requires source { IsVertex prepared.graph.now.n source }
    requires targets { All (IsVertex prepared.graph.now.n) targets.now }
    ensures { IfOk result (λ answers. AreAnswersFor prepared.entry.graph.now source
        (reach prepared.entry.graph.now.n) targets.now answers.items) }
{
    by_layout!(prepared, at => told_by(alloc, at, source, targets))
}

/// Returns the answers for targets of a source with their routes, in their order. The search ends as soon as they are known.
pub(crate) fn find_routes(
    alloc: Global,
    prepared: Prepared,
    source: u32,
    targets: &[u32],
) -> Result<Vec<RouteAnswer>, AllocError>
    requires n { IsCount prepared.graph.now.n }
    requires source { IsVertex prepared.graph.now.n source }
    requires targets { All (IsVertex prepared.graph.now.n) targets.now }
    ensures { IfOk result (λ answers. AreRouteAnswers (reach prepared.entry.graph.now.n)
        prepared.entry.graph.now source targets.now answers.items) }
{
    by_layout!(prepared, at => told_by(alloc, at, source, targets))
}

/// Returns the distance and the predecessor of a target in the tree of a source, or why there are none, in the layout with the
/// greatest distances that can name the vertices. The search ends as soon as they are known.
pub fn find_target(
    alloc: Global,
    prepared: Prepared,
    source: u32,
    target: u32,
) -> Result<Cell, Outcome>
    requires n { IsCount prepared.graph.now.n }
    requires source { IsVertex prepared.graph.now.n source }
    requires target { IsVertex prepared.graph.now.n target }
    ensures { IsFoundIn (reach prepared.entry.graph.now.n) prepared.entry.graph.now
        source target result }
{
    let targets = [target];
    match find_answers(alloc, prepared, source, &targets) {
        Ok(answers) => of_answer(answers[0]),
        Err(_) => Err(Outcome::Memory),
    }
}
