//! What is asked of the neighbourhood of a source: a search looks for it first, at the cost of what it touches. Where it has no
//! answer, an engine makes a run.
ghost use Rattle.std.specs.Prelude.{◌≡◌, ◌≤◌, length, true, All, IfOk, IfErr, IfSome};
ghost use Rattle.sp_word.specs.Word.{is_layout, max_dist, max_pred};
ghost use Rattle.sp_paths.specs.Paths.{IsVertex};
ghost use Rattle.sp_answer.specs.Within.{IsTreeWithin};
ghost use Rattle.sp_answer.specs.Nearest.{IsForestAnswer, IsRefusal};
ghost use Rattle.sp_answer.specs.Run.{AreAnswersBy};

use crate::search_pool::SearchPoolOn;
use crate::shelf::Shelf;
use sp_answer::{Engine, Forest, RunError, TargetAnswer, Tree, answers_of, forest_of, part_of};
use sp_graph::Graph;
use std::alloc::{AllocError, Global};

/// Finds the part of the tree of a source within a limit: as a search has found it, or else by a run.
pub fn part_near<const P: u32, E: Engine<P>, S: Shelf<P>>(
    engine: &E,
    pool: &SearchPoolOn<S, P>,
    alloc: Global,
    graph: &Graph,
    source: u32,
    limit: u64,
) -> Result<Tree<P>, AllocError>
    requires engine { E.can_run engine.now }
    requires layout { is_layout P ≡ true }
    requires n { graph.now.n ≤ max_pred P }
    requires source { IsVertex graph.now.n source }
    requires limit { limit ≤ max_dist P }
    ensures { IfOk result (IsTreeWithin graph.now source limit) }
{
    if let Some(tree) = pool.part(alloc, graph, source, limit) {
        return Ok(tree);
    }
    match part_of::<P, E>(engine, alloc, graph, source, limit) {
        Ok(tree) => Ok(tree),
        Err(_) => Err(AllocError),
    }
}

/// Finds the answers for targets of a source, in their order: near the source, by a search; or else by a run.
pub fn answers_near<const P: u32, A: TargetAnswer<P>, E: Engine<P>, S: Shelf<P>>(
    engine: &E,
    pool: &SearchPoolOn<S, P>,
    alloc: Global,
    graph: &Graph,
    source: u32,
    targets: &[u32],
) -> Result<Vec<A>, AllocError>
    requires engine { E.can_run engine.now }
    requires layout { is_layout P ≡ true }
    requires n { graph.now.n ≤ max_pred P }
    requires source { IsVertex graph.now.n source }
    requires targets { All (IsVertex graph.now.n) targets.now }
    ensures answers { IfOk result
        (λ answers. AreAnswersBy (A.is_answer graph.now source) targets.now answers.items) }
    ensures size { IfOk result (λ answers. length answers.items ≡ length targets.now) }
{
    if let Some(answers) = pool.find(alloc, graph, source, targets) {
        return Ok(answers);
    }
    match answers_of::<P, A, E>(engine, alloc, graph, source, targets) {
        Ok(answers) => Ok(answers),
        Err(_) => Err(AllocError),
    }
}

/// Finds the forest of the sources, up to the limit if there is one, or the vertex that is too far: a small part as a search
/// has found it, and any other forest by a run.
pub fn forest_near<const P: u32, E: Engine<P>, S: Shelf<P>>(
    engine: &E,
    pool: &SearchPoolOn<S, P>,
    alloc: Global,
    graph: &Graph,
    sources: &[u32],
    limit: Option<u64>,
) -> Result<Forest<P>, RunError>
    requires engine { E.can_run engine.now }
    requires layout { is_layout P ≡ true }
    requires n { graph.now.n ≤ max_pred P }
    requires sources { All (IsVertex graph.now.n) sources.now }
    requires limit { IfSome limit (λ limit. limit ≤ max_dist P) }
    ensures forest { IfOk result (IsForestAnswer P graph.now sources.now limit) }
    ensures refused { IfErr result (IsRefusal P graph.now sources.now limit) }
{
    if let Some(within) = limit {
        if let Some(forest) = pool.forest(alloc, graph, sources, within) {
            return Ok(forest);
        }
    }
    forest_of::<P, E>(engine, alloc, graph, sources, limit)
}
