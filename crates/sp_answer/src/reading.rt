//! What is read off the words of a run, by whichever engine.
ghost use Rattle.std.specs.Prelude.{◌≡◌, ◌≤◌, length, true, IfOk, IfErr, IfSome};
ghost use Rattle.sp_word.specs.Word.{is_layout, max_dist, max_pred};
ghost use Rattle.sp_answer.specs.Answer.{IsAnswer, IsRefusal};
ghost use Rattle.sp_answer.specs.Within.{IsTreeWithin, IsRefusalWithin};
ghost use Rattle.sp_answer.specs.Nearest.{IsForestAnswer, IsRefusal as IsForestRefusal};
ghost use Rattle.sp_answer.specs.Run.{AreAnswersBy, AreAllEnds, IsTargetsRefusal};

use crate::answer::RunError;
use crate::asked::{RunRequest, Until, are_vertices};
use crate::engine::Engine;
use crate::forest::Forest;
use crate::target::TargetAnswer;
use crate::tree::Tree;
use crate::word_tree::WordTree;
use sp_graph::Graph;
use std::alloc::Global;

/// Returns the shortest-path tree from the source, as the words of all vertices, or the vertex that is too far for a word of `P` bits
/// of predecessor.
pub fn tree_of<const P: u32, E: Engine<P>>(
    engine: &E,
    alloc: Global,
    graph: &Graph,
    source: u32,
) -> Result<WordTree<P>, RunError>
    requires engine { E.can_run engine.now }
    requires layout { is_layout P ≡ true }
    requires n { graph.now.n ≤ max_pred P }
    ensures tree { IfOk result (IsAnswer P graph.now source) }
    ensures refused { IfErr result (IsRefusal P graph.now source) }
{
    let run = RunRequest {
        sources: &[source],
        until: Until::All,
    };
    match engine.run(alloc, graph, run) {
        Ok(words) => words.tree(graph, source),
        Err(error) => Err(error),
    }
}

/// Returns the part of the shortest-path tree within a distance of its source: the vertices whose least length is at most the limit,
/// each with its word in the tree. The run goes no farther, so a small part of a large graph takes little time.
///
/// A vertex beyond the limit plays no part, however far it is.
pub fn part_of<const P: u32, E: Engine<P>>(
    engine: &E,
    alloc: Global,
    graph: &Graph,
    source: u32,
    limit: u64,
) -> Result<Tree<P>, RunError>
    requires engine { E.can_run engine.now }
    requires layout { is_layout P ≡ true }
    requires n { graph.now.n ≤ max_pred P }
    requires limit { limit ≤ max_dist P }
    ensures tree { IfOk result (IsTreeWithin graph.now source limit) }
    ensures refused { IfErr result (IsRefusalWithin graph.now source) }
{
    let run = RunRequest {
        sources: &[source],
        until: Until::Limit(limit),
    };
    let words = engine.run(alloc, graph, run)?;
    match words.part(alloc, graph, source, limit) {
        Ok(tree) => Ok(tree),
        Err(_) => Err(RunError::Memory),
    }
}

/// Returns the forest of shortest paths from the sources, up to the limit if there is one, or the vertex that is too far.
///
/// The order of the sources has no bearing on the answer, nor has how often one of them is named.
pub fn forest_of<const P: u32, E: Engine<P>>(
    engine: &E,
    alloc: Global,
    graph: &Graph,
    sources: &[u32],
    limit: Option<u64>,
) -> Result<Forest<P>, RunError>
    requires engine { E.can_run engine.now }
    requires layout { is_layout P ≡ true }
    requires n { graph.now.n ≤ max_pred P }
    requires limit { IfSome limit (λ limit. limit ≤ max_dist P) }
    ensures forest { IfOk result (IsForestAnswer P graph.now sources.now limit) }
    ensures refused { IfErr result (IsForestRefusal P graph.now sources.now limit) }
{
    let until = Until::up_to(limit);
    let words = engine.run(alloc, graph, RunRequest { sources, until })?;
    words.forest(alloc, graph, sources, limit)
}

/// Returns the answers for targets of a source, in their order. The run ends as soon as the words of all targets are final, so near
/// targets take little time.
pub fn answers_of<const P: u32, A: TargetAnswer<P>, E: Engine<P>>(
    engine: &E,
    alloc: Global,
    graph: &Graph,
    source: u32,
    targets: &[u32],
) -> Result<Vec<A>, RunError>
    requires engine { E.can_run engine.now }
    requires layout { is_layout P ≡ true }
    requires n { graph.now.n ≤ max_pred P }
    ensures ends { IfOk result (λ _. AreAllEnds graph.now.n source targets.now) }
    ensures answers { IfOk result
        (λ answers. AreAnswersBy (A.is_answer graph.now source) targets.now answers.items) }
    ensures size { IfOk result (λ answers. length answers.items ≡ length targets.now) }
    ensures refused { IfErr result (IsTargetsRefusal graph.now.n source targets.now) }
{
    if !graph.has_vertex(source) || !are_vertices(graph, targets) {
        return Err(RunError::NoSuchVertex);
    }
    if targets.is_empty() {
        return Ok(Vec::new(alloc));
    }
    let run = RunRequest {
        sources: &[source],
        until: Until::Targets(targets),
    };
    let Ok(words) = engine.run(alloc, graph, run) else {
        return Err(RunError::Memory);
    };
    match words.answers(alloc, graph, source, targets) {
        Ok(answers) => Ok(answers),
        Err(_) => Err(RunError::Memory),
    }
}
