//! The tree of one source.
ghost use Rattle.std.specs.Prelude.{◌≡◌, ◌≤◌, true, IfOk};
ghost use Rattle.sp_word.specs.Word.{is_layout, max_dist, max_pred};
ghost use Rattle.sp_paths.specs.Paths.{IsVertex};
ghost use Rattle.sp_judge.specs.Answer.{IsAnswer, ArePredsWithin, first_words};

use crate::finishing::finish;
use sp_answer::{RunRequest, Until};
use sp_graph::Graph;
use sp_word::Word;
use std::alloc::{AllocError, Global};

/// The answer for one source.
#[derive(Debug, Drop, PartialEq, Eq)]
pub enum Answer<const P: u32> {
    /// The words of the tree, that of vertex `v` at `v - 1`.
    Tree(Vec<Word<P>>),
    /// The smallest vertex whose least length is above the greatest distance of a word, although some vertex with an arc to it
    /// has a least length that is at most this distance.
    TooFar(u32),
}

// Returns the words before any arc is relaxed.
fn first_table<const P: u32>(alloc: Global, n: u32, source: u32) -> Result<Vec<Word<P>>, AllocError>
    requires layout { is_layout P ≡ true }
    requires source { IsVertex n source }
    ensures { IfOk result (λ words. words.items ≡ first_words n source) }
{
    let mut words = vec![in alloc; Word::unreached(); n as usize]?;
    words[(source - 1) as usize] = Word::pack(0, 0);
    Ok(words)
}

/// Computes the shortest-path tree from `source`, or finds the smallest vertex that is too far. It fails if there is no memory
/// for a word for each vertex.
pub fn plain_tree<const P: u32>(
    alloc: Global,
    graph: &Graph,
    source: u32,
) -> Result<Answer<P>, AllocError>
    requires layout { is_layout P ≡ true }
    requires source { IsVertex graph.now.n source }
    requires room { graph.now.n ≤ max_pred P }
    ensures answer { IfOk result (λ answer. IsAnswer graph.now source (max_dist P) answer) }
    ensures predecessors { IfOk result (λ answer. ArePredsWithin graph.now.n answer) }
{
    let mut words = first_table(alloc, graph.n(), source)?;
    let run = RunRequest {
        sources: &[source],
        until: Until::All,
    };
    match finish(graph, run, &mut words) {
        Some(vertex) => Ok(Answer::TooFar(vertex)),
        None => Ok(Answer::Tree(words)),
    }
}
