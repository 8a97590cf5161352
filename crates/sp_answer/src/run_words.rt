//! The answer of a run, and what it contains: the forest; for one source its tree, a part of it, or the answers for
//! targets.
ghost use Rattle.std.specs.Prelude.{◌≡◌, ◌≤◌, true, length, map, All, IfOk, IfErr, IfSome};
ghost use Rattle.sp_word.specs.Word.{is_layout, max_dist, max_pred};
ghost use Rattle.sp_paths.specs.Paths.{IsVertex, word_at};
ghost use Rattle.sp_answer.specs.Answer.{IsAnswer, IsRefusal};
ghost use Rattle.sp_answer.specs.Within.{IsTreeWithin, up_to};
ghost use Rattle.sp_answer.specs.Nearest.{IsForestAnswer, IsRefusal as IsForestRefusal};
ghost use Rattle.sp_answer.specs.Run.{AreForestWords, AreWholeWords, ArePartWords, AreTargetWords, AreAnswersBy, IsUpTo, words_within};

use crate::answer::RunError;
use crate::forest::Forest;
use crate::target::TargetAnswer;
use crate::tree::Tree;
use crate::within::words_within;
use crate::word_tree::WordTree;
use sp_graph::{Graph, look_up};
use sp_word::Word;
use std::alloc::{AllocError, Global};

/// The answer of a run: the word of each vertex, as far as was asked, and the smallest vertex that is too far, if there is one
/// that bears on what was asked. A word beyond the limit of a run means nothing.
#[derive(Drop)]
pub struct RunWords<const P: u32> {
    pub words: Vec<Word<P>>,
    pub far: Option<u32>,
}

/// Returns the distance of the farthest target, if each of them has one.
pub fn farthest<const P: u32>(words: &[Word<P>], targets: &[u32]) -> Option<u64>
    requires { All (IsVertex (length words.now)) targets.now }
    ensures { IfSome result (λ far. All (λ t. IsUpTo far (word_at words.now t)) targets.now) }
{
    let mut far = 0;
    for target in targets {
        far = look_up(words, *target).dist()?.max(far);
    }
    Some(far)
}

impl<const P: u32> RunWords<P> {
    /// Returns the tree from the source, after a whole run, or the vertex that is too far.
    pub fn tree(self, graph: &Graph, source: u32) -> Result<WordTree<P>, RunError>
        requires layout { is_layout P ≡ true }
        requires n { graph.now.n ≤ max_pred P }
        requires words { AreWholeWords P graph.now source self.words.items self.far }
        ensures tree { IfOk result (IsAnswer P graph.now source) }
        ensures refused { IfErr result (IsRefusal P graph.now source) }
    {
        let _ = graph.n();
        let RunWords { words, far } = self;
        match far {
            Some(vertex) => Err(RunError::TooFar(vertex)),
            None => Ok(WordTree::of_words(source, words)),
        }
    }

    /// Returns the rows within the limit, after a run from one source up to this limit.
    pub fn part(
        &self,
        alloc: Global,
        graph: &Graph,
        source: u32,
        limit: u64,
    ) -> Result<Tree<P>, AllocError>
        requires layout { is_layout P ≡ true }
        requires n { graph.now.n ≤ max_pred P }
        requires words { ArePartWords P graph.now source limit self.now.words.items self.now.far }
        ensures { IfOk result (IsTreeWithin graph.now source limit) }
    {
        let _ = graph.n();
        let tree = Tree::of_words_within(alloc, source, self.words.as_slice(), limit)?;
        Ok(tree)
    }

    /// Returns the forest, after a run up to the limit if there is one, or the vertex that is too far.
    pub fn forest(
        self,
        alloc: Global,
        graph: &Graph,
        sources: &[u32],
        limit: Option<u64>,
    ) -> Result<Forest<P>, RunError>
        requires layout { is_layout P ≡ true }
        requires n { graph.now.n ≤ max_pred P }
        requires words { AreForestWords P graph.now sources.now limit self.words.items self.far }
        ensures forest { IfOk result (IsForestAnswer P graph.now sources.now limit) }
        ensures refused { IfErr result (IsForestRefusal P graph.now sources.now limit) }
    {
        let _ = graph.n();
        let RunWords { words, far } = self;
        let words = words_within(words, limit);
        match far {
            Some(beyond) => Err(RunError::TooFar(beyond)),
            None => match Forest::of_words(alloc, words.as_slice()) {
                Ok(forest) => Ok(forest),
                Err(_) => Err(RunError::Memory),
            },
        }
    }

    /// Returns the answers for the targets of a source, in the order of the targets.
    pub fn answers<A: TargetAnswer<P>>(
        &self,
        alloc: Global,
        graph: &Graph,
        source: u32,
        targets: &[u32],
    ) -> Result<Vec<A>, AllocError>
        requires source { IsVertex graph.now.n source }
        requires words { AreTargetWords P graph.now source targets.now
            self.now.words.items self.now.far }
        ensures { IfOk result (λ answers.
            AreAnswersBy (A.is_answer graph.now source) targets.now answers.items) }
    {
        let mut answers = Vec::with_capacity(alloc, targets.len())?;
        for target in targets {
            answers.push(A::of_target(alloc, graph, self, source, *target)?)?;
        }
        Ok(answers)
    }
}
