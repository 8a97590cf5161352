//! Searches that take time only for the vertices that they touch.
ghost use Rattle.std.specs.Prelude.{◌≡◌, ◌≤◌, true, vec_len, All, Some, IfOk, IfSome};
ghost use Rattle.sp_word.specs.Word.{is_layout, max_dist, max_pred};
ghost use Rattle.sp_paths.specs.Paths.{IsVertex};
ghost use Rattle.sp_answer.specs.Within.{IsTreeWithin};
ghost use Rattle.sp_answer.specs.Nearest.{IsForestAnswer};
ghost use Rattle.sp_answer.specs.Run.{AreAnswersBy};
ghost use Rattle.sp_serial.specs.TrackedWords.{AreTouched, IsClear};

use crate::part::rows_in;
use crate::reach::reach;
use crate::rooted::rooted;
use crate::tracked_words::{TrackedWords, clear};
use sp_answer::{Forest, RunRequest, RunWords, TargetAnswer, Tree, Until};
use sp_graph::Graph;
use sp_word::Word;
use std::alloc::{AllocError, Global};
use std::marker::Model;
use std::mem::replace;

/// The words of all vertices of a graph, for searches that touch few of them. All words are unreached between two searches, since
/// each search resets the words that it has touched. So a search takes time only for the vertices nearer than its targets,
/// however large the graph is.
///
/// Contracts see the graph.
#[derive(Drop)]
pub struct SearchBuffers<'g, const P: u32> {
    pub(crate) alloc: Global,
    pub(crate) graph: &'g Graph,
    pub(crate) tracked: TrackedWords<P>,
}

impl<'g, const P: u32> Model for SearchBuffers<'g, P> {
    ghost use Rattle.sp_paths.specs.Paths.{Graph as Network};
    ghost use Rattle.sp_serial.specs.TrackedWords.{IsClear};

    ghost Value = { Network };

    ghost view = { λ r. r.graph.now };

    ghost invariant = { λ r. IsClear P r.graph.now r.tracked.words.items };
}

// Searches for targets from a source, when all vertices are unreached. It gives up rather than process more than `most` entries.
fn find_in<const P: u32, A: TargetAnswer<P>>(
    alloc: Global,
    graph: &Graph,
    source: u32,
    targets: &[u32],
    most: usize,
    tracked: &mut TrackedWords<P>,
) -> Result<Option<Vec<A>>, AllocError>
    requires source { IsVertex graph.now.n source }
    requires targets { All (IsVertex graph.now.n) targets.now }
    requires clear { IsClear P graph.now tracked.old.words.items }
    ensures size { vec_len tracked.new.words ≡ graph.now.n }
    ensures tracked { AreTouched 0 tracked.new.reached.items tracked.new.words.items }
    ensures answers { IfOk result (λ found. IfSome found
        (λ answers. AreAnswersBy (A.is_answer graph.now source) targets.now answers.items)) }
{
    let run = RunRequest {
        sources: &[source],
        until: Until::Targets(targets),
    };
    let _ = graph.n();
    if !reach(alloc, graph, run, most, tracked)? {
        return Ok(None);
    }
    let words = replace(&mut tracked.words, Vec::new(alloc));
    let told = RunWords { words, far: None };
    let answers = told.answers(alloc, graph, source, targets);
    let RunWords { words, .. } = told;
    tracked.words = words;
    Ok(Some(answers?))
}

impl<'g, const P: u32> SearchBuffers<'g, P> {
    /// Returns buffers for a graph, which take 8 bytes for each vertex. The call fails only if there is no memory for them.
    pub fn new(alloc: Global, graph: &'g Graph) -> Result<SearchBuffers<'g, P>, AllocError>
        requires layout { is_layout P ≡ true }
        requires n { graph.now.n ≤ max_pred P }
        ensures { IfOk result (λ room. room ≡ graph.entry.now) }
    {
        Ok(SearchBuffers {
            alloc,
            graph,
            tracked: TrackedWords {
                words: vec![in alloc; Word::unreached(); graph.n() as usize]?,
                reached: Vec::new(alloc),
                shift: 0,
            },
        })
    }

    /// Searches for targets from a source, by rising distance, until all of them have their final words. It gives up once it
    /// would relax more than about `most` vertices, or if a target isn't reached. It then returns no answer, and another run has
    /// to find it.
    ///
    /// It takes no time for vertices that it doesn't touch, and memory for those that it does. In every case the buffers are
    /// ready for the next search.
    pub fn find<A: TargetAnswer<P>>(
        &mut self,
        source: u32,
        targets: &[u32],
        most: usize,
    ) -> Result<Option<Vec<A>>, AllocError>
        requires source { IsVertex self.old.n source }
        requires targets { All (IsVertex self.old.n) targets.now }
        ensures graph { self.new ≡ self.old }
        ensures answers { IfOk result (λ found. IfSome found
            (λ answers. AreAnswersBy (A.is_answer self.old source) targets.now answers.items)) }
    {
        let graph = self.graph;
        let _ = graph.n();
        if targets.is_empty() {
            return Ok(Some(Vec::new(self.alloc)));
        }
        let found = find_in(self.alloc, graph, source, targets, most, &mut self.tracked);
        clear(&mut self.tracked);
        found
    }

    /// Searches for the part of the tree within a distance of its source, by rising distance. It gives up once it would relax
    /// more than about `most` vertices. It then returns no part, and another run has to find it.
    ///
    /// It takes time and memory only for the vertices that it touches. In every case the buffers are ready for the next search.
    pub fn part(
        &mut self,
        source: u32,
        limit: u64,
        most: usize,
    ) -> Result<Option<Tree<P>>, AllocError>
        requires source { IsVertex self.old.n source }
        requires limit { limit ≤ max_dist P }
        ensures graph { self.new ≡ self.old }
        ensures part { IfOk result (λ found. IfSome found (IsTreeWithin self.old source limit)) }
    {
        let graph = self.graph;
        let _ = graph.n();
        let part = rows_in(self.alloc, graph, &[source], limit, most, &mut self.tracked);
        clear(&mut self.tracked);
        part
    }

    /// Searches for the part of the sources' forest within a distance, as `part` does for one source. Without sources it finds
    /// none.
    pub fn forest(
        &mut self,
        sources: &[u32],
        limit: u64,
        most: usize,
    ) -> Result<Option<Forest<P>>, AllocError>
        requires sources { All (IsVertex self.old.n) sources.now }
        requires limit { limit ≤ max_dist P }
        ensures graph { self.new ≡ self.old }
        ensures forest { IfOk result (λ found.
            IfSome found (IsForestAnswer P self.old sources.now (Some limit))) }
    {
        let graph = self.graph;
        let _ = graph.n();
        if sources.is_empty() {
            return Ok(None);
        }
        let rows = rows_in(self.alloc, graph, sources, limit, most, &mut self.tracked);
        clear(&mut self.tracked);
        let Some(part) = rows? else {
            return Ok(None);
        };
        rooted(self.alloc, &part)
    }
}
