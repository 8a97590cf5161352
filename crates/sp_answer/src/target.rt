//! What is told of a target of a source.
ghost use Rattle.std.specs.Prelude.{◌≡◌, ℕ, [], ◌∷◌, IfOk};
ghost use Rattle.sp_word.specs.Word.{max_dist};
ghost use Rattle.sp_paths.specs.Paths.{Graph as Network, IsVertex};
ghost use Rattle.sp_answer.specs.Run.{AreTargetWords, IsAnswerFor};
ghost use Rattle.sp_answer.specs.Routed.{IsRouteAnswerFor};

use crate::pair::PairAnswer;
use crate::route::{RouteAnswer, route_of};
use crate::run_words::RunWords;
use sp_graph::{Graph, look_up};
use std::alloc::{AllocError, Global};

/// What is told of a target of a source: its word in the tree (`PairAnswer`), or the route to it (`RouteAnswer`). Whoever finds the
/// words of targets answers either, so that a target is searched for in one way only.
pub trait TargetAnswer<const P: u32>: Drop {
    /// This is the answer for a target of a source in a graph: the source comes first.
    ghost is_answer: { Network → ℕ → ℕ → Self → Type 0 };

    /// Reads the answer for a target off the words of a run for it, or for several targets of which it is one.
    fn of_target(
        alloc: Global,
        graph: &Graph,
        words: &RunWords<P>,
        source: u32,
        target: u32,
    ) -> Result<Self, AllocError>
        requires source { IsVertex graph.now.n source }
        requires words { AreTargetWords P graph.now source (target ∷ [])
            words.now.words.items words.now.far }
        ensures { IfOk result (is_answer graph.now source target) };
}

impl<const P: u32> TargetAnswer<P> for PairAnswer {
    ghost is_answer = { λ g s t answer. IsAnswerFor g s t (max_dist P) answer };

    fn of_target(
        _alloc: Global,
        graph: &Graph,
        words: &RunWords<P>,
        _source: u32,
        target: u32,
    ) -> Result<Self, AllocError> {
        let _ = graph.n();
        let word = look_up(words.words.as_slice(), target);
        Ok(PairAnswer::of_word(word, words.far))
    }
}

impl<const P: u32> TargetAnswer<P> for RouteAnswer {
    ghost is_answer = { λ g s t answer. IsRouteAnswerFor g s t (max_dist P) answer };

    /// It takes as many steps as the route has vertices.
    fn of_target(
        alloc: Global,
        graph: &Graph,
        words: &RunWords<P>,
        source: u32,
        target: u32,
    ) -> Result<Self, AllocError> {
        let listed = words.words.as_slice();
        match PairAnswer::of_word(look_up(listed, target), words.far) {
            PairAnswer::Found { dist, .. } => {
                let route = route_of(alloc, graph, listed, source, target)?;
                Ok(RouteAnswer::Found { dist, route })
            }
            PairAnswer::TooFar(vertex) => Ok(RouteAnswer::TooFar(vertex)),
            PairAnswer::NoWalk => Ok(RouteAnswer::NoWalk),
        }
    }
}
