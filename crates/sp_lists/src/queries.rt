//! What is asked about a graph, and what may be wrong with the question.
ghost use Rattle.std.specs.Prelude.{◌↔◌, ◌++◌, IsTrue, IfSome, IfNone, All};
ghost use Rattle.sp_paths.specs.Paths.{IsVertex};
ghost use Rattle.sp_lists.specs.Limits.{IsCount, IsFirstWithout};
ghost use Rattle.sp_lists.specs.Query.{query_of, IsLimit, IsGoodQuery, IsRefusedQuery};

use crate::limits::{first_non_vertex, fits, is_count, reach};
use crate::outcomes::Outcome;

/// What is asked: the sources and targets, the delta, which is only checked, the limit if there is one, and the number of rows
/// that are written and the number of places in each.
#[derive(Clone, Copy)]
pub(crate) struct Query<'a> {
    pub sources: &'a [u32],
    pub targets: &'a [u32],
    pub delta: u64,
    pub limit: Option<u64>,
    pub rows: usize,
    pub columns: usize,
}

// Returns whether the limit, if there is one, is at most the greatest distance.
fn is_limit(n: u32, limit: Option<u64>) -> bool
    requires { IsCount n }
    ensures { IsTrue result ↔ IsLimit n limit }
{
    match limit {
        Some(limit) => limit <= reach(n),
        None => true,
    }
}

impl Query<'_> {
    // Returns the index of the first number that is no vertex, in the list of the sources followed by the targets.
    fn first_none(&self, n: u32) -> Option<usize>
        ensures first { IfSome result
            (IsFirstWithout (IsVertex n) (self.now.sources.now ++ self.now.targets.now)) }
        ensures none { IfNone result
            (All (IsVertex n) (self.now.sources.now ++ self.now.targets.now)) }
    {
        if let Some(place) = first_non_vertex(n, self.sources) {
            return Some(place);
        }
        let place = first_non_vertex(n, self.targets)?;
        Some(self.sources.len() + place)
    }

    /// Returns the first of the size, the delta, the limit, the sources and the targets that is wrong, if any is, in a graph
    /// of `n` vertices. Each list that is written has `places` places.
    pub(crate) fn refusal(&self, n: u32, places: usize) -> Option<Outcome>
        ensures refused { IfSome result (IsRefusedQuery n (query_of self.now) places) }
        ensures good { IfNone result (IsGoodQuery n (query_of self.now) places) }
    {
        if !is_count(n) || !fits(self.rows, self.columns, places) {
            return Some(Outcome::BadSize);
        }
        if self.delta > reach(n) {
            return Some(Outcome::BadDelta);
        }
        if !is_limit(n, self.limit) {
            return Some(Outcome::BadLimit);
        }
        let place = self.first_none(n)?;
        Some(Outcome::NoSuchVertex(place))
    }
}
