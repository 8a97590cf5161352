//! Checks whether slices hold a tree.
ghost use Rattle.std.specs.Prelude.{◌≤◌, ◌<◌, ℕ, length, IfSome, IfNone};
ghost use Rattle.sp_lists.specs.Blocks.{slices, HasSameAt};
ghost use Rattle.spt_c.specs.Checked.{IsFirstOther, IsChecked};

use crate::arcs::SptArc;
use crate::own::own_tree;
use crate::refusals::refusal;
use sp_lists::Outcome;
use std::alloc::Global;

// Returns the first vertex at which two lists of distances, or two of predecessors, differ.
fn first_other(
    n: u32,
    right_dist: &[u64],
    right_pred: &[u32],
    dist: &[u64],
    pred: &[u32],
) -> Option<u32>
    requires right_dist { n ≤ length right_dist.now }
    requires right_pred { n ≤ length right_pred.now }
    requires dist { n ≤ length dist.now }
    requires pred { n ≤ length pred.now }
    ensures other { IfSome result (IsFirstOther n
        (slices right_dist.now right_pred.now) (slices dist.now pred.now)) }
    ensures none { IfNone result ((k : ℕ) → k < n → HasSameAt
        (slices right_dist.now right_pred.now) (slices dist.now pred.now) k) }
{
    for place in 0..n {
        let at = place as usize;
        if right_dist[at] != dist[at] || right_pred[at] != pred[at] {
            return Some(place + 1);
        }
    }
    None
}

/// Checks whether the slices hold the tree of a source, by computing the tree again.
pub(crate) fn check(
    alloc: Global,
    arcs: &[SptArc],
    n: u32,
    source: u32,
    dist: &[u64],
    pred: &[u32],
) -> Outcome
    ensures { IsChecked n arcs.now source (slices dist.now pred.now) result }
{
    let places = dist.len().min(pred.len());
    let sources = [source];
    if let Some(told) = refusal(arcs, n, &sources, 0, places) {
        return told;
    }
    match own_tree(alloc, arcs, n, source) {
        Ok(own) => match first_other(n, own.dist.as_slice(), own.pred.as_slice(), dist, pred) {
            Some(vertex) => Outcome::Wrong(vertex),
            None => Outcome::Done,
        },
        Err(told) => told,
    }
}
