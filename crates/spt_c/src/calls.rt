//! A whole call for trees, from the arguments of C to the result; and limits passed by C.
ghost use Rattle.std.specs.Prelude.{◌≡◌};
ghost use Rattle.sp_lists.specs.Blocks.{slices};
ghost use Rattle.spt_c.specs.Kept.{IsToldOf};
ghost use Rattle.spt_c.specs.KeptLists.{limit_of};
ghost use Rattle.spt_c.specs.Question.{asked_by};
ghost use Rattle.spt_c.specs.Outcome.{IsTold};

use crate::arcs::{SptArc, graph_of};
use crate::refusals::refusal;
use sp_lists::{AnySearchPool, BatchOutcome, Outcome, Prepared, write_trees};
use std::alloc::Global;

/// What a call asks for: the trees from these sources in the graph of n vertices with these arcs. Delta is tested, and
/// has no other effect.
#[derive(Clone, Copy)]
pub(crate) struct TreesRequest<'a> {
    pub arcs: &'a [SptArc],
    pub n: u32,
    pub sources: &'a [u32],
    pub delta: u64,
}

/// Tests all arguments, and writes the trees of the sources.
pub(crate) fn solve(
    alloc: Global,
    question: &TreesRequest,
    dist: &mut [u64],
    pred: &mut [u32],
) -> BatchOutcome
    ensures { IsTold (asked_by question.now)
        (slices dist.old pred.old) (slices dist.new pred.new) result }
{
    let TreesRequest {
        arcs,
        n,
        sources,
        delta,
    } = *question;
    let places = dist.len().min(pred.len());
    if let Some(told) = refusal(arcs, n, sources, delta, places) {
        return BatchOutcome::none(told);
    }
    match graph_of(alloc, n, arcs) {
        Ok(graph) => {
            let prepared = Prepared {
                graph: &graph,
                pool: &AnySearchPool::new(),
            };
            write_trees(alloc, prepared, sources, dist, pred)
        }
        Err(_) => BatchOutcome::none(Outcome::Memory),
    }
}

/// Tests all arguments that come with a kept graph, and writes the trees of the sources.
pub(crate) fn solve_known(
    alloc: Global,
    prepared: Prepared,
    sources: &[u32],
    delta: u64,
    dist: &mut [u64],
    pred: &mut [u32],
) -> BatchOutcome
    ensures { IsToldOf prepared.entry.graph.now sources.now delta
        (slices dist.old pred.old) (slices dist.new pred.new) result }
{
    let places = dist.len().min(pred.len());
    if let Some(told) = refusal(&[], prepared.n(), sources, delta, places) {
        return BatchOutcome::none(told);
    }
    write_trees(alloc, prepared, sources, dist, pred)
}

/// Returns the limit passed by C. The greatest number stands for no limit.
pub(crate) fn limit_of(limit: u64) -> Option<u64>
    ensures { result ≡ limit_of limit }
{
    if limit == u64::MAX { None } else { Some(limit) }
}
