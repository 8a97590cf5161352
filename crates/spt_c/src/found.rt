//! One target of a source.
ghost use Rattle.std.specs.Prelude.{◌≡◌, ◌∷◌, []};
ghost use Rattle.spt_c.specs.Asked.{asked};
ghost use Rattle.spt_c.specs.Found.{found_of, IsFoundBy, IsFound};
ghost use Rattle.spt_c.specs.InUse.{found_in_use};

use crate::answers::SptAnswer;
use crate::arcs::{SptArc, graph_of};
use crate::refusals::refusal;
use sp_lists::{AnySearchPool, Cell, Outcome, Prepared, find_target};
use std::alloc::Global;

/// The result of a call for a target: a status; the target's distance and predecessor; and the index of the invalid
/// arc, or 0 for the source and 1 for the target. If a vertex is too far, `pred` is that vertex.
#[repr(C)]
#[derive(Clone, Copy, Debug, PartialEq, Eq)]
pub struct SptFound {
    pub status: u32,
    pub pred: u32,
    pub dist: u64,
    pub index: u64,
}

impl SptFound {
    /// Returns the target's cell in the form for C, or why there is none.
    pub(crate) fn of(found: Result<Cell, Outcome>) -> SptFound
        ensures { result ≡ found_of found }
    {
        match found {
            Ok(cell) => SptFound {
                status: 0,
                pred: cell.pred,
                dist: cell.dist,
                index: 0,
            },
            Err(told) => {
                let answer = SptAnswer::of(told);
                SptFound {
                    status: answer.status,
                    pred: answer.vertex,
                    dist: 0,
                    index: answer.index,
                }
            }
        }
    }

    /// Returns the result of a call for a place in use.
    pub(crate) fn in_use() -> SptFound
        ensures { result ≡ found_in_use }
    {
        SptFound {
            status: 12,
            pred: 0,
            dist: 0,
            index: 0,
        }
    }
}

/// Returns the distance and the predecessor of a target in the tree of a source. The run ends as soon as they are
/// known.
pub(crate) fn find(
    alloc: Global,
    arcs: &[SptArc],
    n: u32,
    source: u32,
    target: u32,
    delta: u64,
) -> Result<Cell, Outcome>
    ensures { IsFound n arcs.now source target delta result }
{
    let ends = [source, target];
    if let Some(told) = refusal(arcs, n, &ends, delta, usize::MAX) {
        return Err(told);
    }
    match graph_of(alloc, n, arcs) {
        Ok(graph) => {
            let made = Prepared {
                graph: &graph,
                pool: &AnySearchPool::new(),
            };
            find_target(alloc, made, source, target)
        }
        Err(_) => Err(Outcome::Memory),
    }
}

/// Tests all arguments that come with a kept graph, and finds the target in that graph.
pub(crate) fn find_known(
    alloc: Global,
    prepared: Prepared,
    source: u32,
    target: u32,
    delta: u64,
) -> Result<Cell, Outcome>
    ensures { IsFoundBy
        (asked [] prepared.entry.graph.now.n (source ∷ target ∷ []) delta)
        prepared.entry.graph.now source target result }
{
    let ends = [source, target];
    if let Some(told) = refusal(&[], prepared.n(), &ends, delta, usize::MAX) {
        return Err(told);
    }
    find_target(alloc, prepared, source, target)
}
