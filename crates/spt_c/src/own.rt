//! A tree in lists that the call owns.
ghost use Rattle.std.specs.Prelude.{◌≡◌, ◌≤◌, IfOk, IfErr, All, length};
ghost use Rattle.sp_paths.specs.Paths.{IsVertex};
ghost use Rattle.sp_lists.specs.Limits.{IsCount, reach};
ghost use Rattle.sp_lists.specs.Blocks.{slices, HasTreeAt, HasNone};
ghost use Rattle.spt_c.specs.Arcs.{graph_of};
ghost use Rattle.spt_c.specs.Asked.{IsArcOf};

use crate::arcs::{SptArc, graph_of};
use sp_lists::{AnySearchPool, Outcome, Prepared, write_trees};
use std::alloc::{AllocError, Global};

/// The distances and the predecessors by vertex.
#[derive(Drop)]
pub(crate) struct OwnTree {
    pub dist: Vec<u64>,
    pub pred: Vec<u32>,
}

// Returns lists with a place for each vertex.
fn bare(alloc: Global, n: u32) -> Result<OwnTree, AllocError>
    ensures dist { IfOk result (λ own. length own.dist.items ≡ n) }
    ensures pred { IfOk result (λ own. length own.pred.items ≡ n) }
{
    let dist = vec![in alloc; 0u64; n as usize]?;
    let pred = vec![in alloc; 0u32; n as usize]?;
    Ok(OwnTree { dist, pred })
}

/// Returns the tree of a source, or why it has none.
pub(crate) fn own_tree(
    alloc: Global,
    arcs: &[SptArc],
    n: u32,
    source: u32,
) -> Result<OwnTree, Outcome>
    requires n { IsCount n }
    requires source { IsVertex n source }
    requires arcs { All (IsArcOf n) arcs.now }
    ensures dist { IfOk result (λ own. length own.dist.items ≡ n) }
    ensures pred { IfOk result (λ own. length own.pred.items ≡ n) }
    ensures tree { IfOk result (λ own. HasTreeAt (reach n) (graph_of n arcs.now) source 0
        (slices own.dist.items own.pred.items)) }
    ensures none { IfErr result (HasNone (reach n) (graph_of n arcs.now) source) }
{
    let Ok(mut own) = bare(alloc, n) else {
        return Err(Outcome::Memory);
    };
    let Ok(graph) = graph_of(alloc, n, arcs) else {
        return Err(Outcome::Memory);
    };
    let prepared = Prepared {
        graph: &graph,
        pool: &AnySearchPool::new(),
    };
    let sources = [source];
    let dist = own.dist.as_mut_slice();
    let pred = own.pred.as_mut_slice();
    match write_trees(alloc, prepared, &sources, dist, pred).told {
        Outcome::Done => Ok(own),
        told => Err(told),
    }
}
