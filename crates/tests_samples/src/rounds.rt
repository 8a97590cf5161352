//! A bench for rounds, for tests and benchmarks: the rows of a graph, and tables that take every word.
ghost use Rattle.std.specs.Prelude.{◌≡◌, ◌≤◌, All, IsTrue};
ghost use Rattle.sp_paths.specs.Paths.{IsVertex};
ghost use Rattle.sp_word.specs.Word.{max_dist};
ghost use Rattle.sp_offer.specs.Order.{lawful};
ghost use Rattle.sp_rounds.specs.Offers.{IsTask};
ghost use base.Stored.{Coded-set};
ghost use Rattle.atomic_table.specs.Seated.{table_id_coded};

use crate::{Triple, graph_of};
use sp_graph::Rows;
use sp_offer::{AnyWord, Caller, OfferTable};
use sp_rounds::{ClaimTable, Claimer, Task};
use std::alloc::{AllocError, Global};

/// The greatest number of vertices of a bench.
pub const MOST_VERTICES: u32 = 1_000_000;

/// The greatest distance of a task.
pub const MOST_DIST: u64 = 1_000_000_000;

/// The rows of a graph, and tables over them that take every word.
#[derive(Drop)]
pub struct Bench {
    pub rows: Rows,
    pub table: OfferTable<AnyWord, 28>,
    pub claims: ClaimTable,
    pub caller: Caller,
    pub claimer: Claimer,
    pub ghost few: { rows.graph.n ≤ 1000000 },
    pub ghost words: { table.vertices ≡ rows.graph.n },
    pub ghost slots: { rows.graph.n ≤ claims.words },
    pub ghost caller_is_here: { caller.table ≡ table.id } by { Coded-set table_id_coded _ _ },
    pub ghost claimer_is_here: { claimer.table ≡ claims } by { Coded-set table_id_coded _ _ },
}

/// A bench of `n` vertices and these arcs. The arcs no longer than `delta` are light. If `n` is 0 or too large, the call fails as
/// if memory had been refused.
pub fn set_up(alloc: Global, n: u32, arcs: &[Triple], delta: u64) -> Result<Bench, AllocError> {
    if n < 1 || n > MOST_VERTICES {
        return Err(AllocError);
    }
    let graph = graph_of(alloc, n, arcs)?;
    let rows = Rows::split(alloc, &graph, delta)?;
    let (table, caller) = OfferTable::new(alloc, n, AnyWord)?;
    let (claims, claimer) = ClaimTable::new(alloc, n)?;
    Ok(Bench {
        rows,
        table,
        claims,
        caller,
        claimer,
    })
}

fn are_tasks(n: u32, tasks: &[Task]) -> bool
    ensures { IsTrue result → All (λ t. IsVertex n t.vertex × (t.dist ≤ 1000000000)) tasks.now }
{
    for task in tasks {
        if task.vertex < 1 || task.vertex > n || task.dist > MOST_DIST {
            return false;
        }
    }
    true
}

/// The tasks, or none if one of them is out of range.
#[tactic(auto, using(sp_rounds::proofs::Checks::no_tasks))]
pub fn any_tasks<'a>(rows: &Rows, tasks: &'a [Task]) -> &'a [Task]
    requires { rows.now.graph.n ≤ 1000000 }
    ensures { All (IsTask (lawful 28 (λ _ _. Unit {0})) (max_dist 28) rows.now) result.now }
{
    if are_tasks(rows.n(), tasks) {
        tasks
    } else {
        &[]
    }
}
