//! The tasks for which no worker has a receipt.
ghost use Rattle.std.specs.Prelude.{◌≡◌, ℕ, ◌+◌, ◌<◌, ◌≤◌, [], vec_len, false, IsTrue, replicate, slice_index_or};
ghost use Rattle.sp_rounds.specs.Work.{AllBelow, numbers_of};
ghost use Rattle.sp_rounds.specs.Left.{IsMarked};
ghost use Rattle.sp_rounds.specs.Rounds.{IsReadyRound, IsLaterIn, RunsUnmarked};

use crate::gate::{Gate, WorkerGate};
use crate::task::Round;
use crate::workers::Receipt;
use crate::workers::steps::{make_offers, task_arcs};
use sp_bins::Entry;
use sp_offer::{Caller, Lawful, Lowering};

/// Marks each task that has a receipt.
pub(crate) fn mark(marks: &mut Vec<bool>, receipts: &[Receipt])
    requires clean { marks.old.items ≡ replicate (vec_len marks.old) false }
    requires below { AllBelow (vec_len marks.old) (numbers_of receipts.now) }
    ensures { IsMarked (vec_len marks.old) (numbers_of receipts.now) marks.new.items }
{
    let mut rest = receipts;
    while let Some((first, others)) = rest.split_first() {
        marks[first.task] = true;
        rest = others;
    }
}

/// Returns whether the number has a mark. With an empty list of marks no number has one.
fn is_marked(marks: &[bool], number: usize) -> bool
    ensures { result ≡ slice_index_or marks.now number false }
{
    number < marks.len() && marks[number]
}

/// The leader runs the tasks without a mark, and claims none of them. Returns `false` if there was no memory; the tasks
/// before were run.
pub(crate) fn run_left<M: Lowering, L: Lawful, G: Gate, const P: u32>(
    round: &Round<L, P>,
    gate: &G,
    marks: &[bool],
    caller: &mut Caller,
    found: &mut Vec<Entry>,
) -> bool
    requires ready { IsReadyRound L.allows round.now }
    requires table { caller.old.table ≡ round.now.table.now.id }
    ensures later { IsLaterIn L.allows round.now caller.old caller.new }
    ensures left { IsTrue result
        → RunsUnmarked L.allows round.now marks.now caller.old caller.new found.old found.new }
{
    let gate = WorkerGate { gate, worker: 0 };
    for number in 0..round.tasks.len() {
        if is_marked(marks, number) {
            continue;
        }
        let task = round.tasks[number];
        let arcs = task_arcs(round.rows, task);
        if found.reserve(arcs.len()).is_err() {
            return false;
        }
        make_offers::<M, L, G, P>(round.table, &gate, task.dist, arcs, caller, found);
    }
    true
}
