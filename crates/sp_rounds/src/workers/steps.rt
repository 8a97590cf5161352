//! One offer, and one task.
ghost use Rattle.std.specs.Prelude.{◌≡◌, ℕ, ◌+◌, ◌-◌, ◌<◌, ◌≤◌, [], ◌∷◌, ◌++◌, true, length, vec_len, vec_capacity, All, IsTrue};
ghost use Rattle.sp_word.specs.Word.{Pair, is_layout, max_dist};
ghost use Rattle.sp_paths.specs.Paths.{IsVertex, IsArc};
ghost use Rattle.sp_offer.specs.Order.{lawful};
ghost use Rattle.sp_rounds.specs.Offers.{arcs_of, AreAllowed};
ghost use Rattle.sp_rounds.specs.Work.{did};
ghost use Rattle.sp_rounds.specs.Rounds.{IsReadyRound, HasRoom, AreArcsOfTask, IsOffer, Relaxes, RunsTask, GoesOn};

use crate::gate::{Gate, WorkerGate};
use crate::task::{Round, Task, TaskKind};
use crate::workers::{Done, Receipt};
use sp_bins::Entry;
use sp_graph::Rows;
use sp_offer::{Caller, Lawful, Lowering, OfferTable};
use sp_paths::Arc;
use sp_word::{Reply, Word};

/// Returns the arcs that a task relaxes.
pub(crate) fn task_arcs(rows: &Rows, task: Task) -> &[Arc]
    requires { IsVertex rows.now.graph.n task.vertex }
    ensures row { result.now ≡ arcs_of rows.now task }
    ensures arcs { All (IsArc rows.now.graph.n) result.now }
{
    match task.kind {
        TaskKind::Light => rows.light(task.vertex),
        TaskKind::Heavy => rows.heavy(task.vertex),
    }
}

/// Makes the offer of one arc, whose tail has this distance. There must be room for its entry.
fn make_offer<M: Lowering, L: Lawful, G: Gate, const P: u32>(
    table: &OfferTable<L, P>,
    gate: &WorkerGate<G>,
    dist: u64,
    arc: Arc,
    caller: &mut Caller,
    found: &mut Vec<Entry>,
)
    requires layout { is_layout P ≡ true }
    requires table { caller.old.table ≡ table.now.id }
    requires head { IsVertex table.now.vertices arc.head }
    requires sum { dist + arc.len ≤ max_dist P }
    requires allowed { lawful P (L.allows table.now.law) arc.head (Pair (dist + arc.len) arc.tail) }
    requires room { vec_len found.old < vec_capacity found.old }
    ensures made { IsOffer P L.allows table.now dist arc caller.old caller.new found.old found.new }
    ensures len { vec_len found.new ≤ vec_len found.old + 1 }
    ensures capacity { vec_capacity found.old ≤ vec_capacity found.new }
{
    let sum = dist + arc.len as u64;
    let word = Word::<P>::pack(sum, arc.tail);
    gate.gate.before_offer(gate.worker);
    let offered = table.offer_by::<M>(caller, arc.head, word);
    gate.gate.after_offer(gate.worker);
    match offered.reply {
        Reply::Shorter => {
            let entry = Entry {
                vertex: arc.head,
                dist: sum,
            };
            if found.push(entry).is_err() {
                unreachable!()
            }
        }
        Reply::SmallerPred | Reply::Kept => {}
    }
}

/// Makes the offers along these arcs, in their order, if the sum is within the greatest distance. There must be room
/// for an entry for each.
pub(crate) fn make_offers<M: Lowering, L: Lawful, G: Gate, const P: u32>(
    table: &OfferTable<L, P>,
    gate: &WorkerGate<G>,
    dist: u64,
    arcs: &[Arc],
    caller: &mut Caller,
    found: &mut Vec<Entry>,
)
    requires layout { is_layout P ≡ true }
    requires table { caller.old.table ≡ table.now.id }
    requires dist { dist ≤ max_dist P }
    requires arcs { All (IsArc table.now.vertices) arcs.now }
    requires allowed { AreAllowed (lawful P (L.allows table.now.law)) (max_dist P) dist arcs.now }
    requires room { vec_len found.old + length arcs.now ≤ vec_capacity found.old }
    ensures { Relaxes P L.allows table.now dist arcs.now caller.old caller.new found.old found.new }
{
    let rest = Word::<P>::max_dist() - dist;
    for arc in arcs {
        if arc.len as u64 <= rest {
            make_offer::<M, L, G, P>(table, gate, dist, *arc, caller, found);
        }
    }
}

/// Reserves room for one more receipt and for `entries` entries. Returns `false` if there is no memory.
fn take_room(done: &mut Done, entries: usize) -> bool
    ensures caller { done.new.caller ≡ done.old.caller }
    ensures claimer { done.new.claimer ≡ done.old.claimer }
    ensures receipts { done.new.receipts.items ≡ done.old.receipts.items }
    ensures found { done.new.found.items ≡ done.old.found.items }
    ensures started { done.new.started ≡ done.old.started }
    ensures receipt_fits { IsTrue result → HasRoom done.new.receipts 1 }
    ensures entries_fit { IsTrue result → HasRoom done.new.found entries }
{
    done.receipts.reserve(1).is_ok() && done.found.reserve(entries).is_ok()
}

/// Runs a task that was granted.
fn run_task<M: Lowering, L: Lawful, G: Gate, const P: u32>(
    round: &Round<L, P>,
    gate: &WorkerGate<G>,
    number: usize,
    arcs: &[Arc],
    done: &mut Done,
)
    requires number { number < length round.now.tasks.now }
    requires ready { IsReadyRound L.allows round.now }
    requires row { AreArcsOfTask round.now number arcs.now }
    requires arcs { All (IsArc round.now.rows.now.graph.n) arcs.now }
    requires table { done.old.caller.table ≡ round.now.table.now.id }
    requires receipts { vec_len done.old.receipts < vec_capacity done.old.receipts }
    requires found { vec_len done.old.found + length arcs.now ≤ vec_capacity done.old.found }
    ensures made { RunsTask L.allows round.now number done.old done.new }
    ensures receipt { (did done.new).receipts ≡ (did done.old).receipts ++ number ∷ [] }
    ensures claimer { done.new.claimer ≡ done.old.claimer }
    ensures started { done.new.started ≡ done.old.started }
{
    let task = round.tasks[number];
    make_offers::<M, L, G, P>(
        round.table,
        gate,
        task.dist,
        arcs,
        &mut done.caller,
        &mut done.found,
    );
    if done.receipts.push(Receipt { task: number }).is_err() {
        unreachable!()
    }
}

/// Runs the task if it is granted. Returns `false` if there was no memory; then nothing was done.
#[tactic(auto, using(crate::proofs::WorkerSteps::goes_refused))]
pub(crate) fn try_task<M: Lowering, L: Lawful, G: Gate, const P: u32>(
    round: &Round<L, P>,
    gate: &WorkerGate<G>,
    number: usize,
    done: &mut Done,
) -> bool
    requires number { number < length round.now.tasks.now }
    requires ready { IsReadyRound L.allows round.now }
    requires table { done.old.caller.table ≡ round.now.table.now.id }
    requires claims { done.old.claimer.table ≡ round.now.claims.now }
    ensures goes { GoesOn L.allows round.now (did done.old) (did done.new) }
    ensures started { done.new.started ≡ done.old.started }
{
    let task = round.tasks[number];
    let arcs = task_arcs(round.rows, task);
    if !take_room(done, arcs.len()) {
        return false;
    }
    match round
        .claims
        .claim(&mut done.claimer, task.vertex - 1, round.number)
    {
        Some(_grant) => {
            run_task::<M, L, G, P>(round, gate, number, arcs, done);
            true
        }
        None => true,
    }
}
