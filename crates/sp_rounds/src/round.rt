//! Runs rounds of tasks.
ghost use Rattle.std.specs.Prelude.{◌≡◌, ℕ, ◌+◌, ◌<◌, ◌≤◌, true, false, length, vec_len, replicate, IfOk, IfErr};
ghost use Rattle.sp_word.specs.Word.{is_layout};
ghost use Rattle.sp_offer.specs.Order.{lawful};
ghost use Rattle.sp_offer.specs.Calling.{HasSameCalls};
ghost use Rattle.sp_rounds.specs.Later.{IsLater, HasLegalHistory};
ghost use Rattle.sp_rounds.specs.Work.{AreOf};
ghost use Rattle.sp_rounds.specs.Rounds.{TakesTasks, IsReadyRound, IsRoundDone, IsLaterIn, HasLegalHistoryIn, most_workers};

use crate::gate::Gate;
use crate::table::Claimer;
use crate::task::Round;
use crate::workers::stealing::{OpenDeques, TaskDeques, WorkerStart, deal, run_workers};
use crate::workers::unfinished::{mark, run_left};
use crate::workers::{Done, RoundOut, RoundRefused};
use sp_offer::{Caller, Lawful, Loop, Lowering, OfferTable};
use std::alloc::{AllocError, Global};
use std::thread::Threads;

/// Runs each task of the round once, with at most as many workers as the round has and as there are tasks. It starts
/// threads and joins them all. With one worker it starts no thread and claims nothing.
///
/// It fails only if there is no memory.
pub fn run_round<R: Threads + Sync, L: Lawful + Send + Sync, G: Gate + Sync, const P: u32>(
    rt: &R,
    alloc: Global,
    round: &Round<L, P>,
    caller: Caller,
    claimer: Claimer,
    gate: &G,
) -> Result<RoundOut, RoundRefused>
    requires layout { is_layout P ≡ true }
    requires table { round.now.table.now.vertices ≡ round.now.rows.now.graph.n }
    requires slots { round.now.rows.now.graph.n ≤ round.now.claims.now.words }
    requires caller { caller.table ≡ round.now.table.now.id }
    requires claimer { claimer.table ≡ round.now.claims.now }
    requires tasks { TakesTasks L.allows round.now }
    ensures done { IfOk result (λ o. IsRoundDone L.allows round.now caller o) }
    ensures claimer { IfOk result (λ o. o.claimer.table ≡ claimer.table) }
    ensures started { IfOk result (λ o. (1 ≤ o.started) × (o.started ≤ round.now.workers)) }
    ensures legal { IfOk result (λ o. HasLegalHistoryIn L.allows round.now o.caller) }
    ensures refused { IfErr result (λ r. IsLaterIn L.allows round.now caller r.caller) }
    ensures refused_claimer { IfErr result (λ r. r.claimer.table ≡ claimer.table) }
    ensures refused_legal { IfErr result (λ r. HasLegalHistoryIn L.allows round.now r.caller) }
{
    run_round_by::<Loop, R, L, G, P>(rt, alloc, round, caller, claimer, gate)
}

/// Runs a round like `run_round`, with offers by a lowering that the caller chooses.
pub fn run_round_by<
    M: Lowering + Send + Sync,
    R: Threads + Sync,
    L: Lawful + Send + Sync,
    G: Gate + Sync,
    const P: u32,
>(
    rt: &R,
    alloc: Global,
    round: &Round<L, P>,
    caller: Caller,
    claimer: Claimer,
    gate: &G,
) -> Result<RoundOut, RoundRefused>
    requires layout { is_layout P ≡ true }
    requires table { round.now.table.now.vertices ≡ round.now.rows.now.graph.n }
    requires slots { round.now.rows.now.graph.n ≤ round.now.claims.now.words }
    requires caller { caller.table ≡ round.now.table.now.id }
    requires claimer { claimer.table ≡ round.now.claims.now }
    requires tasks { TakesTasks L.allows round.now }
    ensures done { IfOk result (λ o. IsRoundDone L.allows round.now caller o) }
    ensures claimer { IfOk result (λ o. o.claimer.table ≡ claimer.table) }
    ensures started { IfOk result (λ o. (1 ≤ o.started) × (o.started ≤ round.now.workers)) }
    ensures legal { IfOk result (λ o. HasLegalHistoryIn L.allows round.now o.caller) }
    ensures refused { IfErr result (λ r. IsLaterIn L.allows round.now caller r.caller) }
    ensures refused_claimer { IfErr result (λ r. r.claimer.table ≡ claimer.table) }
    ensures refused_legal { IfErr result (λ r. HasLegalHistoryIn L.allows round.now r.caller) }
{
    // There is a vertex, and therefore a slot to claim.
    let _ = round.rows.n();
    let workers = round.tasks.len().min(round.workers.get() as usize);
    if workers > 1 {
        if let Ok(prepared) = prepare(alloc, round.tasks.len(), workers) {
            let tokens = Tokens { caller, claimer };
            return run_shared::<M, R, L, G, P>(rt, alloc, round, prepared, tokens, gate);
        }
    }
    run_by_leader::<M, L, G, P>(alloc, round, caller, claimer, gate)
}

/// Returns the same caller after a look at the table: its history is then known to be legal.
#[tactic(auto, using(crate::proofs::CallsInRow::later_joined, crate::proofs::CallsInRow::legal_joined))]
fn look<L: Lawful, const P: u32>(table: &OfferTable<L, P>, caller: Caller) -> Caller
    requires { caller.table ≡ table.now.id }
    ensures later { IsLater (lawful P (L.allows table.now.law)) caller result }
    ensures own { HasSameCalls caller result }
    ensures legal { HasLegalHistory (lawful P (L.allows table.now.law)) result }
{
    let Ok((caller, other)) = table.split(caller) else {
        unreachable!()
    };
    table.join(caller, other)
}

/// The leader's rights to call and to claim.
#[derive(Drop)]
struct Tokens {
    caller: Caller,
    claimer: Claimer,
}

/// What a round of several workers allocates before its first offer.
#[derive(Drop)]
struct RoundMemory {
    marks: Vec<bool>,
    deques: TaskDeques,
}

fn prepare(alloc: Global, tasks: usize, workers: usize) -> Result<RoundMemory, AllocError>
    requires { 0 < workers }
    ensures marks { IfOk result (λ p. p.marks.items ≡ replicate tasks false) }
    ensures len { IfOk result (λ p. vec_len p.marks ≡ tasks) }
    ensures owners { IfOk result (λ p. vec_len p.deques.owners ≡ workers) }
{
    let marks = vec![in alloc; false; tasks]?;
    let deques = deal(alloc, tasks, workers)?;
    Ok(RoundMemory { marks, deques })
}

/// The leader runs all tasks alone.
fn run_by_leader<M: Lowering, L: Lawful, G: Gate, const P: u32>(
    alloc: Global,
    round: &Round<L, P>,
    caller: Caller,
    claimer: Claimer,
    gate: &G,
) -> Result<RoundOut, RoundRefused>
    requires ready { IsReadyRound L.allows round.now }
    requires caller { caller.table ≡ round.now.table.now.id }
    ensures done { IfOk result (λ o. IsRoundDone L.allows round.now caller o) }
    ensures claimer { IfOk result (λ o. o.claimer ≡ claimer) }
    ensures started { IfOk result (λ o. o.started ≡ 1) }
    ensures legal { IfOk result (λ o. HasLegalHistoryIn L.allows round.now o.caller) }
    ensures refused { IfErr result (λ r. IsLaterIn L.allows round.now caller r.caller) }
    ensures refused_claimer { IfErr result (λ r. r.claimer ≡ claimer) }
    ensures refused_legal { IfErr result (λ r. HasLegalHistoryIn L.allows round.now r.caller) }
{
    let mut caller = look(round.table, caller);
    let mut found = Vec::new(alloc);
    if !run_left::<M, L, G, P>(round, gate, &[], &mut caller, &mut found) {
        return Err(RoundRefused { caller, claimer });
    }
    Ok(RoundOut {
        caller,
        claimer,
        found,
        started: 1,
    })
}

/// The workers run tasks until none are left, and then the leader runs each task that has no receipt.
fn run_shared<
    M: Lowering + Send + Sync,
    R: Threads + Sync,
    L: Lawful + Send + Sync,
    G: Gate + Sync,
    const P: u32,
>(
    rt: &R,
    alloc: Global,
    round: &Round<L, P>,
    prepared: RoundMemory,
    tokens: Tokens,
    gate: &G,
) -> Result<RoundOut, RoundRefused>
    requires ready { IsReadyRound L.allows round.now }
    requires slots { 0 < round.now.claims.now.words }
    requires tokens { AreOf round.now.table.now.id round.now.claims.now
        tokens.caller tokens.claimer }
    requires marks { prepared.marks.items ≡ replicate (length round.now.tasks.now) false }
    requires len { vec_len prepared.marks ≡ length round.now.tasks.now }
    ensures done { IfOk result (λ o. IsRoundDone L.allows round.now tokens.caller o) }
    ensures claimer { IfOk result (λ o. o.claimer.table ≡ tokens.claimer.table) }
    ensures started { IfOk result (λ o. (1 ≤ o.started) × (o.started ≤ most_workers prepared)) }
    ensures legal { IfOk result (λ o. HasLegalHistoryIn L.allows round.now o.caller) }
    ensures refused { IfErr result (λ r. IsLaterIn L.allows round.now tokens.caller r.caller) }
    ensures refused_claimer { IfErr result (λ r. r.claimer.table ≡ tokens.claimer.table) }
    ensures refused_legal { IfErr result (λ r. HasLegalHistoryIn L.allows round.now r.caller) }
{
    let RoundMemory { mut marks, deques } = prepared;
    let Tokens { caller, claimer } = tokens;
    let TaskDeques {
        mut owners,
        stealers,
    } = deques;
    let Some(own) = owners.pop() else {
        return run_by_leader::<M, L, G, P>(alloc, round, caller, claimer, gate);
    };
    let start = WorkerStart {
        worker: 0,
        own,
        caller: look(round.table, caller),
        claimer,
    };
    let open = OpenDeques {
        owners,
        stealers: stealers.as_slice(),
    };
    let done = run_workers::<R, M, L, G, P>(rt, alloc, round, gate, open, start)?;
    let Done {
        mut caller,
        mut claimer,
        receipts,
        mut found,
        started,
    } = done;
    round.claims.check(&mut claimer);
    mark(&mut marks, receipts.as_slice());
    if !run_left::<M, L, G, P>(round, gate, marks.as_slice(), &mut caller, &mut found) {
        return Err(RoundRefused { caller, claimer });
    }
    Ok(RoundOut {
        caller,
        claimer,
        found,
        started,
    })
}
