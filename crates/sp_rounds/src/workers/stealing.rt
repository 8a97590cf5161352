//! Workers that steal tasks from one another.
//!
//! What a deque returns is a hint: the contracts only know that it is a number. The claim decides which worker runs a
//! task.
ghost use Rattle.std.specs.Prelude.{◌≡◌, ℕ, ◌+◌, ◌<◌, ◌≤◌, length, vec_len, IfOk};
ghost use Rattle.sp_offer.specs.Calling.{IsBeside};
ghost use Rattle.sp_rounds.specs.Work.{did, at_start, AreOf, HasNoGrants};
ghost use Rattle.sp_rounds.specs.Rounds.{jobs_at, IsReadyRound, GoesOn, AreShared, CanWork, OneGives, AllGive, AllGiveIn};

use crate::gate::{Gate, WorkerGate};
use crate::table::{ClaimTable, Claimer};
use crate::task::Round;
use crate::workers::Done;
use crate::workers::merge::{Worked, merge};
use crate::workers::steps::try_task;
use crossbeam_deque::{Stealer, Worker};
use sp_offer::{Caller, Lawful, Lowering, OfferTable};
use sp_team::steal;
use sp_word::Workers;
use std::alloc::{AllocError, Global};
use std::thread::{Threads, join};

/// The deques of a round: the workers' own, with the leader's last, and a thief's handle of each.
#[derive(Drop)]
pub(crate) struct TaskDeques {
    pub owners: Vec<Worker<usize>>,
    pub stealers: Vec<Stealer<usize>>,
}

/// The deques of the workers that haven't started, and a thief's handle of every deque.
#[derive(Drop)]
pub(crate) struct OpenDeques<'a> {
    pub owners: Vec<Worker<usize>>,
    pub stealers: &'a [Stealer<usize>],
}

/// What a worker starts with: its number, its own deque, its caller and its claimer.
#[derive(Drop)]
pub(crate) struct WorkerStart {
    pub worker: u32,
    pub own: Worker<usize>,
    pub caller: Caller,
    pub claimer: Claimer,
}

/// Deals task `k` to worker `k` modulo `workers`, in FIFO order. A task for which a deque has no memory is left to the
/// leader.
pub(crate) fn deal(alloc: Global, tasks: usize, workers: usize) -> Result<TaskDeques, AllocError>
    requires { 0 < workers }
    ensures { IfOk result (λ d. vec_len d.owners ≡ workers) }
{
    let share = tasks.div_ceil(workers);
    let mut owners = Vec::with_capacity(alloc, workers)?;
    let mut stealers = Vec::with_capacity(alloc, workers)?;
    for dealt in 0..workers {
        let worker = workers - 1 - dealt;
        let mut own = Worker::new_fifo(alloc, share)?;
        stealers.push(own.stealer()?)?;
        for number in (worker..tasks).step_by(workers) {
            let _ = own.push(number);
        }
        owners.push(own)?;
    }
    Ok(TaskDeques { owners, stealers })
}

/// Returns a task from the worker's own deque, or else one of another worker, after one pass over all deques.
fn next_task(own: &mut Worker<usize>, stealers: &[Stealer<usize>]) -> Option<usize> {
    if let Some(number) = own.pop() {
        return Some(number);
    }
    steal(stealers)
}

/// Tries a task like `try_task`, for a number that a deque returned.
fn try_number<M: Lowering, L: Lawful, G: Gate, const P: u32>(
    round: &Round<L, P>,
    gate: &WorkerGate<G>,
    number: usize,
    done: &mut Done,
) -> bool
    requires ready { IsReadyRound L.allows round.now }
    requires table { done.old.caller.table ≡ round.now.table.now.id }
    requires claims { done.old.claimer.table ≡ round.now.claims.now }
    ensures goes { GoesOn L.allows round.now (did done.old) (did done.new) }
    ensures started { done.new.started ≡ done.old.started }
{
    if number >= round.tasks.len() {
        return true;
    }
    try_task::<M, L, G, P>(round, gate, number, done)
}

/// Runs one worker. It ends when a pass found no task, when there is no memory, or after as many tasks as the round
/// has.
fn run_worker<M: Lowering, L: Lawful, G: Gate, const P: u32>(
    alloc: Global,
    round: &Round<L, P>,
    gate: &G,
    stealers: &[Stealer<usize>],
    start: WorkerStart,
) -> Done
    requires ready { IsReadyRound L.allows round.now }
    requires tokens { AreOf round.now.table.now.id round.now.claims.now start.caller start.claimer }
    ensures goes { GoesOn L.allows round.now (at_start start.caller start.claimer) (did result) }
    ensures started { result.started ≡ 1 }
{
    let WorkerStart {
        worker,
        mut own,
        caller,
        claimer,
    } = start;
    let mut done = Done {
        caller,
        claimer,
        receipts: Vec::new(alloc),
        found: Vec::new(alloc),
        started: 1,
    };
    let gate = WorkerGate { gate, worker };
    for _ in 0..round.tasks.len() {
        let Some(number) = next_task(&mut own, stealers) else {
            return done;
        };
        if !try_number::<M, L, G, P>(round, &gate, number, &mut done) {
            return done;
        }
    }
    done
}

/// Splits what a worker starts with in two: the second is the next worker's, with this deque.
fn split_start<L: Lawful, const P: u32>(
    table: &OfferTable<L, P>,
    claims: &ClaimTable,
    start: WorkerStart,
    own: Worker<usize>,
) -> (WorkerStart, WorkerStart)
    requires slots { 0 < claims.now.words }
    requires tokens { AreOf table.now.id claims.now start.caller start.claimer }
    ensures first { (result.0.caller ≡ start.caller) × (result.0.claimer ≡ start.claimer) }
    ensures caller { IsBeside start.caller result.1.caller }
    ensures claimer { HasNoGrants start.claimer.table result.1.claimer }
{
    let Ok((caller, other_caller)) = table.split(start.caller) else {
        unreachable!()
    };
    let Ok((claimer, other_claimer)) = claims.split(start.claimer) else {
        unreachable!()
    };
    let first = WorkerStart {
        worker: start.worker,
        own: start.own,
        caller,
        claimer,
    };
    let second = WorkerStart {
        worker: first.worker.saturating_add(1),
        own,
        caller: other_caller,
        claimer: other_claimer,
    };
    (first, second)
}

/// Runs one worker on this thread, and the workers of the other deques on threads that it starts. A closure that
/// borrows a whole `Round` gets no contract, so each closure takes the parts of the round and puts them together.
#[cycle(workers)]
pub(crate) fn run_workers<
    R: Threads + Sync,
    M: Lowering + Send + Sync,
    L: Lawful + Send + Sync,
    G: Gate + Sync,
    const P: u32,
>(
    rt: &R,
    alloc: Global,
    round: &Round<L, P>,
    gate: &G,
    deques: OpenDeques,
    start: WorkerStart,
) -> Worked
    requires ready { IsReadyRound L.allows round.now }
    requires slots { 0 < round.now.claims.now.words }
    requires tokens { AreOf round.now.table.now.id round.now.claims.now start.caller start.claimer }
    ensures { AllGiveIn L.allows round.now deques.entry.owners start result }
{
    let OpenDeques {
        mut owners,
        stealers,
    } = deques;
    let Some(own) = owners.pop() else {
        return Ok(run_worker::<M, L, G, P>(alloc, round, gate, stealers, start));
    };
    let table = round.table;
    let claims = round.claims;
    let rows = round.rows;
    let tasks = round.tasks;
    let number = round.number;
    let workers = round.workers;
    let (first, second) = split_start(table, claims, start, own);
    let theirs = move || -> Worked
        requires { AreShared R.row G.row M.row L.row × (0 < claims.now.words)
            × CanWork P L.allows table.now claims.now rows.now tasks.now second }
        ensures { let jobs = jobs_at P rows.entry.now tasks.entry.now in
            AllGive P L.allows table.entry.now jobs number owners second result }
    {
        let round = Round {
            table,
            claims,
            rows,
            tasks,
            number,
            workers,
        };
        let deques = OpenDeques { owners, stealers };
        run_workers::<R, M, L, G, P>(rt, alloc, &round, gate, deques, second)
    };
    let mine = move || -> Worked
        requires { CanWork P L.allows table.now claims.now rows.now tasks.now first }
        ensures { let jobs = jobs_at P rows.entry.now tasks.entry.now in
            OneGives P L.allows table.entry.now jobs number first result }
    {
        let round = Round {
            table,
            claims,
            rows,
            tasks,
            number,
            workers,
        };
        Ok(run_worker::<M, L, G, P>(alloc, &round, gate, stealers, first))
    };
    let (later, sooner) = join(rt, theirs, mine);
    merge(table, claims, sooner, later)
}
