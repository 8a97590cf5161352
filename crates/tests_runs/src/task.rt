//! Rounds on threads.
ghost use Rattle.std.specs.Prelude.{◌≡◌, ℕ, ◌<◌, ◌≤◌, length, All, IfOk, IfErr, IsTrue};

use crate::phase::crew;
use gates::{Count, Thief, WorkersMeet};
use sp_graph::Rows;
use sp_offer::{AnyWord, Loop, Lowering, OneMin};
use sp_paths::Arc;
use sp_rounds::{
    Entry, Gate, OpenGate, Round, RoundOut, RoundRefused, Task, TaskKind, run_round, run_round_by,
};
use sp_word::{Word, Workers};
use std::alloc::{AllocError, Global};
use std::sync::Wait;
use std::sync::atomic::{AtomicBool, AtomicU64, Ordering};
use std::test::Fail;
use std::thread::Threads;
use tests_samples::{Bench, DIAMOND, MOST_DIST, MOST_VERTICES, Triple, any_tasks, set_up};

mod gates;

/// What a round found, in the order of the vertices, and how many workers ran.
#[derive(Drop)]
struct Played {
    bench: Bench,
    found: Vec<Entry>,
    started: u32,
    refused: bool,
}

/// A round to play: its tasks, its number, and the number of its workers.
#[derive(Clone, Copy)]
struct RoundPlan<'t> {
    tasks: &'t [Task],
    number: u64,
    workers: Workers,
}

/// Plays one round. Its contract promises only that a bench comes back.
fn play<M: Lowering + Send + Sync, R: Threads + Wait + Sync, G: Gate + Sync>(
    rt: &R,
    alloc: Global,
    bench: Bench,
    plan: &RoundPlan<'_>,
    gate: &G,
) -> Played {
    let Bench {
        rows,
        table,
        claims,
        caller,
        claimer,
    } = bench;
    let round = Round {
        table: &table,
        claims: &claims,
        rows: &rows,
        tasks: any_tasks(&rows, plan.tasks),
        number: plan.number,
        workers: plan.workers,
    };
    let (caller, claimer, found, started, refused) = match run_round_by::<M, R, AnyWord, G, 28>(
        rt, alloc, &round, caller, claimer, gate,
    ) {
        Ok(out) => {
            let RoundOut {
                caller,
                claimer,
                found,
                started,
            } = out;
            (caller, claimer, found, started, false)
        }
        Err(refusal) => {
            let RoundRefused { caller, claimer } = refusal;
            (caller, claimer, Vec::new(alloc), 0, true)
        }
    };
    let bench = Bench {
        rows,
        table,
        claims,
        caller,
        claimer,
    };
    Played {
        bench,
        found,
        started,
        refused,
    }
}

/// Makes an offer as the leader, if the vertex and the distance are in range.
fn offer(bench: &mut Bench, vertex: u32, dist: u64, pred: u32) {
    let n = bench.rows.n();
    if vertex < 1 || vertex > n || dist > MOST_DIST || pred > MOST_VERTICES {
        return;
    }
    let _ = bench
        .table
        .offer(&mut bench.caller, vertex, Word::pack(dist, pred));
}

/// A bench in which the leader has made these offers, by vertex, distance and predecessor.
fn opened(
    alloc: Global,
    n: u32,
    arcs: &[Triple],
    delta: u64,
    offers: &[(u32, u64, u32)],
) -> Result<Bench, AllocError> {
    let mut bench = set_up(alloc, n, arcs, delta)?;
    for (vertex, dist, pred) in offers {
        offer(&mut bench, *vertex, *dist, *pred);
    }
    Ok(bench)
}

/// The bits of all words, in ascending order of vertices.
fn words(alloc: Global, bench: &mut Bench) -> Result<Vec<u64>, AllocError> {
    let n = bench.rows.n();
    let mut words = Vec::new(alloc);
    for place in 0..n {
        let vertex = place + 1;
        if vertex > bench.rows.n() {
            break;
        }
        let word = bench.table.read(&mut bench.caller, vertex);
        words.push(word.bits())?;
    }
    Ok(words)
}

/// Makes the offers of these tasks without a round, by one caller, in order.
fn offer_in_order(bench: &mut Bench, tasks: &[Task]) {
    for task in tasks {
        let n = bench.rows.n();
        if task.vertex < 1 || task.vertex > n || task.dist > MOST_DIST {
            return;
        }
        for number in 0..bench.rows.light(task.vertex).len() {
            if let Some(arc) = arc_at(&bench.rows, *task, number) {
                offer(bench, arc.head, task.dist + arc.len as u64, arc.tail);
            }
        }
    }
}

// An arc of the task's row, if the row has one at that index.
fn arc_at(rows: &Rows, task: Task, number: usize) -> Option<Arc> {
    if task.vertex < 1 || task.vertex > rows.n() {
        return None;
    }
    rows.light(task.vertex).get(number).copied()
}

fn light(vertex: u32, dist: u64) -> Task {
    Task {
        vertex,
        dist,
        kind: TaskKind::Light,
    }
}

fn entry(vertex: u32, dist: u64) -> Entry {
    Entry { vertex, dist }
}

/// Whether these are the entries, in any order: each is there, and the numbers are equal.
fn are_entries(found: &[Entry], wanted: &[Entry]) -> bool {
    for entry in wanted {
        if !found.contains(entry) {
            return false;
        }
    }
    found.len() == wanted.len()
}

// Two arcs from vertex 1, and one from the head of each.
const TWO_ARMS: [Triple; 4] = [(1, 2, 1), (1, 3, 1), (2, 4, 1), (3, 5, 1)];

// The offers made there before a round.
const OFFERS: [(u32, u64, u32); 3] = [(1, 0, 0), (2, 1, 1), (3, 1, 1)];

#[test]
fn two_workers_meet(rt: HostRuntime) -> Result<(), Fail> {
    let alloc = rt.alloc();
    let bench = opened(alloc, 5, &TWO_ARMS, 1, &OFFERS)?;
    let gate = WorkersMeet::new();
    let plan = RoundPlan {
        tasks: &[light(2, 1), light(3, 1)],
        number: 1,
        workers: crew(&rt, 2),
    };
    let played = play::<Loop, HostRuntime, WorkersMeet>(&rt, alloc, bench, &plan, &gate);
    assert!(rt; !played.refused, "no memory");
    assert!(rt; gate.met(), "the workers did not meet");
    assert!(rt; played.started == 2);
    assert!(rt; are_entries(&played.found, &[entry(4, 2), entry(5, 2)]));
    Ok(())
}

#[test]
fn thief_takes(rt: HostRuntime) -> Result<(), Fail> {
    let alloc = rt.alloc();
    let arcs = [
        (1, 2, 1),
        (1, 3, 1),
        (1, 4, 1),
        (2, 5, 1),
        (3, 6, 1),
        (4, 7, 1),
    ];
    let offers = [(1, 0, 0), (2, 1, 1), (3, 1, 1), (4, 1, 1)];
    let bench = opened(alloc, 7, &arcs, 1, &offers)?;
    let gate = Thief::new();
    let plan = RoundPlan {
        tasks: &[light(2, 1), light(3, 1), light(4, 1)],
        number: 1,
        workers: crew(&rt, 2),
    };
    let played = play::<Loop, HostRuntime, Thief>(&rt, alloc, bench, &plan, &gate);
    assert!(rt; !played.refused, "no memory");
    assert!(rt; gate.came() >= 2, "no task was taken from the leader");
    assert!(rt; are_entries(&played.found, &[entry(5, 2), entry(6, 2), entry(7, 2)]));
    Ok(())
}

/// Plays a round twice. In the second every claim is refused, so that the leader makes all offers. Returns whether the first had
/// all of its workers and found these entries, and the second found none with this many offers.
fn play_twice<M: Lowering + Send + Sync, R: Threads + Wait + Sync>(
    rt: &R,
    alloc: Global,
    bench: Bench,
    plan: &RoundPlan<'_>,
    wanted: &[Entry],
    offers: u64,
) -> (Bench, bool) {
    let first = play::<M, R, OpenGate>(rt, alloc, bench, plan, &OpenGate);
    let is_found = are_entries(&first.found, wanted) && first.started == plan.workers.get();
    let gate = Count::new();
    let again = play::<M, R, Count>(rt, alloc, first.bench, plan, &gate);
    let is_alone = again.found.is_empty() && !again.refused && gate.is_leader_alone(offers);
    (again.bench, is_found && is_alone)
}

/// Whether rounds on the diamond's graph give the right result with a lowering: round 1 has the first tasks, which relax the arcs
/// of vertex 1; in round 2 both offers of 5 to vertex 4 are made, and only the first makes the distance smaller.
fn diamond<M: Lowering + Send + Sync, R: Threads + Wait + Sync>(
    rt: &R,
    alloc: Global,
    first: &[Task],
    workers: Workers,
) -> Result<bool, AllocError> {
    let bench = opened(alloc, 4, &DIAMOND, 100, &[(1, 0, 0)])?;
    let round_1 = RoundPlan {
        tasks: first,
        number: 1,
        workers,
    };
    let wanted = [entry(2, 3), entry(3, 3), entry(4, 6)];
    let (bench, is_first_right) = play_twice::<M, R>(rt, alloc, bench, &round_1, &wanted, 3);
    let round_2 = RoundPlan {
        tasks: &[light(2, 3), light(3, 3), light(4, 6)],
        number: 2,
        workers: Workers::new(2).unwrap(),
    };
    let (_, is_second_right) = play_twice::<M, R>(rt, alloc, bench, &round_2, &[entry(4, 5)], 2);
    Ok(is_first_right && is_second_right)
}

#[test]
fn rounds(rt: HostRuntime) -> Result<(), Fail> {
    let first = [light(1, 0)];
    assert!(rt; diamond::<Loop, HostRuntime>(&rt, rt.alloc(), &first, crew(&rt, 1))?);
    assert!(rt; diamond::<OneMin, HostRuntime>(&rt, rt.alloc(), &first, crew(&rt, 1))?);
    Ok(())
}

// No arc leaves vertex 4.
#[test]
fn rounds_of_two_workers(rt: HostRuntime) -> Result<(), Fail> {
    let first = [light(1, 0), light(4, 6)];
    assert!(rt; diamond::<Loop, HostRuntime>(&rt, rt.alloc(), &first, crew(&rt, 2))?);
    assert!(rt; diamond::<OneMin, HostRuntime>(&rt, rt.alloc(), &first, crew(&rt, 2))?);
    Ok(())
}

const MANY: u32 = 100_000;

/// The next number of a random sequence.
fn next_random(seed: u64) -> u64 {
    seed.wrapping_mul(6364136223846793005)
        .wrapping_add(1442695040888963407)
}

/// Four arcs from each vertex to random heads.
fn random_arcs(alloc: Global) -> Result<Vec<Triple>, AllocError> {
    let mut arcs = Vec::new(alloc);
    let mut seed = 1;
    for place in 0..4 * MANY {
        seed = next_random(seed);
        let head = (seed >> 33) % MANY as u64 + 1;
        let len = (seed >> 20) % 50 + 1;
        arcs.push((place / 4 + 1, head as u32, len as u32))?;
    }
    Ok(arcs)
}

/// A light task for each vertex, at a random distance.
fn random_tasks(alloc: Global) -> Result<Vec<Task>, AllocError> {
    let mut tasks = Vec::new(alloc);
    let mut seed = 2;
    for vertex in 1..=MANY {
        seed = next_random(seed);
        tasks.push(light(vertex, (seed >> 40) % 1000))?;
    }
    Ok(tasks)
}

/// Whether a round of these tasks leaves these words.
fn leaves<R: Threads + Wait + Sync>(
    rt: &R,
    alloc: Global,
    arcs: &[Triple],
    plan: &RoundPlan<'_>,
    wanted: &[u64],
) -> Result<bool, AllocError> {
    let bench = set_up(alloc, MANY, arcs, 25)?;
    let played = play::<Loop, R, OpenGate>(rt, alloc, bench, plan, &OpenGate);
    let is_played = !played.refused && 1 <= played.started && played.started <= plan.workers.get();
    let mut bench = played.bench;
    let left = words(alloc, &mut bench)?;
    Ok(is_played && left.as_slice() == wanted)
}

/// The words that a single caller leaves with the same offers.
fn words_of_one(alloc: Global, arcs: &[Triple], tasks: &[Task]) -> Result<Vec<u64>, AllocError> {
    let mut bench = set_up(alloc, MANY, arcs, 25)?;
    offer_in_order(&mut bench, tasks);
    words(alloc, &mut bench)
}

#[test]
fn many_workers_leave_the_words_of_one_caller(rt: HostRuntime) -> Result<(), Fail> {
    let alloc = rt.alloc();
    let arcs = random_arcs(alloc)?;
    let tasks = random_tasks(alloc)?;
    let wanted = words_of_one(alloc, &arcs, &tasks)?;
    for workers in [1, 2, 4, 64] {
        let plan = RoundPlan {
            tasks: &tasks,
            number: 1,
            workers: crew(&rt, workers),
        };
        assert!(rt;
            leaves(&rt, alloc, &arcs, &plan, &wanted)?,
            "{workers} workers"
        );
    }
    Ok(())
}

/// Whether the words are those that the two arms' offers and tasks leave.
fn has_reached_all(alloc: Global, bench: &mut Bench) -> Result<bool, AllocError> {
    let pair = |dist: u64, pred: u64| (dist << 28) | pred;
    let made = [pair(0, 0), pair(1, 1), pair(1, 1), pair(2, 2), pair(2, 3)];
    let left = words(alloc, bench)?;
    Ok(left.as_slice() == made.as_slice())
}

/// A round of two workers, and the same tasks under the next number. Whatever memory is refused, the words are those of the
/// offers at the end.
#[test]
fn refused_rounds_are_made_up_for(rt: HostRuntime) -> Result<(), Fail> {
    let alloc = rt.alloc();
    let bench = opened(alloc, 5, &TWO_ARMS, 1, &OFFERS)?;
    let tasks = [light(2, 1), light(3, 1)];
    let plan = RoundPlan {
        tasks: &tasks,
        number: 1,
        workers: crew(&rt, 2),
    };
    let first = play::<Loop, HostRuntime, OpenGate>(&rt, alloc, bench, &plan, &OpenGate);
    assert!(rt; first.refused || are_entries(&first.found, &[entry(4, 2), entry(5, 2)]));
    let plan = RoundPlan { number: 2, ..plan };
    let second = play::<Loop, HostRuntime, OpenGate>(&rt, alloc, first.bench, &plan, &OpenGate);
    let mut bench = second.bench;
    assert!(rt; has_reached_all(alloc, &mut bench)? || second.refused);
    Ok(())
}
