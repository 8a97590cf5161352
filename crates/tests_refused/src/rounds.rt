//! A round in which two workers meet, and its tasks again under the next number.
ghost use Rattle.std.specs.Prelude.{◌≡◌, All, IfOk, IfErr};
ghost use Rattle.sp_word.specs.Word.{max_dist};
ghost use Rattle.sp_offer.specs.Order.{lawful};
ghost use Rattle.sp_rounds.specs.Offers.{IsTask};

use crate::report::Ending;
use sp_graph::Rows;
use sp_offer::{AnyWord, Caller, OfferTable};
use sp_rounds::{
    ClaimTable, Claimer, Entry, OpenGate, Round, RoundOut, RoundRefused, Task, TaskKind, run_round,
};
use sp_word::{Word, Workers};
use std::io;
use std::sync::Wait;
use std::thread::Threads;
use tests_samples::{Triple, graph_of};

const VERTICES: u32 = 5;

const ARCS: [Triple; 4] = [(1, 2, 1), (1, 3, 1), (2, 4, 1), (3, 5, 1)];

// The light arcs of vertices 2 and 3.
fn tasks_over(rows: &Rows) -> [Task; 2]
    requires { rows.now.graph.n ≡ 5 }
    ensures { All (IsTask (lawful 28 (λ _ _. Unit {0})) (max_dist 28) rows.now) result }
{
    let _ = rows.n();
    [
        Task {
            vertex: 2,
            dist: 1,
            kind: TaskKind::Light,
        },
        Task {
            vertex: 3,
            dist: 1,
            kind: TaskKind::Light,
        },
    ]
}

// Returns the caller, the claimer, and what the round found, unless it was refused memory.
fn give_back(answer: Result<RoundOut, RoundRefused>) -> (Caller, Claimer, Option<Vec<Entry>>)
    ensures caller { IfOk answer (λ out. result.0 ≡ out.caller) }
    ensures claimer { IfOk answer (λ out. result.1 ≡ out.claimer) }
    ensures refused_caller { IfErr answer (λ refusal. result.0 ≡ refusal.caller) }
    ensures refused_claimer { IfErr answer (λ refusal. result.1 ≡ refusal.claimer) }
{
    match answer {
        Ok(out) => (out.caller, out.claimer, Some(out.found)),
        Err(refusal) => (refusal.caller, refusal.claimer, None),
    }
}

// Whether both tasks found their heads, in either order.
fn is_found(found: &[Entry]) -> bool {
    let (fourth, fifth) = (Entry { vertex: 4, dist: 2 }, Entry { vertex: 5, dist: 2 });
    found.len() == 2 && found.contains(&fourth) && found.contains(&fifth)
}

// Reports how two rounds ended, when at most one of them may be refused memory.
fn tell_rounds(first: Option<Vec<Entry>>, second: Option<Vec<Entry>>) -> Ending {
    match (&first, &second) {
        (Some(found), Some(_)) if is_found(found) => Ending::Answered,
        (Some(found), None) if is_found(found) => Ending::Memory,
        (None, Some(_)) => Ending::Memory,
        _ => Ending::Wrong,
    }
}

// Prints the words of all vertices.
fn print_words<R: Print>(
    rt: &R,
    table: &OfferTable<AnyWord, 28>,
    caller: &mut Caller,
) -> io::Result<()>
    requires vertices { table.now.vertices ≡ 5 }
    requires caller { caller.old.table ≡ table.now.id }
{
    let mut words = [Word::<28>::unreached(); VERTICES as usize];
    table.copy_words(caller, &mut words);
    for (word, vertex) in words.iter().zip(1u32..) {
        if let (Some(dist), Some(pred)) = (word.dist(), word.pred()) {
            println!(rt; "w {vertex} {dist} {pred}")?;
        }
    }
    Ok(())
}

/// Plays one round with this number of workers, then the same tasks under the next number, and prints the final words, which are
/// the same whichever of the two was refused memory.
pub fn call_round<R: AllocGlobal + Print + Threads + Wait + Sync>(
    rt: &R,
    workers: Workers,
) -> io::Result<Ending> {
    let alloc = rt.alloc();
    let graph = graph_of(alloc, VERTICES, &ARCS)?;
    let rows = Rows::split(alloc, &graph, 1)?;
    let (table, mut caller) = OfferTable::<AnyWord, 28>::new(alloc, VERTICES, AnyWord)?;
    let (claims, claimer) = ClaimTable::new(alloc, VERTICES)?;
    let _ = table.offer(&mut caller, 1, Word::pack(0, 0));
    let _ = table.offer(&mut caller, 2, Word::pack(1, 1));
    let _ = table.offer(&mut caller, 3, Word::pack(1, 1));
    let tasks = tasks_over(&rows);
    let mut round = Round {
        table: &table,
        claims: &claims,
        rows: &rows,
        tasks: &tasks,
        number: 1,
        workers,
    };
    let played = run_round(rt, alloc, &round, caller, claimer, &OpenGate);
    let (caller, claimer, first) = give_back(played);
    round.number = 2;
    let played = run_round(rt, alloc, &round, caller, claimer, &OpenGate);
    let (mut caller, _, second) = give_back(played);
    print_words(rt, &table, &mut caller)?;
    Ok(tell_rounds(first, second))
}
