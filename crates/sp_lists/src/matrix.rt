//! A matrix of distances.
ghost use Rattle.std.specs.Prelude.{◌≤◌, ◌+◌, ◌*◌, length, All};
ghost use Rattle.sp_paths.specs.Paths.{IsVertex};
ghost use Rattle.sp_answer.specs.Pair.{answer_of};
ghost use Rattle.sp_lists.specs.Limits.{IsCount, reach};
ghost use Rattle.sp_lists.specs.Matrix.{IsDistance, ArePutAt, KeepsBut, IsRowIn, IsBlockIn, IsMatrixOf};

use crate::outcomes::{BatchOutcome, Outcome};
use crate::prepared::Prepared;
use crate::queries::Query;
use crate::targets::find_answers;
use sp_answer::PairAnswer;
use std::alloc::Global;

// A source, and the index from which its row is written.
#[derive(Clone, Copy)]
struct RowPlace {
    source: u32,
    low: usize,
}

// Returns the number that is written for the distance of an answer.
fn distance_of(answer: PairAnswer) -> u64
    ensures { IsDistance (answer_of answer) result }
{
    match answer {
        PairAnswer::Found { dist, .. } => dist,
        PairAnswer::TooFar(_) => u64::MAX - 1,
        PairAnswer::NoWalk => u64::MAX,
    }
}

// Writes the distances of answers, from index `low` on.
fn put_row(answers: &[PairAnswer], low: usize, dist: &mut [u64])
    requires { low + length answers.now ≤ length dist.old }
    ensures row { ArePutAt answers.now low dist.new }
    ensures others { KeepsBut low (length answers.now) dist.old dist.new }
{
    for (place, answer) in answers.iter().enumerate() {
        dist[low + place] = distance_of(*answer);
    }
}

// Writes the row of a source. A row without places needs no search.
fn row_at(
    alloc: Global,
    prepared: Prepared,
    row: RowPlace,
    targets: &[u32],
    dist: &mut [u64],
) -> Outcome
    requires n { IsCount prepared.graph.now.n }
    requires vertex { IsVertex prepared.graph.now.n row.source }
    requires targets { All (IsVertex prepared.graph.now.n) targets.now }
    requires room { row.low + length targets.now ≤ length dist.old }
    ensures { IsRowIn (reach prepared.entry.graph.now.n) prepared.entry.graph.now
        row.source targets.now row.low dist.old dist.new result }
{
    if targets.is_empty() {
        return Outcome::Done;
    }
    match find_answers(alloc, prepared, row.source, targets) {
        Ok(answers) => {
            put_row(answers.as_slice(), row.low, dist);
            Outcome::Done
        }
        Err(_) => Outcome::Memory,
    }
}

// Writes one row after another, up to the first for which there is no memory.
fn rows_in(
    alloc: Global,
    prepared: Prepared,
    sources: &[u32],
    targets: &[u32],
    dist: &mut [u64],
) -> BatchOutcome
    requires n { IsCount prepared.graph.now.n }
    requires sources { All (IsVertex prepared.graph.now.n) sources.now }
    requires targets { All (IsVertex prepared.graph.now.n) targets.now }
    requires room { length sources.now * length targets.now ≤ length dist.old }
    ensures { IsBlockIn (reach prepared.entry.graph.now.n) prepared.entry.graph.now
        sources.now targets.now dist.old dist.new result }
{
    let mut low: usize = 0;
    for place in 0..sources.len() {
        let row = RowPlace {
            source: sources[place],
            low,
        };
        match row_at(alloc, prepared, row, targets, dist) {
            Outcome::Done => {}
            told => return BatchOutcome { done: place, told },
        }
        low += targets.len();
    }
    BatchOutcome {
        done: sources.len(),
        told: Outcome::Done,
    }
}

/// Checks what is asked, and writes the row of each source, one after the other, up to the first for which there is no memory; or
/// returns what is wrong, and writes nothing.
pub fn write_matrix(
    alloc: Global,
    prepared: Prepared,
    sources: &[u32],
    targets: &[u32],
    delta: u64,
    dist: &mut [u64],
) -> BatchOutcome
    ensures { IsMatrixOf prepared.entry.graph.now sources.now targets.now delta
        dist.old dist.new result }
{
    let query = Query {
        sources,
        targets,
        delta,
        limit: None,
        rows: sources.len(),
        columns: targets.len(),
    };
    if let Some(told) = query.refusal(prepared.n(), dist.len()) {
        return BatchOutcome::none(told);
    }
    rows_in(alloc, prepared, sources, targets, dist)
}
