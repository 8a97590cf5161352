//! The answers for sources, found one after another or side by side.
ghost use Rattle.std.specs.Prelude.{◌≡◌, ◌++◌, All, IfOk};
ghost use denote.Param.Send.{IsSync};
ghost use Rattle.sp_jobs.specs.Steps.{AreFound};

use crate::question::Question;
use sp_word::Workers;
use std::alloc::{AllocError, Global};
use std::marker::Sync;
use std::thread::{Threads, join};

// Finds the answers for sources, one after another, and prepares them for writing.
fn find_in_turn<Q: Question>(
    alloc: Global,
    question: &Q,
    workers: &Workers,
    sources: &[u32],
) -> Result<Vec<Q::Found>, AllocError>
    requires { All (Q.can_ask question.now) sources.now }
    ensures { IfOk result
        (λ group. AreFound Q.told (Q.answers question.now) sources.now group.items) }
{
    let mut group = Vec::new(alloc);
    for source in sources {
        let found = question.find(alloc, *workers, *source)?;
        group.push(question.ready(alloc, found))?;
    }
    Ok(group)
}

// Appends the second list of answers to the first.
fn put_behind<F: Drop>(mut first: Vec<F>, mut second: Vec<F>) -> Result<Vec<F>, AllocError>
    ensures { IfOk result (λ group. group.items ≡ first.items ++ second.items) }
{
    first.append(&mut second)?;
    Ok(first)
}

/// Finds the answers for sources, in their order, each on a thread of its own with this many workers.
///
/// If no thread can be started, this one finds the remaining answers.
#[cycle(groups)]
pub(crate) fn find_group<Q: Question, R: Threads + Sync>(
    rt: &R,
    alloc: Global,
    question: &Q,
    workers: &Workers,
    sources: &[u32],
) -> Result<Vec<Q::Found>, AllocError>
    requires { All (Q.can_ask question.now) sources.now }
    ensures { IfOk result
        (λ group. AreFound Q.told (Q.answers question.now) sources.now group.items) }
{
    if sources.len() < 2 {
        return find_in_turn(alloc, question, workers, sources);
    }
    let half = sources.len() / 2;
    let (left, right) = sources.split_at(half);
    let back = move || -> Result<Vec<Q::Found>, AllocError>
        requires { IsSync R.row × IsSync Q.row × All (Q.can_ask question.now) right.now }
        ensures { IfOk result (λ group. AreFound Q.told
            (Q.answers question.entry.now) right.entry.now group.items) }
    { find_group::<Q, R>(rt, alloc, question, workers, right) };
    let front = move || -> Result<Vec<Q::Found>, AllocError>
        requires { IsSync R.row × IsSync Q.row × All (Q.can_ask question.now) left.now }
        ensures { IfOk result (λ group. AreFound Q.told
            (Q.answers question.entry.now) left.entry.now group.items) }
    { find_group::<Q, R>(rt, alloc, question, workers, left) };
    let (second, first) = join(rt, back, front);
    put_behind(first?, second?)
}
