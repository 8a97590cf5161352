//! Finds and writes answers, one source after another or several side by side.
ghost use Rattle.std.specs.Prelude.{◌≡◌, ◌<◌, ◌≤◌, [], ◌∷◌, length, All, IfOk};
ghost use denote.Param.Send.{IsSync};
ghost use Rattle.sp_word.specs.declared.workers.TheConstants.{MOST_WORKERS};
ghost use Rattle.sp_jobs.specs.Told.{AreAllAnswered};
ghost use Rattle.sp_jobs.specs.Steps.{AreFound, AreFew, IsGroupWritten, MovesOn};

use crate::answers::{BatchError, Summary};
use crate::finding::find_group;
use crate::job::Job;
use crate::progress::{Listener, Nobody};
use crate::question::Question;
use crate::writing::{nothing, sum, write_group};
use sp_device::Write;
use sp_run::TeamEngine;
use sp_word::Workers;
use std::alloc::{AllocError, Global};
use std::thread;
use std::thread::{Threads, join_mut};

/// If a graph has fewer vertices and arcs in all, starting a thread takes longer than it saves, so the sources are
/// answered one after another.
pub const LEAST_ITEMS: usize = 2000;

/// The sources to answer, and the workers that answer them.
#[derive(Drop)]
pub struct Assignment<'a, 'l, L> {
    /// The sources, in the order in which their answers are written.
    pub sources: &'a [u32],
    /// The number of answers in all, as reported to the listener.
    pub count: usize,
    /// The number of vertices and arcs of the graph in all.
    pub items: usize,
    /// The number of workers, including this thread.
    pub workers: Workers,
    /// The listener for the progress.
    pub listener: &'l L,
}

impl<'a, 'l, L> Assignment<'a, 'l, L> {
    /// Returns the request of a job: these sources, with this many answers in all, reported to the job's listener.
    pub fn of<const P: u32, E: TeamEngine<P>>(
        job: &Job<'_, E>,
        listener: &'l L,
        sources: &'a [u32],
        count: usize,
    ) -> Assignment<'a, 'l, L>
        ensures sources { result.sources.now ≡ sources.now }
        ensures count { result.count ≡ count }
        ensures workers { result.workers ≡ E.worker_count job.now.engine }
    {
        Assignment {
            sources,
            count,
            items: job.graph.m().saturating_add(job.graph.n() as usize),
            workers: job.engine.workers(),
            listener,
        }
    }
}

// Returns how many threads are worth starting: one per worker, but no more than there are processors; and only one if
// the graph is too small.
fn count_at_once<R: Threads, L>(rt: &R, asked: &Assignment<L>) -> Workers
    ensures { result ≤ asked.now.workers }
{
    let workers = asked.workers;
    if workers.get() == 1 || asked.items < LEAST_ITEMS {
        return Workers::one();
    }
    match thread::available_parallelism(rt) {
        Ok(count) => workers.at_most(count.get()),
        Err(_) => workers,
    }
}

// Finds the answer for one source with this many workers, writes it and counts it.
#[tactic(auto, using(crate::proofs::ToldInOrder::none_begun))]
fn answer_together<Q: Question, R: Threads + Sync, W: Write>(
    rt: &R,
    alloc: Global,
    question: &Q,
    workers: Workers,
    source: u32,
    out: &mut W,
) -> Result<Summary, BatchError>
    requires { Q.can_ask question.now source }
    ensures { AreAllAnswered (Q.answers question.now) (source ∷ []) W.Write out.old result out.new }
{
    match question.find(alloc, workers, source) {
        Ok(found) => question.write_by(rt, alloc, workers, &found, out),
        Err(AllocError) => Err(BatchError::Memory),
    }
}

/// Answers the requested sources as `answer_sources` does, but one after another, each with one worker: this thread.
pub fn answer_alone<Q: Question, R: Threads + Sync, W: Write, L: Listener>(
    rt: &R,
    alloc: Global,
    question: &Q,
    asked: &Assignment<L>,
    out: &mut W,
) -> Result<Summary, BatchError>
    requires short { length asked.now.sources.now ≤ 1048576 }
    requires sources { All (Q.can_ask question.now) asked.now.sources.now }
    ensures { AreAllAnswered (Q.answers question.now) asked.now.sources.now
        W.Write out.old result out.new }
{
    let sources = asked.sources;
    let mut summary = nothing();
    for source in sources {
        asked.listener.hear(Q::progress(summary, asked.count));
        let one = answer_together::<Q, R, W>(rt, alloc, question, Workers::one(), *source, out)?;
        summary = sum(summary, one);
    }
    Ok(summary)
}

// Returns how many of the workers each of these sources gets.
fn shared(workers: Workers, sources: usize) -> Workers
    requires { 1 ≤ sources }
    ensures { result ≤ workers }
{
    workers.at_most(workers.get() as usize / sources)
}

// Finds the answers for a group of sources, which share the workers. Meanwhile, this thread writes the answers for the
// group before it.
fn find_and_write<Q: Question, R: Threads + Sync, W: Write, L>(
    rt: &R,
    alloc: Global,
    question: &Q,
    asked: &Assignment<L>,
    before: &[Q::Found],
    out: &mut W,
) -> (
    Result<Vec<Q::Found>, AllocError>,
    Result<Summary, BatchError>,
)
    requires some { 0 < length asked.now.sources.now }
    requires sources { All (Q.can_ask question.now) asked.now.sources.now }
    requires before { AreFew Q.told (Q.answers question.now) before.now }
    ensures found { IfOk result.0 (λ group. AreFound Q.told
        (Q.answers question.now) asked.now.sources.now group.items) }
    ensures written { IsGroupWritten Q.told W.Write before.now out.old result.1 out.new }
{
    let sources = asked.sources;
    let each = shared(asked.workers, sources.len());
    let workers = &each;
    if before.is_empty() {
        let found = find_group::<Q, R>(rt, alloc, question, workers, sources);
        return (found, Ok(nothing()));
    }
    let mut find = || -> Result<Vec<Q::Found>, AllocError>
        requires { IsSync R.row × IsSync Q.row × All (Q.can_ask question.now) sources.now }
        ensures { IfOk result (λ group. AreFound Q.told
            (Q.answers question.entry.now) sources.entry.now group.items) }
    { find_group::<Q, R>(rt, alloc, question, workers, sources) };
    let mut write = || -> Result<Summary, BatchError>
        requires { IsSync R.row × AreFew Q.told (Q.answers question.now) before.now }
        ensures { IsGroupWritten Q.told
            W.Write before.entry.now out.entry.now result out.exit.now }
    { write_group::<Q, R, W>(rt, alloc, question, Workers::one(), before, out) };
    join_mut(rt, &mut find, &mut write)
}

/// A step of a batch: the summary of what it wrote, and the answers that are still to be written.
#[derive(Drop)]
pub(crate) struct Step<F> {
    pub(crate) summary: Summary,
    pub(crate) waiting: Vec<F>,
}

// Answers a group of sources while earlier answers still wait to be written: writes these, and leaves the answers of
// the group waiting. If an allocation for the group fails, this thread answers its sources one after another.
fn answer_group<Q: Question, R: Threads + Sync, W: Write>(
    rt: &R,
    alloc: Global,
    question: &Q,
    asked: &Assignment<Nobody>,
    waiting: Vec<Q::Found>,
    out: &mut W,
) -> Result<Step<Q::Found>, BatchError>
    requires some { 0 < length asked.now.sources.now }
    requires few { length asked.now.sources.now ≤ MOST_WORKERS }
    requires sources { All (Q.can_ask question.now) asked.now.sources.now }
    requires waiting { AreFew Q.told (Q.answers question.now) waiting.items }
    ensures { MovesOn Q.told (Q.answers question.now) waiting.items
        asked.now.sources.now W.Write out.old result out.new }
{
    let (found, written) = find_and_write::<Q, R, W, Nobody>(
        rt, alloc, question, asked, &waiting, out,
    );
    let summary = written?;
    match found {
        Ok(group) => Ok(Step {
            summary,
            waiting: group,
        }),
        Err(AllocError) => {
            drop(waiting);
            let more = answer_alone::<Q, R, W, Nobody>(rt, alloc, question, asked, out)?;
            Ok(Step {
                summary: sum(summary, more),
                waiting: Vec::new(alloc),
            })
        }
    }
}

// Returns how many of the remaining sources form the next group: the remainder if their number isn't a multiple of the
// number of workers, and otherwise one source per worker. So the first group is the small one, and each later group is
// full.
fn group_size(left: usize, workers: Workers) -> usize
    requires { 1 ≤ left }
    ensures some { 1 ≤ result }
    ensures left { result ≤ left }
    ensures each { result ≤ workers }
    ensures few { result ≤ MOST_WORKERS }
{
    (left - 1) % workers.get() as usize + 1
}

// Answers sources in groups of one per worker; the first group may be smaller. While the answers for a group are found,
// those for the group before it are written. All workers write the answers for the last group.
fn answer_side_by_side<Q: Question, R: Threads + Sync, W: Write, L: Listener>(
    rt: &R,
    alloc: Global,
    question: &Q,
    asked: &Assignment<L>,
    out: &mut W,
) -> Result<Summary, BatchError>
    requires short { length asked.now.sources.now ≤ 1048576 }
    requires sources { All (Q.can_ask question.now) asked.now.sources.now }
    ensures { AreAllAnswered (Q.answers question.now) asked.now.sources.now
        W.Write out.old result out.new }
{
    let sources = asked.sources;
    let mut summary = nothing();
    let mut waiting = Vec::new(alloc);
    let mut rest = sources;
    while !rest.is_empty() {
        asked.listener.hear(Q::progress(summary, asked.count));
        let size = group_size(rest.len(), asked.workers);
        let (group, later) = rest.split_at(size);
        let of_group = Assignment {
            sources: group,
            count: asked.count,
            items: asked.items,
            workers: asked.workers,
            listener: &Nobody,
        };
        let Step {
            summary: more,
            waiting: next,
        } = answer_group::<Q, R, W>(rt, alloc, question, &of_group, waiting, out)?;
        summary = sum(summary, more);
        waiting = next;
        rest = later;
    }
    let last = write_group::<Q, R, W>(rt, alloc, question, asked.workers, &waiting, out)?;
    Ok(sum(summary, last))
}

/// Answers the requested sources in their order: finds the answer for each, writes it and counts it. If there are
/// several workers and the graph is large enough, several sources are answered at once: one per worker, but no more
/// than there are processors.
///
/// This thread writes the answers for a group of sources while the workers find those for the next one, so the answers
/// of at most two groups are kept. The first group is smaller if the number of sources isn't a multiple of the number
/// of workers. All workers write the answers for the last group. If an allocation for a group fails, its sources are
/// answered one after another. If that fails too, or the writer fails, a prefix of the text has been written.
pub fn answer_sources<Q: Question, R: Threads + Sync, W: Write, L: Listener>(
    rt: &R,
    alloc: Global,
    question: &Q,
    asked: &Assignment<L>,
    out: &mut W,
) -> Result<Summary, BatchError>
    requires short { length asked.now.sources.now ≤ 1048576 }
    requires sources { All (Q.can_ask question.now) asked.now.sources.now }
    ensures { AreAllAnswered (Q.answers question.now) asked.now.sources.now
        W.Write out.old result out.new }
{
    let workers = count_at_once(rt, asked);
    if workers.get() == 1 {
        return answer_alone::<Q, R, W, L>(rt, alloc, question, asked, out);
    }
    if let [source] = asked.sources {
        asked.listener.hear(Q::progress(nothing(), asked.count));
        return answer_together::<Q, R, W>(rt, alloc, question, asked.workers, *source, out);
    }
    let groups = Assignment {
        sources: asked.sources,
        count: asked.count,
        items: asked.items,
        workers,
        listener: asked.listener,
    };
    answer_side_by_side::<Q, R, W, L>(rt, alloc, question, &groups, out)
}
