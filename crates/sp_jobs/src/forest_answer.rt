//! Finds and writes the answer for several sources.
ghost use Rattle.std.specs.Prelude.{◌≤◌, All, IfOk, IfSome};
ghost use Rattle.sp_word.specs.Word.{max_dist};
ghost use Rattle.sp_paths.specs.Paths.{IsVertex};
ghost use Rattle.sp_answer.specs.Nearest.{IsForestAnswer};
ghost use Rattle.sp_jobs.specs.Ready.{IsReady};
ghost use Rattle.sp_jobs.specs.Nearest.{IsAnswerToAll};
ghost use Rattle.sp_jobs.specs.ForestAnswer.{forest_answer_of, IsForestAnswerWritten};

use crate::answers::{BatchError, Summary};
use crate::job::Job;
use sp_answer::Engine;
use sp_device::Write;
use sp_files::{Forest, write_forest, write_no_forest};
use sp_run::{Nearest, RunError};
use sp_serial::{SearchPool, forest_near};
use std::alloc::{AllocError, Global};

/// The answer for several sources.
#[derive(Drop)]
pub(crate) enum NearestAnswer<const P: u32> {
    /// The forest of the sources.
    Forest(Forest<P>),
    /// The smallest vertex that is too far from all of them.
    TooFar(u32),
}

/// Finds the answer. A search finds a small forest. A run by a team finds any other, and counts the vertices that it
/// relaxes on the job's meter.
pub(crate) fn find_answer<const P: u32, E: Engine<P>>(
    alloc: Global,
    job: &Job<E>,
    asked: Nearest,
) -> Result<NearestAnswer<P>, AllocError>
    requires engine { E.can_run job.now.engine }
    requires ready { IsReady P job.now.graph.now }
    requires vertices { All (IsVertex job.now.graph.now.n) asked.sources.now }
    requires limit { IfSome asked.limit (λ limit. limit ≤ max_dist P) }
    ensures { IfOk result (λ found. IsAnswerToAll P job.now.graph.now
        asked.entry.sources.now asked.entry.limit (forest_answer_of found)) }
{
    let pool = SearchPool::new(alloc, 1);
    let Nearest { sources, limit } = asked;
    match forest_near(&job.engine, &pool, alloc, job.graph, sources, limit) {
        Ok(forest) => Ok(NearestAnswer::Forest(forest)),
        Err(RunError::TooFar(vertex)) => Ok(NearestAnswer::TooFar(vertex)),
        Err(RunError::NoSuchVertex) => unreachable!(),
        Err(RunError::Memory) => Err(AllocError),
    }
}

/// Writes an answer and counts it.
///
/// It allocates no memory. If the writer fails, a prefix of the answer's text has been written.
pub(crate) fn write_answer<const P: u32, W: Write>(
    answer: &NearestAnswer<P>,
    out: &mut W,
) -> Result<Summary, BatchError>
    ensures { IsForestAnswerWritten W.Write (forest_answer_of answer.now) out.old result out.new }
{
    match answer {
        NearestAnswer::Forest(forest) => Ok(Summary {
            sources: 1,
            too_far: 0,
            bytes: write_forest(forest, out)?,
        }),
        NearestAnswer::TooFar(vertex) => Ok(Summary {
            sources: 1,
            too_far: 1,
            bytes: write_no_forest(*vertex, out)?,
        }),
    }
}
