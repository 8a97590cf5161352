//! The question of a matrix: the answers of a source for all targets.
ghost use Rattle.std.specs.Prelude.{◌≡◌, length, IfOk};
ghost use Rattle.sp_jobs.specs.Told.{IsDue};
ghost use Rattle.sp_word.specs.Word.{max_dist};
ghost use Rattle.sp_answer.specs.Run.{AreAnswersFor};
ghost use Rattle.sp_jobs.specs.Row.{IsRow, IsRowTold, CanFindRow, told_of_row};

use crate::answers::{BatchError, Summary};
use crate::job::Job;
use crate::progress::Progress;
use crate::question::Question;
use crate::row_lines::write_row;
use sp_answer::PairAnswer;
use sp_device::Write;
use sp_graph::Graph;
use sp_run::TeamEngine;
use sp_serial::{SearchPool, answers_near};
use sp_word::Workers;
use std::alloc::{AllocError, Global};
use std::marker::Sync;

/// The row of a source: each target with its answer, in the order of the targets.
#[derive(Drop)]
pub struct Row {
    pub(crate) source: u32,
    pub(crate) lines: Vec<(u32, PairAnswer)>,
}

/// The question of a matrix: the answers of a source of the graph for all targets.
#[derive(Drop)]
pub struct RowQuestion<'a, E, const P: u32> {
    pub(crate) job: Job<'a, E>,
    pub(crate) targets: &'a [u32],
    /// The pool of buffers in which it looks for near targets.
    pub(crate) pool: SearchPool<P>,
}

// Returns the row of a source from the answers for its targets.
fn row_of<const P: u32>(
    alloc: Global,
    graph: &Graph,
    source: u32,
    targets: &[u32],
    answers: &[PairAnswer],
) -> Result<Row, AllocError>
    requires answers { AreAnswersFor graph.now source (max_dist P) targets.now answers.now }
    requires size { length answers.now ≡ length targets.now }
    ensures { IfOk result (IsRow P graph.now source targets.now) }
{
    let mut lines = Vec::new(alloc);
    for place in 0..targets.len() {
        lines.push((targets[place], answers[place]))?;
    }
    Ok(Row { source, lines })
}

// Returns the row of a source. A search finds near targets. A run finds the others, and goes no farther than they
// require. Without targets there is no search.
fn find_row<const P: u32, E: TeamEngine<P> + Drop>(
    alloc: Global,
    question: &RowQuestion<'_, E, P>,
    workers: Workers,
    source: u32,
) -> Result<Row, AllocError>
    requires { CanFindRow (E.can_run question.now.job.engine) P question.now.job.graph.now
        question.now.targets.now source }
    ensures { IfOk result (λ found. IsDue
        (IsRowTold P question.now.job.graph.now question.now.targets.now)
        source (told_of_row found)) }
{
    if question.targets.is_empty() {
        return Ok(Row {
            source,
            lines: Vec::new(alloc),
        });
    }
    let (engine, graph) = (question.job.engine.by(workers), question.job.graph);
    let targets = question.targets;
    let pool = &question.pool;
    let answers = answers_near::<P, PairAnswer, _, _>(
        &engine, pool, alloc, graph, source, targets,
    )?;
    row_of::<P>(alloc, graph, source, targets, &answers)
}

impl<'a, E: TeamEngine<P> + Drop + Sync, const P: u32> Question for RowQuestion<'a, E, P> {
    type Found = Row;

    ghost told = { told_of_row };

    ghost can_ask = { λ question s.
        CanFindRow (E.can_run question.job.engine) P question.job.graph.now
        question.targets.now s };

    ghost answers = { λ question s told.
        IsRowTold P question.job.graph.now question.targets.now s told };

    fn progress(written: Summary, count: usize) -> Progress {
        Progress::Lines { written, count }
    }

    fn find(&self, alloc: Global, workers: Workers, source: u32) -> Result<Row, AllocError> {
        find_row(alloc, self, workers, source)
    }

    fn write<W: Write>(
        &self,
        _alloc: Global,
        found: &Row,
        out: &mut W,
    ) -> Result<Summary, BatchError> {
        write_row(found, out)
    }
}
