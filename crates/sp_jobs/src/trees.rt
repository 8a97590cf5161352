//! The question of a batch: the tree of a source.
ghost use Rattle.std.specs.Prelude.{None, Some, IfOk};
ghost use Rattle.sp_jobs.specs.Told.{IsDue};
ghost use Rattle.sp_jobs.specs.Trees.{told_by, IsTreeTold, CanFindTree};

use crate::answers::{BatchError, Summary};
use crate::job::Job;
use crate::progress::Progress;
use crate::question::Question;
use sp_answer::{Engine, Tree, WordTree, tree_of};
use sp_device::{Write, write_all};
use sp_files::{
    text_of, text_of_words, write_far, write_tree_in_pages, write_words_by, write_words_in_pages,
};
use sp_graph::Graph;
use sp_run::{RunError, TeamEngine};
use sp_serial::{SearchPool, part_near};
use sp_word::Workers;
use std::alloc::{AllocError, Global};
use std::marker::Sync;
use std::thread::Threads;

// With at least this many workers, each worker makes the text of the tree that it has found, because one thread that
// writes all of them would be too slow to make their text too. With fewer workers, that thread makes the lines itself,
// page after page in the same memory.
const MANY_WORKERS: u32 = 8;

/// The answer for a source.
#[derive(Drop)]
pub enum SourceAnswer<const P: u32> {
    /// The shortest-path tree of the source.
    Tree(WordTree<P>),
    /// The part of that tree within the limit.
    Part(Tree<P>),
    /// The text of the tree, or of its part.
    Text(Vec<u8>),
    /// The smallest vertex that is too far from the source.
    TooFar { source: u32, vertex: u32 },
}

/// The question of a batch: the tree of a source of the graph, or its part within a limit.
#[derive(Drop)]
pub struct TreeQuestion<'a, E, const P: u32> {
    pub(crate) job: Job<'a, E>,
    /// The greatest distance to report, if there is a limit.
    pub(crate) limit: Option<u64>,
    /// Buffers of searches for a small part, for each thread that may look for one.
    pub(crate) pool: SearchPool<P>,
}

// Finds the whole tree of a source, or the vertex that is too far.
fn find_tree<const P: u32, E: Engine<P>>(
    engine: &E,
    alloc: Global,
    graph: &Graph,
    source: u32,
) -> Result<SourceAnswer<P>, AllocError>
    requires { CanFindTree (E.can_run engine.now) P None graph.now source }
    ensures { IfOk result (λ found. IsTreeTold P None graph.now source (told_by found)) }
{
    match tree_of(engine, alloc, graph, source) {
        Ok(tree) => Ok(SourceAnswer::Tree(tree)),
        Err(RunError::TooFar(vertex)) => Ok(SourceAnswer::TooFar { source, vertex }),
        Err(RunError::NoSuchVertex) => unreachable!(),
        Err(RunError::Memory) => Err(AllocError),
    }
}

// Finds the answer for a source with this many workers.
fn answer_of<const P: u32, E: TeamEngine<P> + Drop>(
    alloc: Global,
    question: &TreeQuestion<'_, E, P>,
    workers: Workers,
    source: u32,
) -> Result<SourceAnswer<P>, AllocError>
    requires { CanFindTree (E.can_run question.now.job.engine) P question.now.limit
        question.now.job.graph.now source }
    ensures { IfOk result (λ found. IsDue
        (IsTreeTold P question.now.limit question.now.job.graph.now)
        source (told_by found)) }
{
    let (engine, graph) = (question.job.engine.by(workers), question.job.graph);
    match question.limit {
        None => find_tree(&engine, alloc, graph, source),
        Some(limit) => {
            let part = part_near(&engine, &question.pool, alloc, graph, source, limit)?;
            Ok(SourceAnswer::Part(part))
        }
    }
}

impl<'a, E: TeamEngine<P> + Drop + Sync, const P: u32> Question for TreeQuestion<'a, E, P> {
    type Found = SourceAnswer<P>;

    ghost told = { told_by };

    ghost can_ask = { λ question s.
        CanFindTree (E.can_run question.job.engine) P question.limit question.job.graph.now s };

    ghost answers = { λ question s told.
        IsTreeTold P question.limit question.job.graph.now s told };

    fn progress(written: Summary, count: usize) -> Progress {
        Progress::Sources { written, count }
    }

    fn find(
        &self,
        alloc: Global,
        workers: Workers,
        source: u32,
    ) -> Result<SourceAnswer<P>, AllocError> {
        answer_of(alloc, self, workers, source)
    }

    // If there are many workers, makes the text of a tree and frees the tree. If there is no memory for the text, the
    // tree stays.
    fn ready(&self, alloc: Global, found: SourceAnswer<P>) -> SourceAnswer<P> {
        if self.job.engine.workers().get() < MANY_WORKERS {
            return found;
        }
        match found {
            SourceAnswer::Tree(tree) => match text_of_words(alloc, &tree) {
                Ok(text) => SourceAnswer::Text(text),
                Err(AllocError) => SourceAnswer::Tree(tree),
            },
            SourceAnswer::Part(tree) => match text_of(alloc, &tree) {
                Ok(text) => SourceAnswer::Text(text),
                Err(AllocError) => SourceAnswer::Part(tree),
            },
            found => found,
        }
    }

    fn write<W: Write>(
        &self,
        alloc: Global,
        found: &SourceAnswer<P>,
        out: &mut W,
    ) -> Result<Summary, BatchError> {
        match found {
            SourceAnswer::Tree(tree) => Ok(Summary {
                sources: 1,
                too_far: 0,
                bytes: write_words_in_pages(alloc, tree, out)?,
            }),
            SourceAnswer::Part(tree) => Ok(Summary {
                sources: 1,
                too_far: 0,
                bytes: write_tree_in_pages(alloc, tree, out)?,
            }),
            SourceAnswer::Text(text) => {
                write_all(out, text)?;
                Ok(Summary {
                    sources: 1,
                    too_far: 0,
                    bytes: text.len() as u64,
                })
            }
            SourceAnswer::TooFar { source, vertex } => Ok(Summary {
                sources: 1,
                too_far: 1,
                bytes: write_far(*source, *vertex, out)?,
            }),
        }
    }

    // Several workers make the lines of a whole tree.
    fn write_by<R: Threads + Sync, W: Write>(
        &self,
        rt: &R,
        alloc: Global,
        workers: Workers,
        found: &SourceAnswer<P>,
        out: &mut W,
    ) -> Result<Summary, BatchError> {
        match found {
            SourceAnswer::Tree(tree) => Ok(Summary {
                sources: 1,
                too_far: 0,
                bytes: write_words_by(rt, alloc, tree, workers, out)?,
            }),
            other => self.write(alloc, other, out),
        }
    }
}
