//! Runs on the calling thread alone: one function for every question about sources.
ghost use Rattle.std.specs.Prelude.{◌≡◌, ◌≤◌, true, All, IfOk, IfErr};
ghost use Rattle.sp_word.specs.Word.{is_layout, max_pred};
ghost use Rattle.sp_paths.specs.Paths.{IsVertex};
ghost use Rattle.sp_answer.specs.Run.{IsAsked, AreRunWords, IsRunRefusal};

use crate::lowering::lower_from;
use sp_answer::{RunError, RunRequest, RunWords, are_vertices};
use sp_graph::Graph;
use sp_judge::settle;
use sp_word::Word;
use std::alloc::{AllocError, Global};

// Runs as far as is asked. It fails only if there is no memory.
fn run_alone<const P: u32>(
    alloc: Global,
    graph: &Graph,
    run: RunRequest,
) -> Result<RunWords<P>, AllocError>
    requires layout { is_layout P ≡ true }
    requires sources { All (IsVertex graph.now.n) run.sources.now }
    requires room { graph.now.n ≤ max_pred P }
    requires asked { IsAsked P graph.now.n run.until }
    ensures { IfOk result (λ made.
        AreRunWords P graph.now run.entry.sources.now run.entry.until made.words.items made.far) }
{
    let mut words = vec![in alloc; Word::unreached(); graph.n() as usize]?;
    lower_from(alloc, graph, run, usize::MAX, &mut words, &mut 0)?;
    let far = settle(graph, run, &mut words);
    Ok(RunWords { words, far })
}

/// Runs from the sources, as far as is asked, as `words_of_run` does. It starts no thread and never waits. Returns the word of
/// each vertex, and the smallest vertex that is too far, if there is one that bears on what is asked.
///
/// Neither the order of the sources affects the answer, nor how often a source is named. The run takes 8 bytes for the word of
/// each vertex, and 16 for each waiting entry. The width of the buckets adapts during the run.
pub fn words_alone<const P: u32>(
    alloc: Global,
    graph: &Graph,
    run: RunRequest,
) -> Result<RunWords<P>, RunError>
    requires layout { is_layout P ≡ true }
    requires n { graph.now.n ≤ max_pred P }
    requires asked { IsAsked P graph.now.n run.until }
    ensures words { IfOk result (λ made.
        AreRunWords P graph.now run.entry.sources.now run.entry.until made.words.items made.far) }
    ensures refused { IfErr result (IsRunRefusal graph.now run.entry.sources.now) }
{
    if !are_vertices(graph, run.sources) {
        return Err(RunError::NoSuchVertex);
    }
    match run_alone(alloc, graph, run) {
        Ok(words) => Ok(words),
        Err(_) => Err(RunError::Memory),
    }
}
