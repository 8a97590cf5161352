//! Who answers a run.
ghost use Rattle.std.specs.Prelude.{◌≡◌, ◌≤◌, true, IfOk, IfErr};
ghost use Rattle.sp_word.specs.Word.{is_layout, max_pred};
ghost use Rattle.sp_answer.specs.Run.{IsAsked, AreRunWords, IsRunRefusal};

use crate::answer::RunError;
use crate::asked::RunRequest;
use crate::run_words::RunWords;
use sp_graph::Graph;
use std::alloc::Global;

/// Who answers a run in a graph: a team with what it needs, or the calling thread. What it needs is its own, so that whoever asks has
/// no handle.
pub trait Engine<const P: u32> {
    /// What the engine itself needs for a run, as that threads may share its runtime. Of an engine without a runtime it is nothing.
    ghost can_run: { Self → Type 0 };

    /// Runs from the sources, as far as is asked. Returns the word of each vertex, and the smallest vertex that is too far, if one is
    /// and bears on what was asked.
    ///
    /// The order of the sources has no bearing on the answer, nor has how often one of them is named.
    fn run(&self, alloc: Global, graph: &Graph, run: RunRequest) -> Result<RunWords<P>, RunError>
        requires engine { can_run self.now }
        requires layout { is_layout P ≡ true }
        requires n { graph.now.n ≤ max_pred P }
        requires asked { IsAsked P graph.now.n run.until }
        ensures words { IfOk result (λ made. AreRunWords P graph.now
            run.entry.sources.now run.entry.until made.words.items made.far) }
        ensures refused { IfErr result (IsRunRefusal graph.now run.entry.sources.now) };
}
