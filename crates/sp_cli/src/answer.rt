//! What each command adds besides its words: what its job answers in a graph.
ghost use denote.Param.Send.{IsSync};
ghost use Rattle.std.specs.Prelude.{◌≡◌, ℕ, true, false, List, Option, Result, Some, IfOk, MatchResult, codes};
ghost use Rattle.sp_word.specs.Word.{is_layout};
ghost use Rattle.sp_network.specs.declared.directions.Direction.{Direction};
ghost use Rattle.sp_jobs.specs.declared.answers.Summary.{Summary};
ghost use Rattle.sp_jobs.specs.declared.answers.BatchError.{BatchError};
ghost use Rattle.sp_command.specs.Causes.{Paths};
ghost use Rattle.sp_command.specs.Scene.{Scene};
ghost use Rattle.sp_command.specs.declared.faults.Fault.TheVariants.{LimitOutOfRange};
ghost use Rattle.sp_options.specs.Within.{IsLimit};
ghost use Rattle.sp_cli.specs.Commands.{EndsAt, IsPlaced, IsUntouched};

use crate::context::CommandContext;
use sp_command::{Fault, FileKind, Inputs};
use sp_device::Write;
use sp_jobs::{BatchError, BucketWidth, Progress, Summary};
use std::alloc::Global;
use std::sync::Wait;
use std::thread::Threads;

/// A command's own part, as it runs in words with `P` bits of predecessor.
pub trait GraphAnswer<const P: u32> {
    /// The paths of its files besides the graph.
    ghost paths: { Self → Paths };

    /// The greatest distance to report, if there is a limit.
    ghost within: { Self → Option ℕ };

    /// The word for places is invalid.
    ghost placeless: { Self → Type 0 };

    /// What the command's job answers in the graph with this path, with its arcs in this direction.
    ghost answers: { Self → Direction → (graph : List ℕ)
        → Scene → Result Summary BatchError → Type 0 };

    /// Returns the greatest distance to report, or a fault if words with `P` bits of predecessor can't hold that
    /// distance.
    fn limit(&self) -> Result<Option<u64>, Fault>
        requires { is_layout P ≡ true }
        ensures exactly { MatchResult result (λ _. IsLimit P (within self.now))
            (λ fault. ¬ (IsLimit P (within self.now)) × (fault ≡ LimitOutOfRange)) }
        ensures limit { IfOk result (λ asked. asked ≡ within self.now) };

    /// Returns whether the word for places is invalid.
    fn lacks_places(&self) -> bool
        ensures lacking { result ≡ true → placeless self.now }
        ensures none { result ≡ false → ¬ (placeless self.now) };

    /// Returns whether its file of this kind is standard input.
    fn is_input(&self, file: FileKind) -> bool
        ensures { result ≡ true → paths self.now file ≡ Some (codes "-") };

    /// Opens the command's files and runs its job. If there is one worker, the calling thread runs it alone; otherwise
    /// threads run it that may wait for one another.
    fn answer<R: Threads + Wait + Sync, F: Inputs, W: Write>(
        &self,
        rt: &R,
        alloc: Global,
        place: &CommandContext<'_, F>,
        width: BucketWidth<P>,
        out: &mut W,
    ) -> Result<Result<Summary, BatchError>, Fault>
        requires run { (is_layout P ≡ true) × IsSync R.row }
        requires limit { IsPlaced P (within self.now) place.now }
        ensures answered { EndsAt F.files (paths self.now) (within self.now) (answers self.now)
            place.now W.Write out.old out.new result }
        ensures untouched { IsUntouched out.old out.new result };

    /// Returns the progress after this much has been written, out of this many in all.
    fn progress(written: Summary, count: usize) -> Progress;
}
