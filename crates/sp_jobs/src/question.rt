//! A question about each source.
ghost use Rattle.std.specs.Prelude.{◌≡◌, ℕ, [], ◌∷◌, IfOk};
ghost use denote.Param.Send.{IsSync};
ghost use Rattle.sp_jobs.specs.Told.{WrittenAnswer, IsDue, AreWritten};

use crate::answers::{BatchError, Summary};
use crate::progress::Progress;
use sp_device::Write;
use sp_word::Workers;
use std::alloc::{AllocError, Global};
use std::marker::{Send, Sync};
use std::thread::Threads;

/// A question about each source of a list.
pub trait Question: Sync {
    /// The answer for one source, as it is found.
    type Found: Drop + Send;

    /// What an answer says: how much it counts, and its text.
    ghost told: { Self.Found → WrittenAnswer };

    /// The source may be asked.
    ghost can_ask: { Self → ℕ → Type 0 };

    /// This is a correct answer for the source.
    ghost answers: { Self → ℕ → WrittenAnswer → Type 0 };

    /// Returns the progress after these answers have been written, out of this many in all.
    fn progress(written: Summary, count: usize) -> Progress;

    /// Finds the answer for a source, with this many workers.
    fn find(&self, alloc: Global, workers: Workers, source: u32) -> Result<Self::Found, AllocError>
        requires { can_ask self.now source }
        ensures { IfOk result (λ found. IsDue (answers self.now) source (told found)) };

    /// Prepares an answer for writing while it waits for others, on the thread that found it. By default the answer
    /// stays as it was found.
    fn ready(&self, _alloc: Global, found: Self::Found) -> Self::Found
        ensures { told result ≡ told found }
    {
        found
    }

    /// Writes the answer for one source, and counts it.
    fn write<W: Write>(
        &self,
        alloc: Global,
        found: &Self::Found,
        out: &mut W,
    ) -> Result<Summary, BatchError>
        ensures { AreWritten W.Write (told found.now ∷ []) out.old result out.new };

    /// Writes the answer for one source as `write` does, with this many workers that have nothing else to do, including
    /// this thread. By default this thread does so alone.
    fn write_by<R: Threads + Sync, W: Write>(
        &self,
        _rt: &R,
        alloc: Global,
        _workers: Workers,
        found: &Self::Found,
        out: &mut W,
    ) -> Result<Summary, BatchError>
        requires sync { IsSync R.row }
        ensures { AreWritten W.Write (told found.now ∷ []) out.old result out.new }
    {
        self.write(alloc, found, out)
    }
}
