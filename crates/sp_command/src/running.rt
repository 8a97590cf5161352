//! Running a command.
ghost use denote.Param.Send.{IsSync};
ghost use Rattle.std.specs.Prelude.{◌≡◌, true, IfOk, IfErr};
ghost use Rattle.sp_word.specs.Word.{is_layout};
ghost use Rattle.sp_command.specs.declared.faults.Fault.{Fault};
ghost use Rattle.sp_command.specs.Causes.{Paths, IsBorneOut};
ghost use Rattle.sp_command.specs.Faults.{is_done, is_early};
ghost use Rattle.sp_command.specs.Scene.{Meaning, scene};

use crate::faults::{Fault, Status};
use crate::inputs::Inputs;
use sp_device::Write;
use std::alloc::Global;
use std::sync::Wait;
use std::thread::Threads;

/// A command that can run in words with `P` bits of predecessor.
pub trait Runnable<const P: u32> {
    /// The meaning of the command's answer, given the texts of its files and what is written.
    ghost answers: { Meaning Self };

    /// The path of the command's file of each kind, if it has one.
    ghost paths: { Self → Paths };

    /// The faults that the command's words or the texts of its files can cause, besides faults of files, of memory and
    /// of the writer.
    ghost own_faults: { Self → Fault → Type 0 };

    /// Runs the command. Its output goes to `out`.
    fn run<R: Threads + Wait + Sync, F: Inputs, W: Write>(
        &self,
        rt: &R,
        alloc: Global,
        files: &F,
        out: &mut W,
    ) -> Result<Status, Fault>
        requires { (is_layout P ≡ true) × IsSync R.row }
        ensures answered { answers self.now (scene (F.files files.now)
            (W.written out.old) (W.written out.new) (W.has_failed out.new)) result }
        ensures borne_out { IfErr result (IsBorneOut (paths self.now) (own_faults self.now)
            (scene (F.files files.now)
            (W.written out.old) (W.written out.new) (W.has_failed out.new))) }
        ensures done { IfOk result (λ status. is_done status ≡ true) }
        ensures untouched { IfErr result (λ fault. is_early fault ≡ true → out.new ≡ out.old) };
}
