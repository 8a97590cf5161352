//! A whole run of the program.
ghost use Rattle.std.specs.Prelude.{◌≡◌, ◌≤◌};
ghost use Rattle.sp_command.specs.Scene.{scene};
ghost use Rattle.clap.specs.Walk.{texts};
ghost use Rattle.sp_order.specs.Orders.{obeying};
ghost use Rattle.sp_order.specs.Told.{IsAnswered};

use crate::commands::AnyCommand;
use clap::Error;
use sp_command::{Commands, Outputs, RunIn};
use sp_device::Write;
use sp_order::run_line;
use std::alloc::Global;
use std::fmt::Display;
use std::sync::Wait;
use std::thread::Threads;

/// Runs the command that the words name, and returns the exit status. The first word is the program's name. The
/// command's output goes to `out`, or to the file that the words name for it. The text of a fault goes to `err`; a
/// failure to write it changes no status.
pub fn run_command<R: Threads + Wait + Sync, F: Outputs, W: Write, E: Write>(
    rt: &R,
    alloc: Global,
    words: &[&str],
    files: &mut F,
    out: &mut W,
    err: &mut E,
) -> u8
    ensures range { result ≤ 6 }
    ensures silent { result ≡ 0 → err.new ≡ err.old }
    ensures silent_no { result ≡ 3 → err.new ≡ err.old }
    ensures silent_far { result ≡ 4 → err.new ≡ err.old }
    ensures unwritten { 1 ≤ result → result ≤ 2 → out.new ≡ out.old }
    ensures obeyed { IsAnswered (obeying ⟦<AnyCommand<'static> as Commands<'static>>⟧
        ⟦<AnyCommand<'static> as RunIn>⟧.runs
        ⟦<Error as From<Error>>⟧.from_gives ⟦<Error as Display>⟧.output) (texts words.now)
        (scene (F.files files.old)
        (W.written out.old) (W.written out.new) (W.has_failed out.new))
        (F.outputs files.old) (F.outputs files.new)
        E.Write err.old err.new result }
{
    run_line::<AnyCommand<'_>, Error, R, F, W, E>(rt, alloc, words, files, out, err)
}
