//! A run of a command whose words are known.
ghost use Rattle.std.specs.Prelude.{◌≡◌, ◌≤◌};
ghost use Rattle.clap.specs.Walk.{texts};
ghost use Rattle.sp_command.specs.Scene.{scene};
ghost use Rattle.sp_disk.specs.Found.{files_of};
ghost use Rattle.sp_disk.specs.Made.{outputs_of};
ghost use Rattle.sp_order.specs.Orders.{obeying};
ghost use Rattle.sp_program.specs.Ran.{IsCarriedBy};
ghost use denote.Param.Send.{IsSync};

use clap::Error;
use sp_command::{Commands, RunIn};
use sp_device::Write;
use sp_disk::{Disk, Screen, System};
use sp_order::run_line;
use std::fmt::Display;
use std::random::RandomSource;
use std::rt::Clock;
use std::sync::Wait;
use std::thread::{Threads, join_mut};

// Does some work while another thread shows its progress.
fn do_watched<R, G: FnMut() -> u8>(rt: &R, screen: &Screen<'_, R>, work: &mut G) -> u8
where
    R: Clock + Eprint + Threads + Wait + Sync,
    requires { G.pre work.old }
    ensures { G.step work.old result work.new }
{
    let mut watch = || screen.watch();
    join_mut(rt, &mut watch, work).1
}

/// Runs the command that the words order, and returns the exit status. If the words ask for progress, another thread
/// shows it during the run.
pub fn run_words<'a, C, T, R, S: System, W: Write, E: Write>(
    disk: &mut Disk<'_, R, S>,
    words: &'a [&'a str],
    out: &mut W,
    err: &mut E,
) -> u8
where
    C: Commands<'a> + RunIn,
    T: Display + From<Error> + Drop,
    R: AllocGlobal + Clock + Eprint + RandomSource + Threads + Wait + Sync,
    ensures range { result ≤ 6 }
    ensures silent { result ≡ 0 → err.new ≡ err.old }
    ensures silent_no { result ≡ 3 → err.new ≡ err.old }
    ensures silent_far { result ≡ 4 → err.new ≡ err.old }
    ensures unwritten { 1 ≤ result → result ≤ 2 → out.new ≡ out.old }
    ensures obeyed { IsCarriedBy (obeying C.Commands C.runs T.from_gives T.output) (texts words.now)
        (scene (files_of (S.found disk.old.system))
        (W.written out.old) (W.written out.new) (W.has_failed out.new))
        (outputs_of (S.made disk.old.system)) (outputs_of (S.made disk.new.system))
        E.Write err.old err.new result }
{
    let rt = disk.rt;
    let alloc = rt.alloc();
    if !words.contains(&"--progress") {
        return run_line::<C, T, R, Disk<'_, R, S>, W, E>(rt, alloc, words, disk, out, err);
    }
    let screen = disk.screen();
    let mut command = || -> u8
        requires { IsSync R.row }
        ensures range { result ≤ 6 }
        ensures silent { result ≡ 0 → err.exit.now ≡ err.entry.now }
        ensures silent_no { result ≡ 3 → err.exit.now ≡ err.entry.now }
        ensures silent_far { result ≡ 4 → err.exit.now ≡ err.entry.now }
        ensures unwritten { 1 ≤ result → result ≤ 2 → out.exit.now ≡ out.entry.now }
        ensures obeyed { IsCarriedBy (obeying C.Commands C.runs T.from_gives T.output)
            (texts words.entry.now)
            (scene (files_of (S.found disk.entry.now.system)) (W.written out.entry.now)
            (W.written out.exit.now) (W.has_failed out.exit.now))
            (outputs_of (S.made disk.entry.now.system)) (outputs_of (S.made disk.exit.now.system))
            E.Write err.entry.now err.exit.now result }
    {
        let status = run_line::<C, T, R, Disk<'_, R, S>, W, E>(rt, alloc, words, disk, out, err);
        screen.end_watch();
        status
    };
    // If no thread can be started, the watch comes last, and ends at once.
    do_watched(rt, &screen, &mut command)
}
