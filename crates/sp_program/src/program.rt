//! A whole run of the program.
ghost use Rattle.std.specs.Prelude.{◌≡◌, ◌≤◌, ◌⊎◌, IfOk, map, string_bytes};
ghost use Rattle.std.specs.Io.KnownBytes.{Appends};
ghost use Rattle.clap.specs.Walk.{texts};
ghost use Rattle.sp_command.specs.Outputs.{IsBlank};
ghost use Rattle.sp_command.specs.Scene.{scene};
ghost use Rattle.sp_command.specs.declared.faults.Fault.TheVariants.{Memory};
ghost use Rattle.sp_disk.specs.Found.{files_of};
ghost use Rattle.sp_disk.specs.Made.{outputs_of};
ghost use Rattle.sp_order.specs.Orders.{obeying};
ghost use Rattle.sp_order.specs.Told.{BreaksOff, IsFaultTold};
ghost use Rattle.sp_program.specs.Ran.{IsCarriedBy, IsRun, RanOn, unread_text};

use crate::running::run_words;
use clap::Error;
use sp_cli::AnyCommand;
use sp_command::{Commands, Fault, RunIn};
use sp_device::{Write, write_all};
use sp_disk::{Disk, Errors, Output, System};
use std::alloc::{AllocError, Global};
use std::fmt::Display;
use std::io::ErrorKind;
use std::random::RandomSource;
use std::rt::Clock;
use std::sync::Wait;
use std::thread::Threads;

// More of the main thread's stack than any command uses, in bytes.
const STACK: usize = 500_000;

/// Takes the main thread's stack, and returns whether two places are the same one. If memory is short, a stack that
/// grows later finds no room, and the system ends the program by a signal in the middle of its work.
#[inline(never)]
fn take_stack(one: usize, other: usize) -> bool {
    let mut room = [0u8; STACK];
    room[one % STACK] = 1;
    room[other % STACK] == 1
}

/// How a run of the program ended: its exit status, and the streams as it left them.
pub struct Ended<'a, R, S: System> {
    pub status: u8,
    pub out: Output<'a, R, S>,
    pub err: Errors<'a, R, S>,
}

impl<R, S: System> Drop for Ended<'_, R, S> {
    fn drop(self) {
        let Ended {
            status: _,
            out: _,
            err: _,
        } = self;
    }
}

/// Runs the command that the words of the system order, on the streams and the files of the system.
#[tactic(auto, using(crate::proofs::Leaving::ran_on))]
pub fn run_program<'a, R, S: System>(disk: &mut Disk<'a, R, S>) -> Ended<'a, R, S>
where
    R: AllocGlobal + Clock + Eprint + RandomSource + Threads + Wait + Sync,
    ensures range { result.status ≤ 6 }
    ensures silent { result.status ≡ 0
        → IsBlank (⟦<Errors<'a, R, S> as Write>⟧.written result.err) }
    ensures ran { RanOn (obeying ⟦<AnyCommand<'static> as Commands<'static>>⟧
        ⟦<AnyCommand<'static> as RunIn>⟧.runs
        ⟦<Error as From<Error>>⟧.from_gives ⟦<Error as Display>⟧.output)
        (S.given disk.old.system) (files_of (S.found disk.old.system))
        (outputs_of (S.made disk.old.system)) (outputs_of (S.made disk.new.system))
        ⟦<Output<'a, R, S> as Write>⟧ ⟦<Errors<'a, R, S> as Write>⟧
        result.out result.err result.status }
{
    let mut out = disk.standard_output();
    let mut err = disk.standard_error();
    let status = run(disk, &mut out, &mut err);
    disk.screen().end();
    Ended { status, out, err }
}

// Runs the command that the words of the system order, and returns the exit status.
fn run<R, S: System, W: Write, E: Write>(disk: &mut Disk<'_, R, S>, out: &mut W, err: &mut E) -> u8
where
    R: AllocGlobal + Clock + Eprint + RandomSource + Threads + Wait + Sync,
    ensures range { result ≤ 6 }
    ensures silent { result ≡ 0 → err.new ≡ err.old }
    ensures unwritten { 1 ≤ result → result ≤ 2 → out.new ≡ out.old }
    ensures obeyed { IsRun (obeying ⟦<AnyCommand<'static> as Commands<'static>>⟧
        ⟦<AnyCommand<'static> as RunIn>⟧.runs
        ⟦<Error as From<Error>>⟧.from_gives ⟦<Error as Display>⟧.output)
        (S.given disk.old.system)
        (scene (files_of (S.found disk.old.system))
        (W.written out.old) (W.written out.new) (W.has_failed out.new))
        (outputs_of (S.made disk.old.system)) (outputs_of (S.made disk.new.system))
        E.Write err.old err.new result }
{
    match disk.system.words(disk.rt.alloc()) {
        Ok(given) => run_given(disk, &given, out, err),
        Err(error) if error.kind() == ErrorKind::OutOfMemory => tell_memory(err),
        Err(_) => tell_unread(err),
    }
}

// Runs the command that these words order, and returns the exit status.
fn run_given<R, S: System, W: Write, E: Write>(
    disk: &mut Disk<'_, R, S>,
    given: &[String],
    out: &mut W,
    err: &mut E,
) -> u8
where
    R: AllocGlobal + Clock + Eprint + RandomSource + Threads + Wait + Sync,
    ensures range { result ≤ 6 }
    ensures silent { result ≡ 0 → err.new ≡ err.old }
    ensures unwritten { 1 ≤ result → result ≤ 2 → out.new ≡ out.old }
    ensures obeyed { IsCarriedBy (obeying ⟦<AnyCommand<'static> as Commands<'static>>⟧
        ⟦<AnyCommand<'static> as RunIn>⟧.runs
        ⟦<Error as From<Error>>⟧.from_gives ⟦<Error as Display>⟧.output)
        (map string_bytes given.now)
        (scene (files_of (S.found disk.old.system))
        (W.written out.old) (W.written out.new) (W.has_failed out.new))
        (outputs_of (S.made disk.old.system)) (outputs_of (S.made disk.new.system))
        E.Write err.old err.new result }
{
    let Ok(words) = views(disk.rt.alloc(), given) else {
        return tell_memory(err);
    };
    if !take_stack(given.len(), words.len()) {
        return tell_memory(err);
    }
    run_words::<AnyCommand<'_>, Error, R, S, W, E>(disk, &words, out, err)
}

// Returns the texts of these words.
fn views(alloc: Global, words: &[String]) -> Result<Vec<&str>, AllocError>
    ensures { IfOk result (λ views. texts views.items ≡ map string_bytes words.now) }
{
    let mut views = Vec::new(alloc);
    for word in words {
        views.push(word.as_str())?;
    }
    Ok(views)
}

// Tells that memory was refused, and returns the exit status of that.
fn tell_memory<E: Write>(err: &mut E) -> u8
    ensures status { result ≡ 5 }
    ensures told { IsFaultTold E.Write Memory err.old err.new }
{
    let _ = Fault::Memory.write_line(err);
    Fault::Memory.status().code()
}

// Tells that the words can't be read, and returns the exit status of that.
#[tactic(auto, using(crate::proofs::Leaving::text_is_told))]
fn tell_unread<E: Write>(err: &mut E) -> u8
    ensures status { result ≡ 1 }
    ensures told { Appends (E.written err.old) (E.written err.new) unread_text
        ⊎ BreaksOff E.Write unread_text err.old err.new }
{
    let _ = write_all(
        err,
        b"spt: an argument is not UTF-8\nspt: use - and a redirection, as in spt tree - SS .. < GR > OUT\n",
    );
    1
}
