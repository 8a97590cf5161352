//! A whole run of the program.
ghost use Rattle.std.specs.Prelude.{◌≡◌, ◌≤◌, true, false, IfOk, IfErr, MatchOption, MatchResult};
ghost use Rattle.clap.specs.Walk.{texts};
ghost use Rattle.sp_command.specs.Causes.{IsSpared, MayBeOutput, SparesInputs};
ghost use Rattle.sp_command.specs.Faults.{is_done, is_early};
ghost use Rattle.sp_command.specs.Scene.{scene};
ghost use Rattle.sp_command.specs.declared.faults.Fault.TheVariants.{WriteFailed};
ghost use Rattle.sp_order.specs.declared.hints.Telling.TheVariants.{Nothing};
ghost use Rattle.sp_order.specs.Orders.{IsCarriedOut, IsObeyed, RunsApart, RunsInto, obeying};
ghost use Rattle.sp_order.specs.Told.{EndsWith, IsAnswered};
ghost use Rattle.sp_order.specs.Words.{names_output};

use crate::hints::Refusal;
use crate::order::{Order, UsageText, read_order};
use sp_command::{Commands, Fault, FileKind, Inputs, Outputs, PredBits, RunIn, Status, print};
use sp_device::Write;
use std::alloc::Global;
use std::fmt::Display;
use std::sync::Wait;
use std::thread::Threads;

/// Runs the command that the words name, and returns the exit status. The first word is the program's name. Help and
/// the version are shown as a `T`, which is made from the error of `clap`. The command's output goes to `out`, or to
/// the file that the words name for it. The text of a fault goes to `err`; a failure to write it changes no status.
pub fn run_line<'a, C, T, R: Threads + Wait + Sync, F: Outputs, W: Write, E: Write>(
    rt: &R,
    alloc: Global,
    words: &'a [&'a str],
    files: &mut F,
    out: &mut W,
    err: &mut E,
) -> u8
where
    C: Commands<'a> + RunIn,
    T: UsageText,
    ensures range { result ≤ 6 }
    ensures silent { result ≡ 0 → err.new ≡ err.old }
    ensures silent_no { result ≡ 3 → err.new ≡ err.old }
    ensures silent_far { result ≡ 4 → err.new ≡ err.old }
    ensures unwritten { 1 ≤ result → result ≤ 2 → out.new ≡ out.old }
    ensures obeyed { IsAnswered (obeying C.Commands C.runs T.from_gives T.output) (texts words.now)
        (scene (F.files files.old)
        (W.written out.old) (W.written out.new) (W.has_failed out.new))
        (F.outputs files.old) (F.outputs files.new)
        E.Write err.old err.new result }
{
    let answer = obey::<C, T, R, F, W>(rt, alloc, words, files, out);
    tell_end(&answer, err).code()
}

// Reports the fault of an answer, if it has one, and returns the exit status.
fn tell_end<E: Write>(answer: &Result<Status, Refusal<'_>>, err: &mut E) -> Status
    ensures silent { is_done result ≡ true → err.new ≡ err.old }
    ensures told { EndsWith E.Write answer.now err.old err.new result }
{
    match answer {
        Ok(status) => *status,
        Err(refusal) => {
            refusal.tell(err);
            refusal.fault.status()
        }
    }
}

fn obey<'a, C, T, R: Threads + Wait + Sync, F: Outputs, W: Write>(
    rt: &R,
    alloc: Global,
    words: &'a [&'a str],
    files: &mut F,
    out: &mut W,
) -> Result<Status, Refusal<'a>>
where
    C: Commands<'a> + RunIn,
    T: UsageText,
    ensures done { IfOk result (λ status. is_done status ≡ true) }
    ensures untouched { IfErr result
        (λ refusal. is_early refusal.fault ≡ true → out.new ≡ out.old) }
    ensures unread { IfErr result
        (λ refusal. refusal.telling ≡ Nothing → refusal.fault ≡ WriteFailed) }
    ensures obeyed { let obeyed = IsObeyed
        (obeying C.Commands C.runs T.from_gives T.output) (texts words.now)
        (scene (F.files files.old)
        (W.written out.old) (W.written out.new) (W.has_failed out.new))
        (F.outputs files.old) (F.outputs files.new)
        in MatchResult result
        (λ status. obeyed (Ok status)) (λ refusal. obeyed (Err refusal.fault)) }
{
    let order: Order<'a, C, T> = read_order(alloc, words)?;
    match carry_out(rt, alloc, &order, files, out) {
        Ok(status) => Ok(status),
        Err(fault) => Err(Refusal::new(fault, &order, files)),
    }
}

// Carries out the order. If it names an output file, nothing is written to `out`.
fn carry_out<'a, C, T: Display, R: Threads + Wait + Sync, F: Outputs, W: Write>(
    rt: &R,
    alloc: Global,
    order: &Order<'a, C, T>,
    files: &mut F,
    out: &mut W,
) -> Result<Status, Fault>
where
    C: Commands<'a> + RunIn,
    ensures done { IfOk result (λ status. is_done status ≡ true) }
    ensures untouched { IfErr result (λ fault. is_early fault ≡ true → out.new ≡ out.old) }
    ensures elsewhere { names_output order.now ≡ true → out.new ≡ out.old }
    ensures carried { IsCarriedOut C.runs C.paths T.output
        order.now (scene (F.files files.old)
        (W.written out.old) (W.written out.new) (W.has_failed out.new))
        (F.outputs files.old) (F.outputs files.new) result }
{
    match order {
        Order::Show(text) => match print(out, text) {
            Ok(()) => Ok(Status::Done),
            Err(fault) => Err(fault),
        },
        Order::Run {
            command,
            pred_bits,
            output: None,
            ..
        } => command.run_in(*pred_bits, rt, alloc, files, out),
        Order::Run {
            command,
            pred_bits,
            output: Some(path),
            ..
        } => run_apart(rt, alloc, command, *pred_bits, files, path),
    }
}

// Runs a command, with its output in a file that is none of its inputs.
fn run_apart<'a, C, R: Threads + Wait + Sync, F: Outputs>(
    rt: &R,
    alloc: Global,
    command: &C,
    pred_bits: PredBits,
    files: &mut F,
    path: &str,
) -> Result<Status, Fault>
where
    C: Commands<'a> + RunIn,
    ensures done { IfOk result (λ status. is_done status ≡ true) }
    ensures into { RunsApart C.runs C.paths
        pred_bits command.now path.now (F.files files.old)
        (F.outputs files.old) (F.outputs files.new) result }
    ensures inputs { F.files files.new ≡ F.files files.old }
{
    match input_of(command, path, files) {
        Some(file) => Err(Fault::OutputIsInput(file)),
        None => run_into(rt, alloc, command, pred_bits, files, path),
    }
}

// Runs a command, with its output in a file that gets its name once the command is done.
#[tactic(auto, using(crate::proofs::Begun::ended_begun))]
fn run_into<C, R: Threads + Wait + Sync, F: Outputs>(
    rt: &R,
    alloc: Global,
    command: &C,
    pred_bits: PredBits,
    files: &mut F,
    path: &str,
) -> Result<Status, Fault>
where
    C: RunIn,
    ensures done { IfOk result (λ status. is_done status ≡ true) }
    ensures into { RunsInto C.runs
        pred_bits command.now path.now (F.files files.old)
        (F.outputs files.old) (F.outputs files.new) result }
    ensures inputs { F.files files.new ≡ F.files files.old }
{
    let Some((name, mut output)) = files.create(alloc, path)? else {
        return Err(Fault::CannotWrite);
    };
    match command.run_in(pred_bits, rt, alloc, files, &mut output) {
        Ok(status) => match files.keep(name, output) {
            Ok(()) => Ok(status),
            Err(_) => Err(Fault::CannotWrite),
        },
        Err(fault) => {
            files.discard(name, output);
            Err(fault)
        }
    }
}

// Returns which input file of a command this output path leads to, if there is one.
#[tactic(auto, using(crate::proofs::Apart::spares_all))]
fn input_of<'a, C: Commands<'a>, F: Inputs>(
    command: &C,
    output: &str,
    files: &F,
) -> Option<FileKind>
    ensures { MatchOption result (SparesInputs (C.paths command.now) (F.files files.now) output.now)
        (MayBeOutput (C.paths command.now) (F.files files.now) output.now) }
{
    if is_output(command, FileKind::Graph, output, files) {
        Some(FileKind::Graph)
    } else if is_output(command, FileKind::Sources, output, files) {
        Some(FileKind::Sources)
    } else if is_output(command, FileKind::Targets, output, files) {
        Some(FileKind::Targets)
    } else if is_output(command, FileKind::Pairs, output, files) {
        Some(FileKind::Pairs)
    } else if is_output(command, FileKind::Tree, output, files) {
        Some(FileKind::Tree)
    } else if is_output(command, FileKind::Replay, output, files) {
        Some(FileKind::Replay)
    } else if is_output(command, FileKind::Offers, output, files) {
        Some(FileKind::Offers)
    } else {
        None
    }
}

// Returns whether a command has an input file of this kind, and this output path leads to it.
#[tactic(auto, using(crate::proofs::Apart::is_one, crate::proofs::Apart::is_other, crate::proofs::Apart::has_none))]
fn is_output<'a, C: Commands<'a>, F: Inputs>(
    command: &C,
    file: FileKind,
    output: &str,
    files: &F,
) -> bool
    ensures same { result ≡ true
        → MayBeOutput (C.paths command.now) (F.files files.now) output.now file }
    ensures other { result ≡ false
        → IsSpared (C.paths command.now) (F.files files.now) output.now file }
{
    match command.path(file) {
        Some(path) => files.is_same_file(output, path),
        None => false,
    }
}
