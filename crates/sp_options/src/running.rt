//! The options for runs from sources, the reports of their progress, and the way in which they end.
ghost use Rattle.std.specs.Prelude.{◌≡◌, ◌∷◌, ℕ, true, List, Some, Ok, Err, codes, IfOk, IfErr, MatchOption, MatchResult};
ghost use Rattle.sp_word.specs.Word.{is_layout};
ghost use Rattle.clap.specs.Matches.{found_of};
ghost use Rattle.sp_options.specs.Ends.{end_after, end_of, fault_of};
ghost use Rattle.clap.specs.Walk.{rule_of};
ghost use Rattle.sp_command.specs.Rules.{AddsRules, flag_rule};
ghost use Rattle.sp_options.specs.Rules.{mean_rule, running_rules, width_rule};
ghost use Rattle.sp_options.specs.Running.{IsAskedFor, LacksOptions};
ghost use Rattle.sp_options.specs.Width.{bucket_of, IsBucket};
ghost use Rattle.sp_command.specs.declared.faults.Fault.TheVariants.{DeltaOutOfRange};

use crate::directions::{add_directions, read_direction};
use crate::flags::flag_in;
use crate::width::Width;
use crate::workers::{WORKERS, read_workers, workers_option};
use clap::{Arg, ArgMatches, Command, Error};
use sp_command::{BuiltCommand, Fault, FileKind, Inputs, ProgressReport, Status, flag};
use sp_jobs::{BatchError, Listener, Progress, Role, Settings, Summary};
use sp_network::{Direction, NetworkFault};
use sp_word::{Meter, Workers};
use std::alloc::Global;

/// The options of a command that runs from sources, as the command line gives them.
///
/// They don't depend on the layout of a word. `settings` resolves them for the layout in which the command runs.
#[derive(Drop)]
pub struct RunOptions {
    // The width of a bucket.
    width: Width,
    // The greatest number of threads, including the main thread.
    workers: Workers,
    /// The direction of the graph's arcs, relative to its file.
    pub direction: Direction,
    /// Whether the exit status is 0 even if a vertex is too far.
    pub far_ok: bool,
    // Whether progress is reported.
    progress: bool,
}

impl RunOptions {
    /// Adds these options to a command. Its help adds the text `workers` about the number of threads.
    pub fn add_to<'a>(command: Command<'a>, alloc: Global, workers: &'a str) -> BuiltCommand<'a>
        ensures { IfOk result (AddsRules command.entry (width_rule ∷ running_rules)) }
    {
        Self::add_rest(command.arg(Width::option(alloc))?, alloc, workers)
    }

    /// Adds the same options to a command that uses the mean length as the width if none is given.
    pub fn add_with_mean<'a>(
        command: Command<'a>,
        alloc: Global,
        workers: &'a str,
    ) -> BuiltCommand<'a>
        ensures { IfOk result (AddsRules command.entry (mean_rule ∷ running_rules)) }
    {
        Self::add_rest(command.arg(Width::option_or_mean(alloc))?, alloc, workers)
    }

    // Adds the options that follow the width.
    fn add_rest<'a>(command: Command<'a>, alloc: Global, workers: &'a str) -> BuiltCommand<'a>
        ensures { IfOk result (AddsRules command.entry running_rules) }
    {
        add_directions(command, alloc)?
            .arg(workers_option(alloc, workers))?
            .arg(Self::far_ok(alloc))?
            .arg(Self::progress(alloc))
    }

    fn far_ok<'a>(alloc: Global) -> Arg<'a>
        ensures { rule_of result ≡ flag_rule (codes "far-ok") }
    {
        let about = "Exit with status 0 even if a vertex is too far";
        flag(alloc, "far-ok", about)
    }

    fn progress<'a>(alloc: Global) -> Arg<'a>
        ensures { rule_of result ≡ flag_rule (codes "progress") }
    {
        let about = "Report progress on standard error";
        flag(alloc, "progress", about)
    }

    /// Reads the options from what `clap` has found. If the width or the number of workers is invalid, the result is
    /// the error with which `clap` says so. If one of them is missing, the result is `None`.
    pub fn read(alloc: Global, given: &ArgMatches<'_>) -> Result<Option<Self>, Error>
        ensures read { IfOk result (λ found. MatchOption found
            (LacksOptions (found_of given.now)) (IsAskedFor (found_of given.now))) }
        ensures refused { IfErr result (λ _. LacksOptions (found_of given.now)) }
    {
        let (Some(delta), Some(crew)) = (given.get_str(Width::ID), given.get_str(WORKERS)) else {
            return Ok(None);
        };
        let Some(width) = Width::read(alloc, delta)? else {
            return Ok(None);
        };
        let Some(workers) = read_workers(alloc, crew)? else {
            return Ok(None);
        };
        Ok(Some(RunOptions {
            width,
            workers,
            direction: read_direction(given),
            far_ok: flag_in(given, "far-ok"),
            progress: flag_in(given, "progress"),
        }))
    }

    /// Returns the settings of a job with this listener, or a fault if the width is greater than the greatest distance
    /// in words with `P` bits of predecessor.
    pub fn settings<'a, const P: u32, L>(
        &self,
        listener: &'a L,
    ) -> Result<Settings<'a, P, L>, Fault>
        requires { is_layout P ≡ true }
        ensures exactly { MatchResult result (λ _. IsBucket P self.now.width)
            (λ fault. ¬ (IsBucket P self.now.width) × (fault ≡ DeltaOutOfRange)) }
        ensures width { IfOk result (λ settings. settings.width ≡ bucket_of self.now.width) }
        ensures workers { IfOk result (λ settings. settings.workers ≡ self.now.workers) }
        ensures direction { IfOk result (λ settings. settings.direction ≡ self.now.direction) }
        ensures listener { IfOk result (λ settings. settings.listener.now ≡ listener.now) }
    {
        let Some(width) = self.width.bucket::<P>() else {
            return Err(Fault::DeltaOutOfRange);
        };
        Ok(Settings {
            direction: self.direction,
            width,
            workers: self.workers,
            listener,
        })
    }

    /// Returns a reporter that reports progress to the files of the command line, if the options ask for it.
    pub fn reporter<'f, F: Inputs>(&self, files: &'f F) -> ProgressReporter<'f, F> {
        ProgressReporter::new(files, self.progress)
    }

    /// Returns how a command ends after its batch gave this answer.
    pub fn end_of(&self, answer: Result<Summary, BatchError>) -> Result<Status, Fault>
        ensures { result ≡ end_after self.now.far_ok answer }
    {
        match answer {
            Ok(summary) => Ok(status_after(summary, self.far_ok)),
            Err(error) => Err(fault_of(error)),
        }
    }
}

/// A listener that reports the progress of a run to the files of a command line.
pub struct ProgressReporter<'f, F> {
    files: &'f F,
    is_asked: bool,
}

impl<F> Drop for ProgressReporter<'_, F> {
    fn drop(self) {
        let ProgressReporter {
            files: _,
            is_asked: _,
        } = self;
    }
}

impl<'f, F: Inputs> ProgressReporter<'f, F> {
    /// Returns a reporter that reports progress to these files, if it is asked for.
    pub fn new(files: &'f F, is_asked: bool) -> Self {
        ProgressReporter { files, is_asked }
    }

    /// Reports progress, if it was asked for.
    pub fn tell(&self, report: ProgressReport) {
        if self.is_asked {
            self.files.tell(report);
        }
    }
}

impl<F: Inputs> Listener for ProgressReporter<'_, F> {
    fn hear(&self, progress: Progress) {
        self.tell(report_of(progress));
    }

    fn meter(&self) -> Option<&Meter> {
        if self.is_asked {
            self.files.meter()
        } else {
            None
        }
    }
}

// Returns the report for a batch's progress.
fn report_of(progress: Progress) -> ProgressReport {
    match progress {
        Progress::Graph { vertices, arcs } => ProgressReport::Graph {
            vertices,
            arcs: arcs as u64,
        },
        Progress::Sources { written, count } => ProgressReport::Sources {
            done: written.sources,
            count: count as u64,
            bytes: written.bytes,
        },
        Progress::Runs { written, count } => ProgressReport::Runs {
            done: written.sources,
            count: count as u64,
            bytes: written.bytes,
        },
        Progress::Lines { written, count } => ProgressReport::Lines {
            done: written.sources,
            count: count as u64,
            bytes: written.bytes,
        },
        Progress::Pairs { found, count } => ProgressReport::Pairs {
            done: found as u64,
            count: count as u64,
        },
    }
}

// Returns the exit status of a command that has written all answers.
fn status_after(summary: Summary, far_ok: bool) -> Status
    ensures { result ≡ end_of far_ok summary }
{
    if far_ok || summary.too_far == 0 {
        Status::Done
    } else {
        Status::TooFar
    }
}

/// Returns the fault that stands for an error of a batch.
pub fn fault_of(error: BatchError) -> Fault
    ensures { result ≡ fault_of error }
{
    match error {
        BatchError::Gr(NetworkFault::Text(error)) => FileKind::Graph.fault(error),
        BatchError::Gr(NetworkFault::Packed(error)) => Fault::Packed(error),
        BatchError::Ss(error) => FileKind::Sources.fault(error),
        BatchError::Targets(error) => FileKind::Targets.fault(error),
        BatchError::Pairs(error) => FileKind::Pairs.fault(error),
        BatchError::NoSuchVertex(number, Role::Source) => {
            Fault::NoSuchVertex(number, FileKind::Sources)
        }
        BatchError::NoSuchVertex(number, Role::Target) => {
            Fault::NoSuchVertex(number, FileKind::Targets)
        }
        BatchError::Memory => Fault::Memory,
        BatchError::Write => Fault::WriteFailed,
    }
}
