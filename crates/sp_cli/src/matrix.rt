//! The command `spt matrix`, which writes the distance from each source in a list to each target in another.
ghost use denote.Param.Send.{IsSync};
ghost use Rattle.std.specs.Prelude.{◌≡◌, true, None, codes};
ghost use Rattle.sp_word.specs.Word.{is_layout};
ghost use Rattle.sp_cli.specs.Told.{LackPlaces};
ghost use Rattle.sp_cli.specs.Answers.{MatrixAnswers, list_paths};
ghost use Rattle.sp_options.specs.Lists.{AreListed, ListsNone};
ghost use Rattle.sp_cli.specs.Commands.{EndsAt, IsPlaced, IsUntouched};
ghost use Rattle.sp_cli.specs.Words.{matrix_rules};

use crate::answer::GraphAnswer;
use crate::by_handle;
use crate::context::{CommandContext, is_input, lacks_places};
use clap::{ArgMatches, Error};
use sp_command::{BuiltCommand, Command, Fault, FileKind, Inputs, after_help, graph_file};
use sp_device::Write;
use sp_jobs::{BatchError, BucketWidth, Progress, Summary, run_matrix_told};
use sp_options::{Lists, RunOptions};
use std::alloc::Global;
use std::sync::Wait;
use std::thread::Threads;

const WORKERS_LONG: &str = "\
The maximum number of threads, from 1 to 64 including the main thread,
or `all` for one per processor, at most 64: a good choice if they are
free. Each thread finds the lines of a different source. No more
threads are started than there are processors, and none for a small
graph. The output is the same for any number";

/// What the command `matrix` asks for.
#[derive(Drop)]
pub struct MatrixCommand<'a> {
    /// The sources and the targets.
    pub lists: Lists<'a>,
}

impl<'a> Command<'a> for MatrixCommand<'a> {
    ghost spelled = { codes "matrix" };

    ghost rules = { matrix_rules };

    ghost reads = { λ found given. AreListed found given.lists };

    ghost lacks = { ListsNone };

    ghost paths = { λ given. list_paths given.lists };

    const ABOUT: &'static str = "Write the distance from each source to each target";

    const LONG_ABOUT: &'static str = "\
Write the distance from each source to each target

The distance is the length of a shortest path from the source to the target. The
predecessor is the vertex before the target on a shortest path; if there are
several, the one with the smallest number. The run from a source goes no farther
than the targets require. The output is the same for any delta and any number of
workers.";

    const AFTER_HELP: &'static str = after_help!(
        "\
The graph and the sources are files as described in `spt tree --help`, and the
targets are in a file like that of the sources. With --source there is no file
of sources, and with --target no file of targets:
  spt matrix GR SOURCES TARGETS
  spt matrix GR TARGETS --source V ..
  spt matrix GR SOURCES --target V ..
  spt matrix GR --source V .. --target V ..
The files are read in the order in which they are named; all sources and then
all targets are checked before anything is written.

For each source, in the order of its list, and for each target, in the order of
its list, one line is written, as `spt pairs` writes it for that pair:
  d S T D P     target T has distance D and predecessor P from source S; S
                itself has 0 and 0
  x S V         T has no distance that fits (see --pred-bits), and V is the
                smallest vertex that is too far and has an arc from a vertex
                whose distance fits (exit status 4 at the end)
  n S T         T has no distance, and there is no such V: no path leads from S
                to T
The lines of a source are written as soon as they and those before them are
known.

It needs as much memory as `spt tree` does, plus 8 bytes per target, and another
28 bytes per target for each row that a worker is computing; the number of lines
does not matter.

Example: if diamond.gr is the graph of the example in `spt tree --help`, and
some.ss and all.ss have the lines
  p aux sp ss 2
  s 1
  s 4
and
  p aux sp ss 3
  s 4
  s 1
  s 4
the output of `spt matrix diamond.gr some.ss all.ss` is
  d 1 4 5 2
  d 1 1 0 0
  d 1 4 5 2
  d 4 4 0 0
  n 4 1
  d 4 4 0 0
and that of `spt matrix diamond.gr some.ss --target 4` is
  d 1 4 5 2
  d 4 4 0 0

An error in a file is reported with its line, as in
`spt: targets: line 2: 7 TooFew`; FILE is gr, ss or targets:
",
        faults: "  6 TooMany        more than M arcs or K sources or targets
  7 TooFew         fewer than M arcs or K sources or targets
",
        others: "\
Other errors are
  spt: FILE: cannot open             (exit status 6)
  spt: delta out of range            it does not fit in a word (see --pred-bits)
                                     (exit status 1)
  spt: standard input twice          two of the files are `-` (exit status 1)
  spt: output is an input            -o names one of the files (exit status 1)
  spt: sources are not A-B           A and B are numbers, 1 <= A <= B
                                     (exit status 1)
  spt: source V: no such vertex      the first source above N, else the first
                                     target; nothing is written (exit status 2)
  spt: memory                        part of the output may have been written
                                     (exit status 5)
  spt: write failed                  part of the output may have been written
                                     (exit status 6)
",
        statuses:
            0 "done"
            1 "the command line is wrong, or delta is out of range"
            2 "a file is refused, or a source or target is not a vertex"
            4 "for some line a vertex is too far (without --far-ok); all is written";
            "a file" "the output"
    );

    fn word() -> &'static str
        ensures { result.now ≡ codes "matrix" }
    {
        "matrix"
    }

    fn add_arguments(command: clap::Command<'a>, alloc: Global) -> BuiltCommand<'a> {
        let command = command.arg(graph_file(alloc))?;
        RunOptions::add_with_mean(Lists::add_to(command, alloc)?, alloc, WORKERS_LONG)
    }

    fn read(alloc: Global, given: &ArgMatches<'a>) -> Result<Option<Self>, Error> {
        let Some(lists) = Lists::read(alloc, given)? else {
            return Ok(None);
        };
        Ok(Some(MatrixCommand { lists }))
    }

    fn path_of(&self, file: FileKind) -> Option<&'a str> {
        match file {
            FileKind::Sources => self.lists.sources.path(),
            FileKind::Targets => self.lists.targets.path(),
            _ => None,
        }
    }
}

impl<const P: u32> GraphAnswer<P> for MatrixCommand<'_> {
    ghost paths = { λ given. list_paths given.lists };

    ghost within = { λ _. None };

    ghost placeless = { λ given. LackPlaces given.lists.sources };

    ghost answers = { λ given. MatrixAnswers P given.lists };

    fn limit(&self) -> Result<Option<u64>, Fault> {
        Ok(None)
    }

    fn lacks_places(&self) -> bool {
        lacks_places(&self.lists.sources)
    }

    fn is_input(&self, file: FileKind) -> bool {
        match file {
            FileKind::Sources => is_input(&self.lists.sources),
            FileKind::Targets => is_input(&self.lists.targets),
            _ => false,
        }
    }

    fn answer<R: Threads + Wait + Sync, F: Inputs, W: Write>(
        &self,
        rt: &R,
        alloc: Global,
        place: &CommandContext<'_, F>,
        width: BucketWidth<P>,
        out: &mut W,
    ) -> Result<Result<Summary, BatchError>, Fault>
        requires run { (is_layout P ≡ true) × IsSync R.row }
        requires limit { IsPlaced P None place.now }
        ensures answered { EndsAt F.files (list_paths self.now.lists) None
            (MatrixAnswers P self.now.lists)
            place.now W.Write out.old out.new result }
        ensures untouched { IsUntouched out.old out.new result }
    {
        let mut gr = place.open_graph()?;
        let sources = place.open_list(FileKind::Sources, &self.lists.sources)?;
        let targets = place.open_list(FileKind::Targets, &self.lists.targets)?;
        let settings = place.settings::<P>(width);
        by_handle!(rt, settings, handle => Ok(run_matrix_told(
            handle, alloc, &mut gr, sources, targets, out, &settings,
        )))
    }

    fn progress(written: Summary, count: usize) -> Progress {
        Progress::Lines { written, count }
    }
}
