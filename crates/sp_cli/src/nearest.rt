//! The command `spt nearest`, which writes the distance from each vertex's nearest source, out of several.
ghost use denote.Param.Send.{IsSync};
ghost use Rattle.std.specs.Prelude.{◌≡◌, true, codes};
ghost use Rattle.sp_word.specs.Word.{is_layout};
ghost use Rattle.sp_cli.specs.Told.{LackPlaces};
ghost use Rattle.sp_cli.specs.Answers.{NearestAnswers, source_paths};
ghost use Rattle.sp_cli.specs.Commands.{EndsAt, IsPlaced, IsUntouched};
ghost use Rattle.sp_cli.specs.Words.{AreNamedWithin, LacksSources, nearest_rules};

use crate::answer::GraphAnswer;
use crate::by_handle;
use crate::context::{CommandContext, is_input, lacks_places};
use clap::{ArgMatches, Error};
use sp_command::{BuiltCommand, Command, Fault, FileKind, Inputs, after_help, graph_file};
use sp_device::Write;
use sp_jobs::{BatchError, BucketWidth, Progress, Summary, run_nearest_told};
use sp_options::{RunOptions, Sources, Within};
use std::alloc::Global;
use std::sync::Wait;
use std::thread::Threads;

const WORKERS_LONG: &str = "\
The maximum number of threads, from 1 to 64 including the main thread,
or `all` for one per processor, at most 64: a good choice if they are
free. All threads work on a single run. No more threads are started
than there are processors, and none for a small graph. The output is
the same for any number";

/// What the command `nearest` asks for.
#[derive(Drop)]
pub struct NearestCommand<'a> {
    /// The sources.
    pub sources: Sources<'a>,
    /// The greatest distance to report, if there is one.
    pub within: Within,
}

impl<'a> Command<'a> for NearestCommand<'a> {
    ghost spelled = { codes "nearest" };

    ghost rules = { nearest_rules };

    ghost reads = { λ found near. AreNamedWithin found near.sources near.within.limit };

    ghost lacks = { LacksSources };

    ghost paths = { λ near. source_paths near.sources };

    const ABOUT: &'static str = "Write the nearest source of each vertex";

    const LONG_ABOUT: &'static str = "\
Write the nearest source of each vertex

The distance of a vertex is the length of a shortest path from any of the
sources. Its predecessor is the vertex before it on such a path; if there are
several, the one with the smallest number. Its root is the source to which the
predecessors lead. The order of the sources does not matter, nor does naming one
more than once. The output is the same for any delta and any number of workers.";

    const AFTER_HELP: &'static str = after_help!(
        "\
The graph and the sources are files as described in `spt tree --help`. Both are
read, the graph first, and all sources are checked, before anything is written.
One of them may be `-` for standard input.

One block is written, the forest of all sources:
  p near N K    there are N vertices, and K sources, each counted once
  v V D P S     vertex V has distance D, predecessor P and root S (0, 0 and
                itself for a source), in ascending order of V; a vertex that no
                path leads to has no line
  e R           the number of v lines is R
or, if a vertex is too far, that is, its distance does not fit (see
--pred-bits), one line with the smallest such V that has an arc from a vertex
whose distance fits (exit status 4):
  x V
With --within L, vertices farther than L have no line, there is no x line, and
the run goes no farther.

It makes one run, and needs as much memory as `spt tree` does for one source,
plus at most 16 bytes per vertex and 12 per source.

Example: if diamond.gr is the graph of the example in `spt tree --help`, and
depots.ss has the lines
  p aux sp ss 2
  s 1
  s 3
the output of `spt nearest diamond.gr depots.ss` is
  p near 4 2
  v 1 0 0 1
  v 2 3 1 1
  v 3 0 0 3
  v 4 2 3 3
  e 4

An error in a file is reported with its line, as in
`spt: gr: line 2: 5 OutOfRange V`; FILE is gr or ss:
",
        faults: "  6 TooMany        more than M arcs or K sources
  7 TooFew         fewer than M arcs or K sources
",
        others: "\
Other errors are
  spt: FILE: cannot open             (exit status 6)
  spt: delta out of range            it does not fit in a word (see --pred-bits)
                                     (exit status 1)
  spt: limit out of range            it does not fit in a word (see --pred-bits)
                                     (exit status 1)
  spt: standard input twice          both files are `-` (exit status 1)
  spt: output is an input            -o names one of the files (exit status 1)
  spt: sources are not A-B           A and B are numbers, 1 <= A <= B
                                     (exit status 1)
  spt: source V: no such vertex      the first source above N; nothing is
                                     written (exit status 2)
  spt: memory                        nothing is written (exit status 5)
  spt: write failed                  part of the output may have been written
                                     (exit status 6)
",
        statuses:
            0 "done"
            1 "the command line is wrong, or delta or the limit is out of range"
            2 "a file is refused, or a source is not a vertex"
            4 "a vertex is too far (without --far-ok or --within); all is written";
            "a file" "the output"
    );

    fn word() -> &'static str
        ensures { result.now ≡ codes "nearest" }
    {
        "nearest"
    }

    fn add_arguments(command: clap::Command<'a>, alloc: Global) -> BuiltCommand<'a> {
        let command = command.arg(graph_file(alloc))?;
        let command = Sources::add_all_to(command, alloc)?.arg(Within::option(alloc))?;
        RunOptions::add_with_mean(command, alloc, WORKERS_LONG)
    }

    fn read(alloc: Global, given: &ArgMatches<'a>) -> Result<Option<Self>, Error> {
        let Some(sources) = Sources::read(alloc, given)? else {
            return Ok(None);
        };
        let Some(within) = Within::read(alloc, given)? else {
            return Ok(None);
        };
        Ok(Some(NearestCommand { sources, within }))
    }

    fn path_of(&self, file: FileKind) -> Option<&'a str> {
        match file {
            FileKind::Sources => self.sources.path(),
            _ => None,
        }
    }
}

impl<const P: u32> GraphAnswer<P> for NearestCommand<'_> {
    ghost paths = { λ near. source_paths near.sources };

    ghost within = { λ near. near.within.limit };

    ghost placeless = { λ near. LackPlaces near.sources };

    ghost answers = { NearestAnswers P };

    fn limit(&self) -> Result<Option<u64>, Fault> {
        self.within.limit_for::<P>()
    }

    fn lacks_places(&self) -> bool {
        lacks_places(&self.sources)
    }

    fn is_input(&self, file: FileKind) -> bool {
        matches!(file, FileKind::Sources) && is_input(&self.sources)
    }

    fn answer<R: Threads + Wait + Sync, F: Inputs, W: Write>(
        &self,
        rt: &R,
        alloc: Global,
        place: &CommandContext<'_, F>,
        width: BucketWidth<P>,
        out: &mut W,
    ) -> Result<Result<Summary, BatchError>, Fault>
        requires run { (is_layout P ≡ true) × IsSync R.row }
        requires limit { IsPlaced P self.now.within.limit place.now }
        ensures answered { EndsAt F.files (source_paths self.now.sources)
            self.now.within.limit (NearestAnswers P self.now)
            place.now W.Write out.old out.new result }
        ensures untouched { IsUntouched out.old out.new result }
    {
        let mut gr = place.open_graph()?;
        let sources = place.open_list(FileKind::Sources, &self.sources)?;
        let settings = place.settings::<P>(width);
        by_handle!(rt, settings, handle => Ok(run_nearest_told(
            handle, alloc, &mut gr, sources, place.limit, out, &settings,
        )))
    }

    fn progress(written: Summary, count: usize) -> Progress {
        Progress::Runs { written, count }
    }
}
