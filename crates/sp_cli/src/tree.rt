//! The command `spt tree`, which writes the shortest-path tree of each source in a list.
ghost use denote.Param.Send.{IsSync};
ghost use Rattle.std.specs.Prelude.{◌≡◌, true, codes};
ghost use Rattle.sp_word.specs.Word.{is_layout};
ghost use Rattle.sp_cli.specs.Told.{LackPlaces};
ghost use Rattle.sp_cli.specs.Answers.{TreeAnswers, source_paths};
ghost use Rattle.sp_cli.specs.Commands.{EndsAt, IsPlaced, IsUntouched};
ghost use Rattle.sp_cli.specs.Words.{AreNamedWithin, LacksSources, tree_rules};

use crate::answer::GraphAnswer;
use crate::by_handle;
use crate::context::{CommandContext, is_input, lacks_places};
use clap::{ArgMatches, Error};
use sp_command::{BuiltCommand, Command, Fault, FileKind, Inputs, after_help, graph_file};
use sp_device::Write;
use sp_jobs::{BatchError, BucketWidth, Progress, Summary, run_batch_told};
use sp_options::{RunOptions, Sources, Within};
use std::alloc::Global;
use std::sync::Wait;
use std::thread::Threads;

const WORKERS_LONG: &str = "\
The maximum number of threads, from 1 to 64 including the main thread,
or `all` for one per processor, at most 64: a good choice if they are
free. All threads work on one tree, or each on its own tree if there
are several sources. No more threads are started than there are
processors, and none for a small graph. The output is the same for any
number";

/// What the command `tree` asks for.
#[derive(Drop)]
pub struct TreeCommand<'a> {
    /// The sources whose trees are written.
    pub sources: Sources<'a>,
    /// The greatest distance to report, if there is one.
    pub within: Within,
}

impl<'a> Command<'a> for TreeCommand<'a> {
    ghost spelled = { codes "tree" };

    ghost rules = { tree_rules };

    ghost reads = { λ found tree. AreNamedWithin found tree.sources tree.within.limit };

    ghost lacks = { LacksSources };

    ghost paths = { λ tree. source_paths tree.sources };

    const ABOUT: &'static str = "Write the shortest-path tree of each source";

    const LONG_ABOUT: &'static str = "\
Write the shortest-path tree of each source

The distance of a vertex is the length of a shortest path from the source. Its
predecessor is the vertex before it on a shortest path; if there are several,
the one with the smallest number. So each source has exactly one tree, and the
output is the same for any delta and any number of workers.";

    const AFTER_HELP: &'static str = after_help!(
        "\
The graph is a .gr file of the Ninth DIMACS Implementation Challenge, with its
fields separated by blanks:
  p sp N M      there are N vertices, numbered from 1, and M arcs, M at most
                1073741824; it comes first, and only once. N is at most the
                greatest predecessor that fits (see --pred-bits)
  a U V W       an arc from U to V of length W, 1 to 4294967295; there are M of
                these lines
  c ...         a comment; so is a blank line
or a packed file (see `spt pack --help`), which loads faster. With --both-ways,
M is at most 536870912.
The sources are in a .ss file:
  p aux sp ss K there are K sources, at most 1048576; it comes first, and only
                once
  s V           a source; there are K of these lines
  c ...         a comment; so is a blank line
Both files are read, the graph first, and all sources are checked, before
anything is written. One of them may be `-` for standard input.

For each source, in the order of the file, a block is written:
  p spt N S     the tree of source S, over N vertices
  v V D P       vertex V has distance D and predecessor P (0 and 0 for the
                source), in ascending order of V; a vertex that no path leads to
                has no line
  e R           the number of v lines is R
or, if a vertex is too far, that is, its distance does not fit (see
--pred-bits), one line with the smallest such V that has an arc from a vertex
whose distance fits (exit status 4 at the end):
  x S V
With --within L, a block has only the vertices at distances up to L, and there
are no x lines. With --towards, D is the length of a shortest path from V to S,
and P is the vertex after V on it.

It needs at most 28 bytes of memory per vertex, 24 per arc and 8 per source,
plus 4 MB; for several sources, another 32 bytes per vertex; if several workers
run these, another 16 bytes per vertex and the text of two trees a worker.

Example: if diamond.gr and diamond.ss have the lines
  p sp 4 5
  a 1 2 3
  a 1 3 3
  a 2 4 2
  a 3 4 2
  a 1 4 6
and
  p aux sp ss 1
  s 1
the output of `spt tree diamond.gr diamond.ss --delta 3` is
  p spt 4 1
  v 1 0 0
  v 2 3 1
  v 3 3 1
  v 4 5 2
  e 4
and with --within 3 it is
  p spt 4 1
  v 1 0 0
  v 2 3 1
  v 3 3 1
  e 3

An error in a file is reported with its line, as in
`spt: gr: line 2: 5 OutOfRange V`; FILE is gr or ss. An error in a packed graph
is reported with its byte, as `spt pack --help` describes:
",
        faults: "  6 TooMany        more than M arcs or K sources
  7 TooFew         fewer than M arcs or K sources
",
        others: "\
Other errors are
  spt: FILE: cannot open             (exit status 6)
  spt: delta out of range            it does not fit in a word (see --pred-bits)
                                     (exit status 1)
  spt: limit out of range            it does not fit in a word (see --pred-bits)
                                     (exit status 1)
  spt: standard input twice          both files are `-` (exit status 1)
  spt: output is an input            -o names one of the files (exit status 1)
  spt: sources are not A-B           A and B are numbers, 1 <= A <= B
                                     (exit status 1)
  spt: source V: no such vertex      the first source above N; nothing is
                                     written (exit status 2)
  spt: memory                        part of the output may have been written
                                     (exit status 5)
  spt: write failed                  part of the output may have been written
                                     (exit status 6)
",
        statuses:
            0 "done"
            1 "the command line is wrong, or delta or the limit is out of range"
            2 "a file is refused, or a source is not a vertex"
            4 "for some source a vertex is too far (without --far-ok); all is written";
            "a file" "the output"
    );

    fn word() -> &'static str
        ensures { result.now ≡ codes "tree" }
    {
        "tree"
    }

    fn add_arguments(command: clap::Command<'a>, alloc: Global) -> BuiltCommand<'a> {
        let command = command.arg(graph_file(alloc))?;
        let command = Sources::add_to(command, alloc)?.arg(Within::option(alloc))?;
        RunOptions::add_to(command, alloc, WORKERS_LONG)
    }

    fn read(alloc: Global, given: &ArgMatches<'a>) -> Result<Option<Self>, Error> {
        let Some(sources) = Sources::read(alloc, given)? else {
            return Ok(None);
        };
        let Some(within) = Within::read(alloc, given)? else {
            return Ok(None);
        };
        Ok(Some(TreeCommand { sources, within }))
    }

    fn path_of(&self, file: FileKind) -> Option<&'a str> {
        match file {
            FileKind::Sources => self.sources.path(),
            _ => None,
        }
    }
}

impl<const P: u32> GraphAnswer<P> for TreeCommand<'_> {
    ghost paths = { λ tree. source_paths tree.sources };

    ghost within = { λ tree. tree.within.limit };

    ghost placeless = { λ tree. LackPlaces tree.sources };

    ghost answers = { TreeAnswers P };

    fn limit(&self) -> Result<Option<u64>, Fault> {
        self.within.limit_for::<P>()
    }

    fn lacks_places(&self) -> bool {
        lacks_places(&self.sources)
    }

    fn is_input(&self, file: FileKind) -> bool {
        matches!(file, FileKind::Sources) && is_input(&self.sources)
    }

    fn answer<R: Threads + Wait + Sync, F: Inputs, W: Write>(
        &self,
        rt: &R,
        alloc: Global,
        place: &CommandContext<'_, F>,
        width: BucketWidth<P>,
        out: &mut W,
    ) -> Result<Result<Summary, BatchError>, Fault>
        requires run { (is_layout P ≡ true) × IsSync R.row }
        requires limit { IsPlaced P self.now.within.limit place.now }
        ensures answered { EndsAt F.files (source_paths self.now.sources)
            self.now.within.limit (TreeAnswers P self.now)
            place.now W.Write out.old out.new result }
        ensures untouched { IsUntouched out.old out.new result }
    {
        let mut gr = place.open_graph()?;
        let sources = place.open_list(FileKind::Sources, &self.sources)?;
        let settings = place.settings::<P>(width);
        by_handle!(rt, settings, handle => Ok(run_batch_told(
            handle, alloc, &mut gr, sources, place.limit, out, &settings,
        )))
    }

    fn progress(written: Summary, count: usize) -> Progress {
        Progress::Sources { written, count }
    }
}
