//! The command `spt pairs`, which writes the distance from source to target for each pair in a list.
ghost use denote.Param.Send.{IsSync};
ghost use Rattle.std.specs.Prelude.{◌≡◌, true, None, Some, codes};
ghost use Rattle.sp_word.specs.Word.{is_layout};
ghost use Rattle.sp_cli.specs.PairsAnswers.{PairsAnswers, PairsAnswersOf, pairs_paths};
ghost use Rattle.clap.specs.Matches.{first_value};
ghost use Rattle.sp_cli.specs.Commands.{EndsAt, IsPlaced, IsUntouched};
ghost use Rattle.sp_cli.specs.Words.{NamesPairs, pairs_rules};

use crate::answer::GraphAnswer;
use crate::by_handle;
use crate::context::CommandContext;
use clap::{ArgMatches, Error};
use sp_command::{
    BuiltCommand, Command, Fault, FileKind, Inputs, after_help, file, flag, graph_file,
};
use sp_device::Write;
use sp_jobs::{BatchError, BucketWidth, Progress, Summary};
use sp_options::{RunOptions, flag_in};
use sp_pairs::{PairAnswer, PairLine, RouteAnswer, run_pairs_told};
use std::alloc::Global;
use std::sync::Wait;
use std::thread::Threads;

// The flag that asks for routes.
const ROUTES: &str = "routes";

const WORKERS_LONG: &str = "\
The maximum number of threads, from 1 to 64 including the main thread,
or `all` for one per processor, at most 64: a good choice if they are
free. No more threads are started than there are processors, and none
for a small graph. The output is the same for any number";

/// What the command `pairs` asks for.
#[derive(Drop)]
pub struct PairsCommand<'a> {
    /// The path of the file of pairs.
    pub pairs: &'a str,
    /// Whether the route is written for each pair, in place of the predecessor.
    pub routes: bool,
}

impl<'a> Command<'a> for PairsCommand<'a> {
    ghost spelled = { codes "pairs" };

    ghost rules = { pairs_rules };

    ghost reads = { λ found given. NamesPairs found given.pairs.now given.routes };

    ghost lacks = { λ found. first_value found (codes "PAIRS") ≡ None };

    ghost paths = { pairs_paths };

    const ABOUT: &'static str = "Write the distance for each pair of source and target";

    const LONG_ABOUT: &'static str = "\
Write the distance for each pair of source and target

The distance is the length of a shortest path from the source to the target. The
predecessor is the vertex before the target on a shortest path; if there are
several, the one with the smallest number. There is one run for each source,
wherever its pairs are in the file, and it goes no farther than its targets
require. The output is the same for any delta and any number of workers.";

    const AFTER_HELP: &'static str = after_help!(
        "\
The graph is a file as described in `spt tree --help`. The pairs are in a
file of their own, with fields separated by blanks:
  p pairs K     there are K pairs, at most 1048576; it comes first, and only
                once
  q S T         a pair of source S and target T; there are K of these lines
  c ...         a comment; so is a blank line
Both files are read, the graph first; all numbers are checked and all answers
are found before anything is written.

For each pair, in the order of the file, one line is written:
  d S T D P     target T has distance D and predecessor P from source S; S
                itself has 0 and 0
  x S V         T has no distance that fits (see --pred-bits), and V is the
                smallest vertex that is too far and has an arc from a vertex
                whose distance fits (exit status 4 at the end)
  n S T         T has no distance, and there is no such V: no path leads from S
                to T

With --routes, a line of a pair that has a distance is
  r S T D V ..  the distance, and the vertices of the route, from S to T; of all
                shortest paths it is the one that takes the smallest vertex each
                time, read from T backwards

It needs at most as much memory as `spt tree` does for one source, plus 56 bytes
per pair; with --routes, plus 128 bytes per pair and 4 per vertex of each route.

Example: if diamond.gr is the graph of the example in `spt tree --help`, and
diamond.pairs has the lines
  p pairs 3
  q 1 4
  q 1 1
  q 4 1
the output of `spt pairs diamond.gr diamond.pairs --delta 3` is
  d 1 4 5 2
  d 1 1 0 0
  n 4 1
and with --routes it is
  r 1 4 5 1 2 4
  r 1 1 0 1
  n 4 1

An error in a file is reported with its line, as in
`spt: pairs: line 2: 7 TooFew`; FILE is gr or pairs:
",
        faults: "  6 TooMany        more than M arcs or K pairs
  7 TooFew         fewer than M arcs or K pairs
",
        others: "\
Other errors are
  spt: FILE: cannot open             (exit status 6)
  spt: delta out of range            it does not fit in a word (see --pred-bits)
                                     (exit status 1)
  spt: standard input twice          both files are `-` (exit status 1)
  spt: output is an input            -o names one of the files (exit status 1)
  spt: memory                        nothing is written (exit status 5)
  spt: write failed                  part of the output may have been written
                                     (exit status 6)
A number in a pair that is not a vertex is reported as `spt tree` reports such a
source: the first number above N, S before T; nothing is written.
",
        statuses:
            0 "done"
            1 "the command line is wrong, or delta is out of range"
            2 "a file is refused, or a source or target is not a vertex"
            4 "for some pair a vertex is too far (without --far-ok); all is written";
            "a file" "the output"
    );

    fn word() -> &'static str
        ensures { result.now ≡ codes "pairs" }
    {
        "pairs"
    }

    fn add_arguments(command: clap::Command<'a>, alloc: Global) -> BuiltCommand<'a> {
        let command = command
            .arg(graph_file(alloc))?
            .arg(file(alloc, "PAIRS", "The pairs, a file of lines q S T"))?
            .arg(flag(
                alloc,
                ROUTES,
                "Write the vertices of the route for each pair",
            ))?;
        RunOptions::add_to(command, alloc, WORKERS_LONG)
    }

    fn read(_alloc: Global, given: &ArgMatches<'a>) -> Result<Option<Self>, Error> {
        let Some(pairs) = given.get_str("PAIRS") else {
            return Ok(None);
        };
        let routes = flag_in(given, ROUTES);
        Ok(Some(PairsCommand { pairs, routes }))
    }

    fn path_of(&self, file: FileKind) -> Option<&'a str> {
        match file {
            FileKind::Pairs => Some(self.pairs),
            _ => None,
        }
    }
}

impl PairsCommand<'_> {
    // Opens the files, and runs the job that writes these answers: words or routes.
    fn answer_as<const P: u32, A: PairLine<P>, R: Threads + Wait + Sync, F: Inputs, W: Write>(
        &self,
        rt: &R,
        alloc: Global,
        place: &CommandContext<'_, F>,
        width: BucketWidth<P>,
        out: &mut W,
    ) -> Result<Result<Summary, BatchError>, Fault>
        requires run { (is_layout P ≡ true) × IsSync R.row }
        requires limit { IsPlaced P None place.now }
        ensures answered { EndsAt F.files (pairs_paths self.now) None
            (PairsAnswersOf A.kind P self.now) place.now W.Write out.old out.new result }
        ensures untouched { IsUntouched out.old out.new result }
    {
        let mut gr = place.open_graph()?;
        let mut pairs = place.open(FileKind::Pairs, self.pairs)?;
        let settings = place.settings::<P>(width);
        by_handle!(rt, settings, handle => Ok(run_pairs_told::<P, A, _, _, _, _, _>(
            handle, alloc, &mut gr, &mut pairs, out, &settings,
        )))
    }
}

impl<const P: u32> GraphAnswer<P> for PairsCommand<'_> {
    ghost paths = { pairs_paths };

    ghost within = { λ _. None };

    ghost placeless = { λ _. ⊥ };

    ghost answers = { PairsAnswers P };

    fn limit(&self) -> Result<Option<u64>, Fault> {
        Ok(None)
    }

    fn lacks_places(&self) -> bool {
        false
    }

    fn is_input(&self, file: FileKind) -> bool {
        matches!(file, FileKind::Pairs) && self.pairs == "-"
    }

    fn answer<R: Threads + Wait + Sync, F: Inputs, W: Write>(
        &self,
        rt: &R,
        alloc: Global,
        place: &CommandContext<'_, F>,
        width: BucketWidth<P>,
        out: &mut W,
    ) -> Result<Result<Summary, BatchError>, Fault>
        requires run { (is_layout P ≡ true) × IsSync R.row }
        requires limit { IsPlaced P None place.now }
        ensures answered { EndsAt F.files (pairs_paths self.now) None (PairsAnswers P self.now)
            place.now W.Write out.old out.new result }
        ensures untouched { IsUntouched out.old out.new result }
    {
        if self.routes {
            self.answer_as::<P, RouteAnswer, R, F, W>(rt, alloc, place, width, out)
        } else {
            self.answer_as::<P, PairAnswer, R, F, W>(rt, alloc, place, width, out)
        }
    }

    fn progress(_written: Summary, count: usize) -> Progress {
        Progress::Pairs {
            found: count,
            count,
        }
    }
}
