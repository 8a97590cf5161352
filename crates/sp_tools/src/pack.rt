//! `spt pack`: writes a graph as a packed file, which can be read without parsing numbers.
ghost use Rattle.std.specs.Prelude.{◌≡◌, codes};
ghost use Rattle.sp_tools.specs.PackAnswers.{PackAnswers, pack_faults, pack_paths};
ghost use Rattle.sp_tools.specs.Words.{IsPack, LacksPack, pack_rules};

use crate::graphs::read_graph;
use clap::{ArgMatches, Error};
use sp_command::{
    BuiltCommand, Command, Fault, FileKind, Inputs, Runnable, Status, after_help, flag, graph_file,
};
use sp_device::{Peeked, Write};
use sp_jobs::{BucketWidth, Settings};
use sp_network::Direction;
use sp_options::{
    ProgressReporter, WORKERS, Watched, add_directions, read_direction, read_workers,
    workers_option,
};
use sp_packed::write_packed;
use sp_word::Workers;
use std::alloc::Global;
use std::sync::Wait;
use std::thread::Threads;

const WORKERS_LONG: &str = "\
The maximum number of threads, from 1 to 64 including the main thread,
or `all` for one per processor, at most 64. They read a .gr file and
build the graph. The output is the same for any number";

/// The arguments of `pack`, with the path of its file.
#[derive(Drop)]
pub struct PackCommand<'a> {
    /// The path of the graph.
    pub graph: &'a str,
    /// The direction of the arcs that are written, relative to the file.
    pub direction: Direction,
    /// The greatest number of threads, including the main thread.
    pub workers: Workers,
    /// Whether progress is reported.
    pub progress: bool,
}

impl<'a> Command<'a> for PackCommand<'a> {
    ghost spelled = { codes "pack" };

    ghost rules = { pack_rules };

    ghost reads = { IsPack };

    ghost lacks = { LacksPack };

    ghost paths = { pack_paths };

    const ABOUT: &'static str = "Write a graph as a packed file, which loads faster";

    const LONG_ABOUT: &'static str = "\
Write a graph as a packed file, which loads faster

A packed file has the numbers of a graph as they are in memory, and a checksum
by which changes are detected. Every command accepts it instead of a .gr file,
also from standard input, and loads it faster. Each graph has exactly one packed
file, whatever the order of the arcs in its .gr file.";

    const AFTER_HELP: &'static str = after_help!(
        "\
The graph is a .gr file, as described in `spt tree --help`, or a packed file.
A file whose first byte is 0x89 is a packed file; any other is a .gr file.

The output has 4 * (N + 2 * M + 9) bytes for N vertices and M arcs. It isn't
text, so it can go to a file (-o FILE) or to a pipe, but not to a terminal.

With --towards, each arc is written reversed. With --both-ways, each arc is
written in both directions. Commands that read the output then need no such
flag.

Example: `spt pack road.gr -o road.spt`, and then
`spt pairs road.spt road.pairs --delta mean`.

An error in a .gr file is reported with its line, as in
`spt: gr: line 2: 7 TooFew`:
",
        faults: "  6 TooMany        more than M arcs
  7 TooFew         fewer than M arcs
",
        others: "\
An error in a packed file is reported with the number of bytes before the word
at which it is found, as in `spt: gr: byte 48: 7 TooFew`:
  5 OutOfRange X   a number is out of range or order: N or M, E for where the
                   arcs of a vertex end, V for a head, W for a length
  6 TooMany        there are bytes after the checksum
  7 TooFew         the file ends before or within this word
  8 Memory         not enough memory (exit status 5)
  9 Read           the file could not be read to its end (exit status 6)
  10 OtherForm     it does not begin as a packed file of this form
  11 OtherSum      a word of the checksum is wrong
Other errors are
  spt: gr: cannot open               (exit status 6)
  spt: output is an input            -o names the graph (exit status 1)
  spt: output is a terminal          (exit status 1)
  spt: memory                        nothing is written (exit status 5)
  spt: write failed                  part of the output may have been written
                                     (exit status 6)
",
        statuses:
            0 "done"
            1 "the command line is wrong, or the output would go to a terminal"
            2 "the file is refused";
            "the file" "the output"
    );

    fn word() -> &'static str
        ensures { result.now ≡ codes "pack" }
    {
        "pack"
    }

    fn add_arguments(command: clap::Command<'a>, alloc: Global) -> BuiltCommand<'a> {
        let command = command.arg(graph_file(alloc))?;
        let about = "Report progress on standard error";
        add_directions(command, alloc)?
            .arg(workers_option(alloc, WORKERS_LONG))?
            .arg(flag(alloc, "progress", about))
    }

    fn read(alloc: Global, given: &ArgMatches<'a>) -> Result<Option<Self>, Error> {
        let (Some(graph), Some(crew)) = (given.get_str("GR"), given.get_str(WORKERS)) else {
            return Ok(None);
        };
        let Some(workers) = read_workers(alloc, crew)? else {
            return Ok(None);
        };
        Ok(Some(PackCommand {
            graph,
            direction: read_direction(given),
            workers,
            progress: given.get_flag("progress"),
        }))
    }

    fn path_of(&self, file: FileKind) -> Option<&'a str> {
        match file {
            FileKind::Graph => Some(self.graph),
            _ => None,
        }
    }
}

impl<const P: u32> Runnable<P> for PackCommand<'_> {
    ghost answers = { PackAnswers P };

    ghost paths = { pack_paths };

    ghost own_faults = { pack_faults };

    fn run<R: Threads + Wait + Sync, F: Inputs, W: Write>(
        &self,
        rt: &R,
        alloc: Global,
        files: &F,
        out: &mut W,
    ) -> Result<Status, Fault> {
        if files.is_shown() {
            return Err(Fault::ToTerminal);
        }
        let reporter = ProgressReporter::new(files, self.progress);
        let settings = Settings {
            direction: self.direction,
            width: BucketWidth::<P>::MeanLength,
            workers: self.workers,
            listener: &reporter,
        };
        let device = FileKind::Graph.open(files, self.graph)?;
        let mut gr = Peeked::new(Watched::new(device, FileKind::Graph, &reporter));
        let graph = read_graph::<P, R, _, _>(rt, alloc, &mut gr, &settings)?;
        write_packed(out, &graph)?;
        Ok(Status::Done)
    }
}
