//! Commands that run a job in a graph: what all of them share, and the part of their own. Each command says in that
//! part what its words are (`Command`) and what its job answers (`GraphAnswer`).
ghost use Rattle.std.specs.Prelude.{◌≡◌, ◌∷◌, [], true};
ghost use Rattle.sp_command.specs.Causes.{NamesInputTwice};
ghost use Rattle.sp_command.specs.Reading.{IsLacking, IsNamed, IsUnnamed};
ghost use Rattle.sp_command.specs.Rules.{shape_with};
ghost use Rattle.sp_cli.specs.Commands.{IsInGraph, IsJobAnswer, LacksInGraph, faults_in, paths_in};

use crate::answer::GraphAnswer;
use crate::context::CommandContext;
use clap::{ArgMatches, Error};
use sp_command::{BuiltCommand, Command, Commands, Fault, FileKind, Inputs, Runnable, Status};
use sp_device::Write;
use sp_jobs::Listener;
use sp_options::RunOptions;
use std::alloc::Global;
use std::sync::Wait;
use std::thread::Threads;

/// A command that runs a job in a graph.
#[derive(Drop)]
pub struct GraphCommand<'a, C> {
    /// The path of the graph.
    pub graph: &'a str,
    /// The options for its runs.
    pub options: RunOptions,
    /// The command's own part.
    pub own: C,
}

impl<'a, C: Command<'a>> Commands<'a> for GraphCommand<'a, C> {
    ghost shapes = { shape_with C.spelled C.rules ∷ [] };

    ghost named = { IsNamed C.spelled (IsInGraph C.reads) };

    ghost unnamed = { IsUnnamed C.spelled (LacksInGraph C.lacks) };

    ghost lacking = { IsLacking C.spelled (LacksInGraph C.lacks) };

    ghost paths = { λ given. paths_in given.graph.now (C.paths given.own) };

    fn add_to(program: clap::Command<'a>, alloc: Global) -> BuiltCommand<'a> {
        C::add_to(program, alloc)
    }

    fn read_named(
        alloc: Global,
        name: &str,
        given: &ArgMatches<'a>,
    ) -> Result<Option<Self>, Error> {
        if name != C::word() {
            return Ok(None);
        }
        let Some(graph) = given.get_str("GR") else {
            return Ok(None);
        };
        let Some(options) = RunOptions::read(alloc, given)? else {
            return Ok(None);
        };
        let Some(own) = C::read(alloc, given)? else {
            return Ok(None);
        };
        Ok(Some(GraphCommand {
            graph,
            options,
            own,
        }))
    }

    fn name(&self) -> &'a str {
        C::word()
    }

    fn path(&self, file: FileKind) -> Option<&'a str> {
        match file {
            FileKind::Graph => Some(self.graph),
            _ => self.own.path_of(file),
        }
    }
}

impl<const P: u32, C: GraphAnswer<P>> Runnable<P> for GraphCommand<'_, C> {
    ghost answers = { IsJobAnswer P C.within C.placeless C.answers };

    ghost paths = { λ given. paths_in given.graph.now (C.paths given.own) };

    ghost own_faults = { faults_in P C.within C.placeless };

    fn run<R: Threads + Wait + Sync, F: Inputs, W: Write>(
        &self,
        rt: &R,
        alloc: Global,
        files: &F,
        out: &mut W,
    ) -> Result<Status, Fault> {
        let reporter = self.options.reporter(files);
        let settings = self.options.settings::<P, _>(&reporter)?;
        let place = CommandContext {
            graph: self.graph,
            direction: self.options.direction,
            files,
            reporter: &reporter,
            limit: self.own.limit()?,
            workers: settings.workers,
        };
        if self.own.lacks_places() {
            return Err(Fault::NoPlaces);
        }
        if names_input_twice::<P, C>(self.graph, &self.own) {
            return Err(Fault::InputTwice);
        }
        let answer = self
            .own
            .answer::<R, F, W>(rt, alloc, &place, settings.width, out)?;
        let end = self.options.end_of(answer);
        if let Ok(written) = answer {
            reporter.hear(C::progress(written, written.sources as usize));
        }
        end
    }
}

// Returns whether two of a command's files are both standard input. No command has both targets and pairs.
#[tactic(auto, using(crate::proofs::Opening::both_lists))]
fn names_input_twice<const P: u32, C: GraphAnswer<P>>(graph: &str, own: &C) -> bool
    ensures { result ≡ true → NamesInputTwice (paths_in graph.now (C.paths own.now)) }
{
    let sources = own.is_input(FileKind::Sources);
    let targets = own.is_input(FileKind::Targets);
    let pairs = own.is_input(FileKind::Pairs);
    if graph == "-" {
        return sources || targets || pairs;
    }
    sources && targets
}
