//! Commands, and choices of several commands.
ghost use Rattle.std.specs.Prelude.{◌≡◌, ◌⊎◌, ◌++◌, ◌∷◌, [], ℕ, List, IfOk, IfErr, MatchOption, option_map};
ghost use Rattle.clap.specs.Matches.{found_of};
ghost use Rattle.clap.specs.Simple.{Shape};
ghost use Rattle.clap.specs.Walk.{Rule};
ghost use Rattle.clap.specs.declared.parser.matches.Found.{Found};
ghost use Rattle.sp_command.specs.Causes.{Paths};
ghost use Rattle.sp_command.specs.Either.{either_of};
ghost use Rattle.sp_command.specs.Reading.{IsLacking, IsNamed, IsRefusedFor, IsUnnamed};
ghost use Rattle.sp_command.specs.Rules.{AddsCommands, AddsRules, shape_with};

use crate::faults::{Fault, FileKind, Status};
use crate::inputs::Inputs;
use crate::layout::PredBits;
use crate::outputs;
use crate::running::Runnable;
use clap::{ArgMatches, Error};
use sp_device::Write;
use std::alloc::{AllocError, Global};
use std::sync::Wait;
use std::thread::Threads;

/// A command or the program, built for `clap`; or an error if an allocation failed.
pub type BuiltCommand<'a> = Result<clap::Command<'a>, AllocError>;

/// A command that a command line can name.
pub trait Command<'a>: Drop {
    /// The word that names the command.
    ghost spelled: { List ℕ };

    /// The command's arguments besides the layout and the output file, as `clap` reads them.
    ghost rules: { List Rule };

    /// Reading what `clap` found in the command's words gives this command.
    ghost reads: { Found → Self → Type 0 };

    /// What `clap` found lacks something that the command needs.
    ghost lacks: { Found → Type 0 };

    /// The path of the command's file of each kind, if it has one.
    ghost paths: { Self → Paths };

    /// What the command does.
    const ABOUT: &'static str;

    /// What the command does, in full.
    const LONG_ABOUT: &'static str;

    /// The text at the end of the command's help: its files, what it writes, an example, faults and exit statuses.
    const AFTER_HELP: &'static str;

    /// Returns the word that names the command.
    fn word() -> &'static str
        ensures { result.now ≡ spelled };

    /// Adds the command's arguments, except for the layout and the output file, to a command that has its name.
    fn add_arguments(command: clap::Command<'a>, alloc: Global) -> BuiltCommand<'a>
        ensures { IfOk result (AddsRules command.entry rules) };

    /// Reads the command's arguments. Words that `clap` accepted can still lack something that the command needs: then
    /// the result is `None` or an error.
    fn read(alloc: Global, given: &ArgMatches<'a>) -> Result<Option<Self>, Error>
        ensures read { IfOk result (λ found.
            MatchOption found (lacks (found_of given.now)) (reads (found_of given.now))) }
        ensures refused { IfErr result (IsRefusedFor (lacks (found_of given.now))) };

    /// Returns the path of the command's file of this kind, if it has one.
    fn path_of(&self, file: FileKind) -> Option<&'a str>
        ensures { option_map (λ path. path.now) result ≡ paths self.now file };
}

/// One command, or a choice of several. A value is one of them.
pub trait Commands<'a>: Drop {
    /// The commands as `clap` reads them, each without the layout and the output file.
    ghost shapes: { List Shape };

    /// Reading what `clap` found in the words of the command with this name gives this command.
    ghost named: { (name : List ℕ) → Found → Self → Type 0 };

    /// No command has this name, or what `clap` found lacks something that the command needs.
    ghost unnamed: { (name : List ℕ) → Found → Type 0 };

    /// A command has this name, and what `clap` found lacks something that it needs.
    ghost lacking: { (name : List ℕ) → Found → Type 0 };

    /// The path of the command's file of each kind, if it has one.
    ghost paths: { Self → Paths };

    /// Adds each command to the program.
    fn add_to(program: clap::Command<'a>, alloc: Global) -> BuiltCommand<'a>
        ensures { IfOk result (AddsCommands program.entry shapes) };

    /// Reads the arguments of the command with this name.
    fn read_named(alloc: Global, name: &str, given: &ArgMatches<'a>) -> Result<Option<Self>, Error>
        ensures read { IfOk result (λ found. MatchOption found
            (unnamed name.now (found_of given.now)) (named name.now (found_of given.now))) }
        ensures refused { IfErr result (IsRefusedFor (lacking name.now (found_of given.now))) };

    /// Returns the word that names the command.
    fn name(&self) -> &'a str;

    /// Returns the path of the command's file of this kind, if it has one.
    fn path(&self, file: FileKind) -> Option<&'a str>
        ensures { option_map (λ path. path.now) result ≡ paths self.now file };
}

impl<'a, C: Command<'a>> Commands<'a> for C {
    ghost shapes = { shape_with C.spelled C.rules ∷ [] };

    ghost named = { IsNamed C.spelled C.reads };

    ghost unnamed = { IsUnnamed C.spelled C.lacks };

    ghost lacking = { IsLacking C.spelled C.lacks };

    ghost paths = { C.paths };

    fn add_to(program: clap::Command<'a>, alloc: Global) -> BuiltCommand<'a> {
        let name: &'a str = C::word();
        let command = C::add_arguments(clap::Command::new(alloc, name), alloc)?
            .about(C::ABOUT)
            .long_about(C::LONG_ABOUT)
            .after_long_help(C::AFTER_HELP)
            .arg(PredBits::option(alloc))?
            .arg(outputs::option(alloc))?;
        program.subcommand(command)
    }

    fn read_named(
        alloc: Global,
        name: &str,
        given: &ArgMatches<'a>,
    ) -> Result<Option<Self>, Error> {
        if name == C::word() {
            C::read(alloc, given)
        } else {
            Ok(None)
        }
    }

    fn name(&self) -> &'a str {
        C::word()
    }

    fn path(&self, file: FileKind) -> Option<&'a str> {
        self.path_of(file)
    }
}

/// One of two commands.
#[derive(Drop)]
pub enum OneOf<A, B> {
    First(A),
    Second(B),
}

impl<'a, A: Commands<'a>, B: Commands<'a>> Commands<'a> for OneOf<A, B> {
    ghost shapes = { A.shapes ++ B.shapes };

    ghost named = { λ name found. either_of (A.named name found) (B.named name found) };

    ghost unnamed = { λ name found. A.unnamed name found × B.unnamed name found };

    ghost lacking = { λ name found. A.lacking name found ⊎ B.lacking name found };

    ghost paths = { either_of A.paths B.paths };

    fn add_to(program: clap::Command<'a>, alloc: Global) -> BuiltCommand<'a> {
        B::add_to(A::add_to(program, alloc)?, alloc)
    }

    fn read_named(
        alloc: Global,
        name: &str,
        given: &ArgMatches<'a>,
    ) -> Result<Option<Self>, Error> {
        if let Some(command) = A::read_named(alloc, name, given)? {
            return Ok(Some(OneOf::First(command)));
        }
        match B::read_named(alloc, name, given)? {
            Some(command) => Ok(Some(OneOf::Second(command))),
            None => Ok(None),
        }
    }

    fn name(&self) -> &'a str {
        match self {
            OneOf::First(command) => command.name(),
            OneOf::Second(command) => command.name(),
        }
    }

    fn path(&self, file: FileKind) -> Option<&'a str> {
        match self {
            OneOf::First(command) => command.path(file),
            OneOf::Second(command) => command.path(file),
        }
    }
}

impl<A: Runnable<P>, B: Runnable<P>, const P: u32> Runnable<P> for OneOf<A, B> {
    ghost answers = { either_of A.answers B.answers };

    ghost paths = { either_of A.paths B.paths };

    ghost own_faults = { either_of A.own_faults B.own_faults };

    fn run<R: Threads + Wait + Sync, F: Inputs, W: Write>(
        &self,
        rt: &R,
        alloc: Global,
        files: &F,
        out: &mut W,
    ) -> Result<Status, Fault> {
        match self {
            OneOf::First(command) => command.run(rt, alloc, files, out),
            OneOf::Second(command) => command.run(rt, alloc, files, out),
        }
    }
}
