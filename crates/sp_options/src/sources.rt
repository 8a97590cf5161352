//! The sources of a command, or the targets of a matrix, given in a file or on the command line.
ghost use Rattle.std.specs.Prelude.{◌≡◌, IfOk};
ghost use Rattle.clap.specs.Walk.{rule_of};
ghost use Rattle.sp_options.specs.Rules.{places_rule};

use crate::given::{Given, SOURCE};
use crate::places::places_of;
use clap::{Arg, ArgMatches, Command};
use sp_command::{BuiltCommand, PLACES};
use sp_jobs::Places;
use std::alloc::{AllocError, Global};

const PART: &str = "Write only the trees of the sources at these places";

const PART_LONG: &str = "\
Write only the trees of the sources at places A to B of the file,
counted from 1. Places beyond its end are ignored";

const TAKEN: &str = "Use only the sources at these places of the file";

const TAKEN_LONG: &str = "\
Use only the sources at places A to B of the file, counted from 1.
Places beyond its end are ignored";

/// The help text of the option that gives a source.
pub(crate) const A_SOURCE: &str = "A source, instead of a file of them; can be repeated";

/// The sources of a command that runs from them, or the targets of a matrix.
#[derive(Drop)]
pub enum Sources<'a> {
    /// All sources of the file with this path.
    File(&'a str),
    /// The sources at these places of the file with this path. The places are `None` if the word for them isn't `A-B`
    /// with A at least 1 and B at least A.
    Part(&'a str, Option<Places>),
    /// These sources, given on the command line.
    Given(Given),
}

impl<'a> Sources<'a> {
    ghost use Rattle.std.specs.Prelude.{◌≡◌, IfOk, MatchOption, codes, option_map};
    ghost use Rattle.clap.specs.Matches.{found_of};
    ghost use Rattle.clap.specs.Walk.{rule_of};
    ghost use Rattle.sp_command.specs.Rules.{AddsRules};
    ghost use Rattle.sp_options.specs.Rules.{file_unless_given, sources_rules};
    ghost use Rattle.sp_options.specs.Sources.{AreNamed, NamesNone, path_of};

    /// Adds the argument for the file to a command, and the options for a part of the file and for sources instead of a
    /// file.
    pub fn add_to(command: Command<'a>, alloc: Global) -> BuiltCommand<'a>
        ensures { IfOk result (AddsRules command.entry sources_rules) }
    {
        Self::add_with_part(command, alloc, PART, PART_LONG)
    }

    /// Adds the same to a command that has one answer for all sources.
    pub fn add_all_to(command: Command<'a>, alloc: Global) -> BuiltCommand<'a>
        ensures { IfOk result (AddsRules command.entry sources_rules) }
    {
        Self::add_with_part(command, alloc, TAKEN, TAKEN_LONG)
    }

    // Adds the same, with these help texts for the option for a part.
    fn add_with_part(
        command: Command<'a>,
        alloc: Global,
        about: &'a str,
        long: &'a str,
    ) -> BuiltCommand<'a>
        ensures { IfOk result (AddsRules command.entry sources_rules) }
    {
        command
            .arg(Self::file(alloc)?)?
            .arg(Given::option(alloc, SOURCE, A_SOURCE))?
            .arg(places_option(alloc, about, long)?)
    }

    fn file(alloc: Global) -> Result<Arg<'a>, AllocError>
        ensures { IfOk result (λ arg. rule_of arg ≡ file_unless_given (codes "SS")) }
    {
        Arg::new(alloc, "SS")
            .help("The sources, a .ss file")
            .required_unless_present(SOURCE)?
            .conflicts_with(SOURCE)
    }

    /// Reads the sources from what `clap` has found, or returns `None` if there are none.
    pub fn read(alloc: Global, given: &ArgMatches<'a>) -> Result<Option<Self>, AllocError>
        ensures { IfOk result (λ found. MatchOption found
            (NamesNone (found_of given.now)) (AreNamed (found_of given.now))) }
    {
        let Some(path) = given.get_str("SS") else {
            return Ok(match Given::read(alloc, given, SOURCE)? {
                Some(sources) => Some(Sources::Given(sources)),
                None => None,
            });
        };
        Ok(Some(match given.get_str(PLACES) {
            Some(places) => Sources::Part(path, places_of(places)),
            None => Sources::File(path),
        }))
    }

    /// Returns the path of the file, if the sources are in a file.
    pub fn path(&self) -> Option<&'a str>
        ensures { option_map (λ path. path.now) result ≡ path_of self.now }
    {
        match self {
            Sources::File(path) | Sources::Part(path, _) => Some(path),
            Sources::Given(_) => None,
        }
    }
}

/// Returns the option for places of a file, with its help text in short and in full.
pub fn places_option<'a>(
    alloc: Global,
    about: &'a str,
    long: &'a str,
) -> Result<Arg<'a>, AllocError>
    ensures { IfOk result (λ arg. rule_of arg ≡ places_rule) }
{
    Arg::new(alloc, PLACES)
        .long(PLACES)
        .value_name("A-B")
        .help(about)
        .long_help(long)
        .conflicts_with(SOURCE)
}
