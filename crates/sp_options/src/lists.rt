//! The sources and the targets of `spt matrix`, in files or on the command line.
ghost use Rattle.std.specs.Prelude.{◌≡◌, IfOk, IfErr, IsNone, MatchOption, codes};
ghost use Rattle.clap.specs.Matches.{found_of};
ghost use Rattle.clap.specs.Walk.{rule_of};
ghost use Rattle.sp_command.specs.Reading.{IsRefusedFor};
ghost use Rattle.sp_command.specs.Rules.{AddsRules};
ghost use Rattle.sp_options.specs.Rules.{file_unless_given, lists_rules};
ghost use Rattle.sp_options.specs.Lists.{AreBeside, AreListed, HaveFileOfTargets, LackBeside, LackFileOfTargets, ListsNone};
ghost use Rattle.sp_options.specs.declared.sources.Sources.TheVariants as Sources;

use crate::given::{Given, SOURCE, TARGET};
use crate::sources::{A_SOURCE, Sources, places_option};
use clap::{Arg, ArgMatches, Command, Error};
use sp_command::{BuiltCommand, file};
use std::alloc::{AllocError, Global};

const SOURCES: &str = "SS";

const TARGETS: &str = "TARGETS";

const A_TARGET: &str = "A target, instead of a file of them; can be repeated";

const PART: &str = "Write only the lines of the sources at these places";

const PART_LONG: &str = "\
Write only the lines of the sources at places A to B of their file,
counted from 1. Places beyond its end are ignored";

/// The lists of a matrix. The targets have no places.
#[derive(Drop)]
pub struct Lists<'a> {
    /// The sources. Each is a row.
    pub sources: Sources<'a>,
    /// The targets. Each is a line in every row.
    pub targets: Sources<'a>,
}

impl<'a> Lists<'a> {
    /// Adds the arguments for the two files to a command, and the options for a part of the sources and for numbers
    /// instead of a file. If sources are given by their numbers, the single file is that of the targets.
    pub fn add_to(command: Command<'a>, alloc: Global) -> BuiltCommand<'a>
        ensures { IfOk result (AddsRules command.entry lists_rules) }
    {
        command
            .arg(Self::sources(alloc)?)?
            .arg(Self::targets(alloc)?)?
            .arg(Given::option(alloc, SOURCE, A_SOURCE))?
            .arg(Given::option(alloc, TARGET, A_TARGET))?
            .arg(places_option(alloc, PART, PART_LONG)?)
    }

    fn sources(alloc: Global) -> Result<Arg<'a>, AllocError>
        ensures { IfOk result (λ arg. rule_of arg
            ≡ record (file_unless_given (codes "SS")) { value_names = 1 }) }
    {
        let both: [&'a str; 2] = [SOURCE, TARGET];
        Arg::new(alloc, SOURCES)
            .help("The sources, a .ss file; with --source, the targets")
            .value_name("SOURCES")
            .required_unless_present_all(&both)
    }

    fn targets(alloc: Global) -> Result<Arg<'a>, AllocError>
        ensures { IfOk result (λ arg. rule_of arg ≡ file_unless_given (codes "TARGETS")) }
    {
        Arg::new(alloc, TARGETS)
            .help("The targets, a .ss file; it may be the file of the sources")
            .required_unless_present(SOURCE)?
            .required_unless_present(TARGET)?
            .conflicts_with(SOURCE)?
            .conflicts_with(TARGET)
    }

    /// Reads the lists from what `clap` has found, or returns `None` if the sources or the targets are missing. If a
    /// file is given although both lists are given by numbers, the result is the error with which `clap` says so.
    pub fn read(alloc: Global, given: &ArgMatches<'a>) -> Result<Option<Self>, Error>
        ensures read { IfOk result (λ found. MatchOption found
            (ListsNone (found_of given.now)) (AreListed (found_of given.now))) }
        ensures refused { IfErr result (IsRefusedFor (ListsNone (found_of given.now))) }
    {
        if let Some(path) = given.get_str(TARGETS) {
            return Ok(match Sources::read(alloc, given)? {
                Some(sources) => Some(Lists {
                    sources,
                    targets: Sources::File(path),
                }),
                None => None,
            });
        }
        match Given::read(alloc, given, TARGET)? {
            Some(targets) => Self::read_beside(alloc, given, targets),
            None => Ok(Self::read_file_of_targets(alloc, given)?),
        }
    }

    // Reads the sources if an option gives these targets.
    fn read_beside(
        alloc: Global,
        given: &ArgMatches<'a>,
        targets: Given,
    ) -> Result<Option<Self>, Error>
        ensures read { IfOk result (λ found. MatchOption found
            (LackBeside (found_of given.now))
            (λ lists. AreBeside (found_of given.now) lists.sources
            × (lists.targets ≡ Sources.Given targets))) }
        ensures refused { IfErr result (IsRefusedFor (LackBeside (found_of given.now))) }
    {
        if given.get_str(SOURCES).is_some() && Given::read(alloc, given, SOURCE)?.is_some() {
            return refuse(alloc);
        }
        Ok(match Sources::read(alloc, given)? {
            Some(sources) => Some(Lists {
                sources,
                targets: Sources::Given(targets),
            }),
            None => None,
        })
    }

    // Reads the sources that an option gives, and the path of the targets.
    fn read_file_of_targets(
        alloc: Global,
        given: &ArgMatches<'a>,
    ) -> Result<Option<Self>, AllocError>
        ensures { IfOk result (λ found. MatchOption found
            (LackFileOfTargets (found_of given.now)) (HaveFileOfTargets (found_of given.now))) }
    {
        let Some(path) = given.get_str(SOURCES) else {
            return Ok(None);
        };
        Ok(match Given::read(alloc, given, SOURCE)? {
            Some(sources) => Some(Lists {
                sources: Sources::Given(sources),
                targets: Sources::File(path),
            }),
            None => None,
        })
    }
}

// Returns the error with which `clap` refuses a file if both lists are given by numbers, or `None` if `clap` accepts
// it.
fn refuse<'a>(alloc: Global) -> Result<Option<Lists<'a>>, Error>
    ensures { IfOk result IsNone }
{
    Command::new(alloc, "spt matrix")
        .arg(file(alloc, "GR", ""))?
        .arg(
            Lists::sources(alloc)?
                .conflicts_with(SOURCE)?
                .conflicts_with(TARGET)?,
        )?
        .arg(Given::option(alloc, SOURCE, A_SOURCE))?
        .arg(Given::option(alloc, TARGET, A_TARGET))?
        .try_get_matches_from(&["spt", "GR", "SOURCES", "--source=1", "--target=1"])?;
    Ok(None)
}
