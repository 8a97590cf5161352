//! Options without a value.
ghost use Rattle.clap.specs.Matches.{found_of};
ghost use Rattle.sp_options.specs.Numbers.{IsFlag};

use clap::ArgMatches;

/// Returns whether a command line has this flag, an option without a value.
pub fn flag_in(given: &ArgMatches<'_>, name: &str) -> bool
    ensures { IsFlag (found_of given.now) name.now result }
{
    given.get_flag(name)
}
