//! The flags for the direction of a graph's arcs.
ghost use Rattle.std.specs.Prelude.{◌≡◌, IfOk, codes};
ghost use Rattle.clap.specs.Matches.{found_of};
ghost use Rattle.clap.specs.Walk.{rule_of};
ghost use Rattle.sp_command.specs.Rules.{AddsRules, flag_rule};
ghost use Rattle.sp_options.specs.Directions.{HasDirection, direction_rules, towards_rule};

use crate::flags::flag_in;
use clap::{Arg, ArgAction, ArgMatches, Command};
use sp_command::{BuiltCommand, flag};
use sp_network::Direction;
use std::alloc::{AllocError, Global};

// The flag that turns the graph's arcs round.
const TOWARDS: &str = "towards";

// The flag that lets the graph's arcs lead both ways.
const BOTH_WAYS: &str = "both-ways";

/// Adds the flags for the direction to a command. A command line has at most one of them.
pub fn add_directions<'a>(command: Command<'a>, alloc: Global) -> BuiltCommand<'a>
    ensures { IfOk result (AddsRules command.entry direction_rules) }
{
    command.arg(towards(alloc)?)?.arg(both_ways(alloc))
}

fn towards<'a>(alloc: Global) -> Result<Arg<'a>, AllocError>
    ensures { IfOk result (λ arg. rule_of arg ≡ towards_rule) }
{
    let about = "Reverse each arc, for distances towards a vertex";
    Arg::new(alloc, TOWARDS)
        .long(TOWARDS)
        .action(ArgAction::SetTrue)
        .help(about)
        .conflicts_with(BOTH_WAYS)
}

fn both_ways<'a>(alloc: Global) -> Arg<'a>
    ensures { rule_of result ≡ flag_rule (codes "both-ways") }
{
    let about = "Use each arc in both directions";
    flag(alloc, BOTH_WAYS, about)
}

/// Reads the direction from what `clap` has found.
pub fn read_direction(given: &ArgMatches<'_>) -> Direction
    ensures { HasDirection (found_of given.now) result }
{
    let both_ways = flag_in(given, BOTH_WAYS);
    if flag_in(given, TOWARDS) {
        Direction::Towards
    } else if both_ways {
        Direction::BothWays
    } else {
        Direction::AsGiven
    }
}
