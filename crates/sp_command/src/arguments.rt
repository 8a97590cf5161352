//! The arguments of commands.
ghost use Rattle.std.specs.Prelude.{◌≡◌, codes};
ghost use Rattle.clap.specs.Walk.{rule_of};
ghost use Rattle.sp_command.specs.Rules.{file_rule, flag_rule, valued_rule};

use clap::{Arg, ArgAction};
use std::alloc::Global;

/// The identifier for `clap` of the option that names places of sources.
pub const PLACES: &str = "sources";

/// Returns the argument for a file that a command needs.
pub fn file<'a>(alloc: Global, name: &'a str, about: &'a str) -> Arg<'a>
    ensures { rule_of result ≡ file_rule name.entry.now }
{
    Arg::new(alloc, name).help(about).required(true)
}

/// Returns the argument for the graph of a command.
pub fn graph_file<'a>(alloc: Global) -> Arg<'a>
    ensures { rule_of result ≡ file_rule (codes "GR") }
{
    file(alloc, "GR", "The graph, a .gr file or a packed one")
}

/// Returns an option without a value.
pub fn flag<'a>(alloc: Global, name: &'a str, about: &'a str) -> Arg<'a>
    ensures { rule_of result ≡ flag_rule name.entry.now }
{
    Arg::new(alloc, name)
        .long(name)
        .action(ArgAction::SetTrue)
        .help(about)
}

/// Returns an option with a value, with the name of the value in help, and the description in a short form and in full.
pub fn valued<'a>(
    alloc: Global,
    name: &'a str,
    value: &'a str,
    about: &'a str,
    more: &'a str,
) -> Arg<'a>
    ensures { rule_of result ≡ valued_rule name.entry.now }
{
    Arg::new(alloc, name)
        .long(name)
        .value_name(value)
        .help(about)
        .long_help(more)
}
