//! Texts that `clap` refuses as the number of an option.
ghost use Rattle.std.specs.Prelude.{IfOk, IsNone};

use clap::{Arg, Command, Error};
use std::alloc::Global;

/// Returns the error with which `clap` refuses the words of a command that has only this option, or `None` if `clap`
/// accepts them.
pub(crate) fn refuse<'a, T>(
    alloc: Global,
    option: Arg<'a>,
    words: &'a [&'a str],
) -> Result<Option<T>, Error>
    ensures { IfOk result IsNone }
{
    Command::new(alloc, "spt")
        .arg(option)?
        .try_get_matches_from(words)?;
    Ok(None)
}
