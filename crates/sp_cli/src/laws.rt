//! What is true of the program for all words of a command line.
ghost use Rattle.std.specs.Prelude.{◌≡◌, true};
ghost use Rattle.clap.specs.Simple.{App, is_simple};
ghost use Rattle.sp_order.specs.Reads.{IsProgram};

use crate::commands::AnyCommand;
use sp_command::Commands;

/// States that no argument of the commands changes how `clap` reads words. So the contract of `run_command`, which is
/// about programs that are simple, holds without a premise.
pub fn every_program_is_simple()
    ensures { (app : App) → IsProgram ⟦<AnyCommand<'static> as Commands<'static>>⟧.shapes app
        → is_simple app ≡ true }
{}
