//! A file that receives a command's output instead of standard output.
ghost use Rattle.std.specs.Prelude.{◌≡◌, ℕ, false, List, IfNone, IfOk, IfSome, MatchOption, OnErr, OnOk};
ghost use Rattle.clap.specs.Walk.{rule_of};
ghost use Rattle.sp_command.specs.Rules.{output_rule};
ghost use Rattle.sp_command.specs.Outputs.{IsBlank, OutputFiles, unknown_outputs, with_begun, with_ended, with_kept};

use crate::arguments::valued;
use crate::inputs::Inputs;
use clap::Arg;
use sp_device::{Write, WriteFault};
use std::alloc::{AllocError, Global};

/// The identifier of the option for `clap`.
pub const OUTPUT: &str = "output";

const HELP: &str = "\
Write the output to the file OUT instead of standard output. It goes
to a new file in the folder of OUT (.spt-PID-*.part), which is renamed
to OUT when the command ends with exit status 0, 3 or 4; otherwise the
new file is removed, and OUT keeps what it held. If OUT is a device, a
pipe or anything else but a regular file, it is written to directly";

/// Creates the output files of commands.
pub trait Outputs: Inputs {
    /// The device that writes the text of a file.
    type Output: Write + Drop;

    /// The name of a file while it is being written. It ends when the file is kept or removed.
    type Name: Drop;

    /// What is known of the files that are made. No contract can say what the system keeps.
    ghost outputs: { Self → OutputFiles } = { λ _. unknown_outputs };

    /// The file with this name gets this path when it is kept.
    ghost is_for: { Self.Name → List ℕ → Type 0 } = { λ _ _. Unit {0} };

    /// Begins a file for this path, or returns `None` if it can't be created. Whatever the path held stays.
    fn create(
        &mut self,
        alloc: Global,
        path: &str,
    ) -> Result<Option<(Self::Name, Self::Output)>, AllocError>
        ensures named { IfOk result (λ made. IfSome made (λ file. is_for file.0 path.now)) }
        ensures blank { IfOk result (λ made. IfSome made
            (λ file. IsBlank (Self.Output.written file.1))) }
        ensures refused { IfOk result (λ made. IfNone made
            ((outputs self.old).takes path.now ≡ false)) }
        ensures begun { IfOk result (λ made. MatchOption made
            (outputs self.new ≡ outputs self.old)
            (λ _. outputs self.new ≡ with_begun (outputs self.old))) }
        ensures none { OnErr result (outputs self.new ≡ outputs self.old) }
        ensures inputs { Self.files self.new ≡ Self.files self.old };

    /// Gives a file its path. If that fails, the file is removed, and whatever the path held stays.
    fn keep(&mut self, name: Self::Name, output: Self::Output) -> Result<(), WriteFault>
        ensures kept { OnOk result ((path : List ℕ) → is_for name path → outputs self.new
            ≡ with_kept (with_ended (outputs self.old)) path (Self.Output.written output)) }
        ensures unkept { OnErr result (outputs self.new ≡ with_ended (outputs self.old)) }
        ensures refused { OnErr result ((path : List ℕ) → is_for name path
            → (outputs self.old).takes path ≡ false) }
        ensures inputs { Self.files self.new ≡ Self.files self.old };

    /// Removes a file. Whatever its path held stays.
    fn discard(&mut self, name: Self::Name, output: Self::Output)
        ensures removed { outputs self.new ≡ with_ended (outputs self.old) }
        ensures inputs { Self.files self.new ≡ Self.files self.old };
}

/// Returns the option that names the output file.
pub fn option<'a>(alloc: Global) -> Arg<'a>
    ensures { rule_of result ≡ output_rule }
{
    let about = "Write the output to a file instead of standard output";
    valued(alloc, OUTPUT, "OUT", about, HELP).short('o')
}
