//! The files of a command line, and the reports of progress.
ghost use Rattle.std.specs.Prelude.{◌≡◌, Bool, Some, true, false, IfNone, IfSome, OnSome};
ghost use Rattle.sp_command.specs.Scene.{Files, IsOpened, unknown_files};

use crate::hints::Encoding;
use crate::report::ProgressReport;
use sp_device::Read;
use sp_word::Meter;
use std::io;

/// The files that a command line names.
pub trait Inputs {
    /// An opened file.
    type File: Read + Drop;

    /// What is known of the files by their paths. No contract can say what a file of the system holds.
    ghost files: { Self → Files } = { λ _. unknown_files };

    /// Opens a file at its start, or returns `None` if it can't be opened. The path `-` is standard input, which is
    /// read from its current position.
    fn open_input(&self, path: &str) -> Option<Self::File>
        ensures given { IfSome result (IsOpened Self.File.Read (files self.now) path.now) }
        ensures opened { IfNone result ((files self.now).opens path.now ≡ false) }
        ensures present { OnSome result ((files self.now).absent path.now ≡ false) };

    /// Reports the progress of a command to the user. A failure to report changes nothing else.
    fn tell(&self, _report: ProgressReport) {}

    /// Returns the meter on which a run's workers count the vertices that they have relaxed, if the count is watched
    /// during the run.
    fn meter(&self) -> Option<&Meter> {
        None
    }

    /// Opens a file again, or returns `None` if it can't be read twice, as with standard input or a pipe.
    fn open_again(&self, _path: &str) -> Option<Self::File> {
        None
    }

    /// Returns whether the command's output goes to a terminal.
    fn is_shown(&self) -> bool
        ensures { (is : Bool) → (files self.now).shown ≡ Some is → result ≡ is };

    /// Returns whether the path of an output and the path of an input lead to the same regular file.
    fn is_same_file(&self, output: &str, input: &str) -> bool
        ensures { (is : Bool) → (files self.now).same output.now input.now ≡ Some is
            → result ≡ is };

    /// Returns the reason that the system gave for the last failure of a file or a stream, if it is known.
    fn reason(&self) -> Option<io::Error> {
        None
    }

    /// Returns the encoding of the file whose reading began last, if it is known and isn't plain text.
    fn encoding(&self) -> Option<Encoding> {
        None
    }
}
