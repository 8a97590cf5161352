//! The files of the system.
ghost use Rattle.std.specs.Prelude.{◌≡◌, Bool, false, Some, IfSome, not, ◌&&◌};
ghost use Rattle.sp_command.specs.Outputs.{IsBlank};
ghost use Rattle.sp_command.specs.Scene.{IsOpened};
ghost use Rattle.sp_disk.specs.Found.{Tells, files_of, id_of};

use crate::errors::Errors;
use crate::noted::{FileNotes, Noted};
use crate::screen::Screen;
use crate::status::FileStatus;
use crate::system::System;
use either::Either;
use sp_command::{Encoding, Inputs, ProgressReport};
use sp_device::{OfRead, Read, Write};
use sp_word::Meter;
use std::io;
use std::process::Process;
use std::rt::Clock;
use std::sync::Wait;

/// The files of a system, and standard input, whose path is `-`.
#[derive(Drop)]
pub struct Disk<'a, R, S> {
    pub rt: &'a R,
    pub system: S,
    // The process, which knows its number.
    pub(crate) process: Process,
    pub(crate) notes: &'a FileNotes,
    // Whether the output goes to a file instead of standard output.
    pub(crate) has_output: bool,
}

// The path of standard input, if that is a file.
const STDIN: &str = "/dev/stdin";

impl<'a, R, S> Disk<'a, R, S> {
    /// Returns the disk of a command that has done nothing.
    pub fn new(rt: &'a R, system: S, process: Process, notes: &'a FileNotes) -> Self
        ensures system { result.system ≡ system }
        ensures output { result.has_output ≡ false }
    {
        Disk {
            rt,
            system,
            process,
            notes,
            has_output: false,
        }
    }
}

impl<'a, R: Eprint + Clock + Wait, S: System> Disk<'a, R, S> {
    /// Returns standard error, as the screen that shows the progress of a run.
    pub fn screen(&self) -> Screen<'a, R> {
        Screen::new(self.rt, self.system.is_error_terminal(), self.notes.watch())
    }

    /// Returns standard error, for all other messages, before its first byte.
    pub fn standard_error(&self) -> Errors<'a, R, S>
        ensures blank { IsBlank (⟦<Errors<'a, R, S> as Write>⟧.written result) }
        ensures going { ⟦<Errors<'a, R, S> as Write>⟧.has_failed result ≡ false }
    {
        Errors::new(self.screen(), self.system.stderr())
    }
}

// The file or the stream that an input is read from.
type Input<'a, S> = OfRead<Noted<'a, Either<<S as System>::File, <S as System>::Stdin>>>;

impl<'a, R, S: System> Disk<'a, R, S> {
    // Returns what the system says about a regular file. Links are followed.
    fn regular(&self, path: &str) -> Option<FileStatus>
        ensures { Tells ((S.found self.now.system).id path.now) (id_of result) }
    {
        match self.system.status(path) {
            Ok(status) => status,
            Err(_) => None,
        }
    }

    // Returns the size of a file in bytes, if it is a regular file.
    fn size_of(&self, path: &str) -> Option<u64> {
        Some(self.regular(path)?.size)
    }
}

impl<'a, R: Eprint + Clock + Wait, S: System> Inputs for Disk<'a, R, S> {
    type File = Input<'a, S>;

    ghost files = { λ disk. files_of (S.found disk.system) };

    fn open_input(&self, path: &str) -> Option<Self::File> {
        let (file, path) = if path == "-" {
            (Either::Right(self.system.stdin()), STDIN)
        } else {
            let file = self.notes.checked(self.system.open(path))?;
            (Either::Left(file), path)
        };
        let size = self.size_of(path);
        Some(OfRead::new(Noted::new(file, self.notes, size)))
    }

    fn open_again(&self, path: &str) -> Option<Self::File>
        ensures { IfSome result
            (IsOpened ⟦<Input<'a, S> as Read>⟧ (files_of (S.found self.now.system)) path.now) }
    {
        self.size_of(path)?;
        self.open_input(path)
    }

    fn is_shown(&self) -> bool
        ensures told { (is : Bool) → (S.found self.now.system).terminal ≡ Some is
            → result ≡ (not self.now.has_output && is) }
        ensures shown { (is : Bool) → (files_of (S.found self.now.system)).shown ≡ Some is
            → result ≡ is }
    {
        !self.has_output && self.system.is_terminal()
    }

    fn is_same_file(&self, output: &str, input: &str) -> bool {
        let input = if input == "-" { STDIN } else { input };
        let (Some(output), Some(input)) = (self.regular(output), self.regular(input)) else {
            return false;
        };
        output.id.device == input.id.device && output.id.inode == input.id.inode
    }

    fn reason(&self) -> Option<io::Error> {
        self.notes.reason()
    }

    fn encoding(&self) -> Option<Encoding> {
        self.notes.encoding()
    }

    fn tell(&self, report: ProgressReport) {
        self.screen().hear(report, self.notes.size());
    }

    fn meter(&self) -> Option<&Meter> {
        Some(self.notes.watch().meter())
    }
}
