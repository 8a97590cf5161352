//! What a command asks of the system, and what contracts may know of the answers.
ghost use Rattle.std.specs.Prelude.{◌≡◌, ◌≢◌, ℕ, Bool, true, false, List, map, Option, Some, None, IfErr, IfOk, OnErr, OnOk, string_bytes};
ghost use Rattle.std.specs.Io.{WritesAtMost};
ghost use Rattle.std.specs.Io.KnownBytes.{WriteAppends};
ghost use Rattle.std.specs.IoError.{error_kind};
ghost use Rattle.sp_command.specs.Outputs.{IsBlank};
ghost use Rattle.sp_disk.specs.Found.{FoundFiles, Tells, id_of, unknown_found};
ghost use Rattle.sp_disk.specs.Made.{MadeFiles, completed, held, one_gone, one_more, unknown_made, with_place};

use crate::status::FileStatus;
use std::alloc::Global;
use std::io;
use std::io::ErrorKind;
use std::path::PathBuf;

/// A file that is being written under a name of its own.
pub trait Part {
    /// The bytes that were written to it, if they are known.
    ghost written: { Self → Option (List ℕ) };

    /// Whether all of them stay if the system crashes, or the file system can do no more for that.
    ghost lasts: { Self → Bool };

    /// Writes some of the bytes, and returns their number.
    fn write(&mut self, bytes: &[u8]) -> io::Result<usize>
        ensures within { WritesAtMost result bytes.now }
        ensures bytes { WriteAppends (written self.old) (written self.new) result bytes.now };

    /// Passes on bytes that are still held back.
    fn flush(&mut self) -> io::Result<()>
        ensures { written self.new ≡ written self.old };

    /// Waits until the disk holds everything that was written. Not every file system supports this.
    fn sync(&mut self) -> io::Result<()>
        ensures written { written self.new ≡ written self.old }
        ensures lasts { OnOk result (lasts self.new ≡ true) }
        ensures invalid { IfErr result (λ error. error_kind error ≡ ErrorKind.InvalidInput
            → lasts self.new ≡ true) }
        ensures unsupported { IfErr result (λ error. error_kind error ≡ ErrorKind.Unsupported
            → lasts self.new ≡ true) };

    /// Returns what the system says about the file.
    fn status(&self) -> io::Result<FileStatus>;

    /// Sets the bits of the file's mode for the rights to read, write and run it.
    fn set_mode(&self, mode: u32) -> io::Result<()>;
}

/// Where a complete file goes: the path that was given for it, and the place where that leads once all links are
/// followed.
#[derive(Drop)]
pub struct Target {
    pub path: String,
    pub place: String,
}

/// The system, as a command sees it.
///
/// What the ghost members tell is known; of what they leave open nothing is known. A system in memory can tell
/// everything. The host tells nothing, since no contract can say what a disk holds. A command reads what it found: what
/// it makes changes none of that.
pub trait System {
    /// A file that is being read.
    type File: io::Read + Drop;

    /// Standard input.
    type Stdin: io::Read + Drop;

    /// A file that is being written under a name of its own.
    type Part: Part + Drop;

    /// Something that is written to directly: a device, a pipe or standard output.
    type Device: io::Write + Drop;

    /// Standard error.
    type Errors: io::Write + Drop;

    /// The words of the command line, if they are known.
    ghost given: { Self → Option (List (List ℕ)) } = { λ _. None };

    /// What is known of the files that a command can read, and of the streams.
    ghost found: { Self → FoundFiles } = { λ _. unknown_found };

    /// The path of what is written to directly, if it is known.
    ghost path_of: { Self.Device → Option (List ℕ) } = { λ _. None };

    /// What is known of the files that a command makes.
    ghost made: { Self → MadeFiles } = { λ _. unknown_made };

    /// Returns the words of the command line. The first is the program's name. They are refused if memory is, or if one
    /// isn't UTF-8.
    fn words(&self, alloc: Global) -> io::Result<Vec<String>>
        ensures told { IfOk result
            (λ words. Tells (given self.now) (map string_bytes words.items)) }
        ensures refused { IfErr result (λ error. error_kind error ≢ ErrorKind.OutOfMemory
            → given self.now ≡ None) };

    /// Opens a file at its start. Links are followed.
    fn open(&self, path: &str) -> io::Result<Self::File>
        ensures given { IfOk result (λ file. (text : List ℕ)
            → (found self.now).text path.now ≡ Some text → Self.File.remaining file ≡ Some text) }
        ensures opened { OnErr result ((found self.now).opens path.now ≡ false) }
        ensures present { OnOk result ((found self.now).absent path.now ≡ false) };

    /// Returns standard input, at its current position.
    fn stdin(&self) -> Self::Stdin
        ensures given { (text : List ℕ)
            → (found self.now).stdin ≡ Some text → Self.Stdin.remaining result ≡ Some text };

    /// Returns what the system says about a regular file, or `None` if the path leads to anything else. Links are
    /// followed.
    fn status(&self, path: &str) -> io::Result<Option<FileStatus>>
        ensures told { IfOk result (λ status. Tells ((found self.now).id path.now) (id_of status)) }
        ensures none { OnErr result (Tells ((found self.now).id path.now) None) };

    /// Returns whether standard output is a terminal.
    fn is_terminal(&self) -> bool
        ensures { Tells (found self.now).terminal result };

    /// Returns whether the path itself is a link.
    fn is_link(&self, path: &str) -> bool;

    /// Returns where the link at this path leads.
    fn read_link(&self, path: &str) -> io::Result<PathBuf>;

    /// Returns where a path leads, with no links in it.
    fn canonicalize(&self, path: &str) -> io::Result<PathBuf>;

    /// Returns standard output.
    fn stdout(&self) -> Self::Device
        ensures blank { IsBlank (Self.Device.contents result) };

    /// Returns standard error.
    fn stderr(&self) -> Self::Errors
        ensures blank { IsBlank (Self.Errors.contents result) };

    /// Returns whether standard error is a terminal.
    fn is_error_terminal(&self) -> bool;

    /// Opens something that no file can replace, to write to it directly.
    fn open_device(&mut self, path: &str) -> io::Result<Self::Device>
        ensures opened { IfOk result (λ device. Tells (path_of device) path.now) }
        ensures blank { IfOk result (λ device. IsBlank (Self.Device.contents device)) }
        ensures begun { OnOk result (made self.new ≡ one_more (made self.old)) }
        ensures none { OnErr result (made self.new ≡ made self.old) }
        ensures found { found self.new ≡ found self.old };

    /// Closes what was written to directly, for this path. Its text is complete.
    fn close(&mut self, device: Self::Device, path: &str) -> io::Result<()>
        ensures kept { OnOk result (made self.new
            ≡ completed (made self.old) path.now (Self.Device.contents device)) }
        ensures gone { OnErr result (made self.new ≡ one_gone (made self.old)) }
        ensures found { found self.new ≡ found self.old };

    /// Closes what was written to directly. Its text isn't complete.
    fn abandon(&mut self, device: Self::Device)
        ensures ended { made self.new ≡ one_gone (made self.old) }
        ensures found { found self.new ≡ found self.old };

    /// Makes a file at a path that isn't in use, with the rights of this mode as far as the user's mask allows.
    fn make(&mut self, path: String, mode: u32) -> io::Result<Self::Part>
        ensures blank { IfOk result (λ part. IsBlank (Self.Part.written part)) }
        ensures begun { OnOk result (made self.new ≡ one_more (made self.old)) }
        ensures none { OnErr result (made self.new ≡ made self.old) }
        ensures found { found self.new ≡ found self.old };

    /// Gives a part another owner or another group.
    fn chown(&self, part: &Self::Part, owner: Option<u32>, group: Option<u32>) -> io::Result<()>;

    /// Lets a part take its place, at once and whole. What it holds then is known if all of it lasts.
    fn rename(&mut self, part: &Self::Part, target: &Target) -> io::Result<()>
        ensures placed { let text = held (Self.Part.written part.now) (Self.Part.lasts part.now) in
            OnOk result (made self.new
            ≡ with_place (completed (made self.old) (string_bytes target.now.path) text)
            (string_bytes target.now.place) text) }
        ensures none { OnErr result (made self.new ≡ made self.old) }
        ensures found { found self.new ≡ found self.old };

    /// Removes a part, if the system allows it.
    fn remove(&mut self, part: Self::Part)
        ensures ended { made self.new ≡ one_gone (made self.old) }
        ensures found { found self.new ≡ found self.old };
}
