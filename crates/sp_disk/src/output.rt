//! Output files.
ghost use Rattle.std.specs.Prelude.{◌≡◌, ◌<◌, ◌≤◌, ◌+◌, ◌^◌, ℕ, true, false, List, IfNone, IfOk, IfSome, MatchOption, OnErr, OnOk, string_bytes};
ghost use Rattle.sp_command.specs.Outputs.{IsBlank, with_begun, with_ended, with_kept};
ghost use Rattle.sp_disk.specs.Found.{files_of};
ghost use Rattle.sp_disk.specs.Made.{GoesTo, kept_in, one_gone, outputs_of, written_to};

use crate::disk::Disk;
use crate::noted::{FileNotes, Noted};
use crate::place::Destination;
use crate::screen::Screen;
use crate::sink::{Sink, UnfinishedFile};
use crate::system::{Part, System, Target};
use sp_command::Outputs;
use sp_device::{Failed, Write, WriteFault};
use std::alloc::{AllocError, Global};
use std::io;
use std::io::ErrorKind;
use std::random::RandomSource;
use std::rt::Clock;
use std::sync::Wait;

// The greatest total number of bytes that an output passes on.
const LIMIT: u64 = 1 << 62;

/// An output file that is being written, or standard output. Both have one type, so that the commands are compiled only
/// once. It fails if the system does or takes none of the bytes given to it, and once 2^62 bytes have passed.
pub struct Output<'a, R, S: System> {
    sink: Noted<'a, Sink<S::Part, S::Device>>,
    passed: u64,
    failed: bool,
    screen: Screen<'a, R>,
    ghost limit: { passed ≤ 2 ^ 62 },
}

impl<R, S: System> Drop for Output<'_, R, S> {
    fn drop(self) {
        let Output {
            sink: _,
            passed: _,
            failed: _,
            screen: _,
        } = self;
    }
}

impl<'a, R, S: System> Output<'a, R, S> {
    // Returns an output to which nothing was written.
    fn new(sink: Sink<S::Part, S::Device>, notes: &'a FileNotes, screen: Screen<'a, R>) -> Self
        ensures sink { result.sink.inner ≡ sink }
        ensures passed { result.passed ≡ 0 }
        ensures going { result.failed ≡ false }
    {
        Output {
            sink: Noted::new(sink, notes, None),
            passed: 0,
            failed: false,
            screen,
        }
    }

    /// Returns what is written to directly, if the output has no file with a name of its own.
    pub fn device(&self) -> Option<&S::Device>
        ensures { IfSome result (λ device. self.now.sink.inner ≡ Sink.Device device.now) }
    {
        match &self.sink.inner {
            Sink::Part(_) => None,
            Sink::Device(device) => Some(device),
        }
    }

    // Returns where the output goes, and whether it has failed.
    fn into_sink(self) -> (Sink<S::Part, S::Device>, bool)
        ensures sink { result.0 ≡ self.entry.sink.inner }
        ensures failed { result.1 ≡ self.entry.failed }
    {
        let Output {
            sink,
            passed: _,
            failed,
            screen: _,
        } = self;
        (sink.inner, failed)
    }
}

impl<'a, R: Eprint + Clock + Wait, S: System> Write for Output<'a, R, S> {
    ghost written = { λ output. written_to S.Part.written S.Device.contents output.sink.inner };

    ghost passed = { λ output. output.passed };

    ghost has_failed = { λ output. output.failed };

    fn write(&mut self, bytes: &[u8]) -> Result<usize, Failed> {
        let most = passing(bytes.len(), self.passed);
        if self.failed || most == 0 && !bytes.is_empty() {
            self.failed = true;
            return Err(Failed);
        }
        if bytes.is_empty() {
            return Ok(0);
        }
        match io::Write::write(&mut self.sink, &bytes[..most]) {
            Ok(n) if n > 0 => {
                self.passed += n as u64;
                self.screen.see_written(&bytes[..n]);
                Ok(n)
            }
            _ => {
                self.failed = true;
                Err(Failed)
            }
        }
    }
}

/// Returns how many of these bytes may still pass.
pub(crate) fn passing(len: usize, passed: u64) -> usize
    requires { passed ≤ 2 ^ 62 }
    ensures within { result ≤ len }
    ensures limit { passed + result ≤ 2 ^ 62 }
    ensures some { passed < 2 ^ 62 → 0 < len → 0 < result }
{
    let room = LIMIT - passed;
    if len as u64 <= room {
        len
    } else {
        room as usize
    }
}

// Waits until the disk holds everything that was written, as far as the file system supports this.
fn make_last<P: Part>(part: &mut P) -> io::Result<()>
    ensures written { P.written part.new ≡ P.written part.old }
    ensures lasts { OnOk result (P.lasts part.new ≡ true) }
{
    part.flush()?;
    match part.sync() {
        Ok(()) => Ok(()),
        Err(error) => match error.kind() {
            ErrorKind::InvalidInput | ErrorKind::Unsupported => Ok(()),
            _ => Err(error),
        },
    }
}

impl<'a, R: RandomSource + Clock + Eprint + Wait, S: System> Outputs for Disk<'a, R, S> {
    type Output = Output<'a, R, S>;

    // The path that was given for the file.
    type Name = String;

    ghost outputs = { λ disk. outputs_of (S.made disk.system) };

    ghost is_for = { λ name path. string_bytes name ≡ path };

    fn create(
        &mut self,
        alloc: Global,
        path: &str,
    ) -> Result<Option<(Self::Name, Self::Output)>, AllocError>
        ensures opened { IfOk result (λ made. IfSome made
            (λ file. GoesTo S.path_of file.1.sink.inner path.now)) }
        ensures named { IfOk result (λ made. IfSome made
            (λ file. string_bytes file.0 ≡ path.now)) }
        ensures blank { IfOk result (λ made. IfSome made
            (λ file. IsBlank (⟦<Output<'a, R, S> as Write>⟧.written file.1))) }
        ensures refused { IfOk result (λ made. IfNone made
            ((outputs_of (S.made self.old.system)).takes path.now ≡ false)) }
        ensures begun { IfOk result (λ made. MatchOption made
            (outputs_of (S.made self.new.system) ≡ outputs_of (S.made self.old.system))
            (λ _. outputs_of (S.made self.new.system)
            ≡ with_begun (outputs_of (S.made self.old.system)))) }
        ensures none { OnErr result (outputs_of (S.made self.new.system)
            ≡ outputs_of (S.made self.old.system)) }
        ensures inputs { files_of (S.found self.new.system) ≡ files_of (S.found self.old.system) }
    {
        self.has_output = true;
        let name = String::from_str(alloc, path)?;
        let Some(destination) = Destination::of(&self.system, alloc, path)? else {
            return match self.notes.checked(self.system.open_device(path)) {
                Some(device) => Ok(Some((name, self.output(Sink::Device(device))))),
                None => Ok(None),
            };
        };
        match destination.begin(self.rt, &mut self.system, alloc, self.process) {
            Ok(file) => Ok(Some((name, self.output(Sink::Part(file))))),
            Err(error) if error.kind() == ErrorKind::OutOfMemory => Err(AllocError),
            Err(error) => {
                self.notes.failed(error);
                Ok(None)
            }
        }
    }

    fn keep(&mut self, name: Self::Name, output: Self::Output) -> Result<(), WriteFault>
        ensures placed { OnOk result (S.made self.new.system
            ≡ kept_in S.Part.written S.Device.contents output.entry.sink.inner (string_bytes name)
            (S.made self.old.system)) }
        ensures kept { OnOk result ((path : List ℕ) → string_bytes name ≡ path
            → outputs_of (S.made self.new.system)
            ≡ with_kept (with_ended (outputs_of (S.made self.old.system))) path
            (⟦<Output<'a, R, S> as Write>⟧.written output.entry)) }
        ensures sound { OnOk result
            (⟦<Output<'a, R, S> as Write>⟧.has_failed output.entry ≡ false) }
        ensures gone { OnErr result (S.made self.new.system ≡ one_gone (S.made self.old.system)) }
        ensures unkept { OnErr result (outputs_of (S.made self.new.system)
            ≡ with_ended (outputs_of (S.made self.old.system))) }
        ensures refused { OnErr result ((path : List ℕ) → string_bytes name ≡ path
            → (outputs_of (S.made self.old.system)).takes path ≡ false) }
        ensures inputs { files_of (S.found self.new.system) ≡ files_of (S.found self.old.system) }
    {
        let (sink, has_failed) = output.into_sink();
        match sink {
            Sink::Part(file) if !has_failed => self.keep_part(name, file),
            Sink::Device(device) if !has_failed => {
                match self.notes.checked(self.system.close(device, &name)) {
                    Some(()) => Ok(()),
                    None => Err(WriteFault),
                }
            }
            sink => {
                self.remove(sink);
                Err(WriteFault)
            }
        }
    }

    fn discard(&mut self, _name: Self::Name, output: Self::Output) {
        let (sink, _) = output.into_sink();
        self.remove(sink);
    }
}

impl<'a, R: Eprint + Clock + Wait, S: System> Disk<'a, R, S> {
    /// Returns standard output, before its first byte.
    pub fn standard_output(&self) -> Output<'a, R, S>
        ensures blank { IsBlank (⟦<Output<'a, R, S> as Write>⟧.written result) }
        ensures going { ⟦<Output<'a, R, S> as Write>⟧.has_failed result ≡ false }
    {
        self.output(Sink::Device(self.system.stdout()))
    }

    fn output(&self, sink: Sink<S::Part, S::Device>) -> Output<'a, R, S>
        ensures sink { result.sink.inner ≡ sink }
        ensures going { result.failed ≡ false }
    {
        Output::new(sink, self.notes, self.screen())
    }
}

impl<R, S: System> Disk<'_, R, S> {
    // Lets a file take its place. If that fails, the file is removed.
    fn keep_part(&mut self, name: String, file: UnfinishedFile<S::Part>) -> Result<(), WriteFault>
        ensures placed { OnOk result (S.made self.new.system
            ≡ kept_in S.Part.written S.Device.contents (Sink.Part file) (string_bytes name)
            (S.made self.old.system)) }
        ensures unkept { OnErr result (S.made self.new.system ≡ one_gone (S.made self.old.system)) }
        ensures found { S.found self.new.system ≡ S.found self.old.system }
    {
        let UnfinishedFile { mut part, place } = file;
        let target = Target { path: name, place };
        // Without this, a crash of the system could leave a file with this name that lacks some of its text.
        let kept = match make_last(&mut part) {
            Ok(()) => self.system.rename(&part, &target),
            Err(error) => Err(error),
        };
        match kept {
            Ok(()) => Ok(()),
            Err(error) => {
                self.notes.failed(error);
                self.system.remove(part);
                Err(WriteFault)
            }
        }
    }

    // Removes a file that isn't complete. What was written directly stays.
    fn remove(&mut self, sink: Sink<S::Part, S::Device>)
        ensures gone { S.made self.new.system ≡ one_gone (S.made self.old.system) }
        ensures found { S.found self.new.system ≡ S.found self.old.system }
    {
        match sink {
            Sink::Part(file) => self.system.remove(file.part),
            Sink::Device(device) => self.system.abandon(device),
        }
    }
}
