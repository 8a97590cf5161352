//! Files in memory, about which contracts know everything: what they hold, and which output files were kept with which text.
//!
//! They show that a real type can meet the contracts of `Inputs` and `Outputs`.
ghost use Rattle.std.specs.Prelude.{◌≡◌, ◌≤◌, ◌^◌, false, [], None, IfSome, MatchOption, string_bytes};
ghost use Rattle.sp_device.specs.Failing.{Never};
ghost use Rattle.tests_jobs.specs.Memory.{text_in, files_of, outputs_of};

use crate::stored::StoredFile;
use sp_command::{Inputs, Outputs};
use sp_device::{Read, UpTo, UpToWriter, WriteFault};
use std::alloc::{AllocError, Global};

// More bytes than any text here has.
const AMPLE: usize = 1 << 24;

/// An output file that was kept.
#[derive(Drop)]
pub struct KeptFile {
    path: String,
    output: UpToWriter,
}

impl KeptFile {
    /// Returns the path under which the file was kept.
    pub fn path(&self) -> &str
        ensures { result.now ≡ string_bytes self.now.path }
    {
        self.path.as_str()
    }

    /// Returns the text that was written to the file.
    pub fn text(&self) -> &[u8]
        ensures { result.now ≡ self.now.output.taken.items }
    {
        self.output.taken()
    }
}

/// Files in memory: those that a command can read, and those of its output files that were kept.
#[derive(Drop)]
pub struct Memory<'a> {
    stored: &'a [StoredFile<'a>],
    // The number of bytes that an output file takes.
    room: usize,
    kept: Vec<KeptFile>,
    ghost short: { room ≤ 2 ^ 62 },
}

impl<'a> Memory<'a> {
    /// Returns memory with these files to read. An output file takes `room` bytes, and then its device fails.
    pub fn new(alloc: Global, stored: &'a [StoredFile<'a>], room: usize) -> Memory<'a>
        ensures stored { result.stored.now ≡ stored.now }
        ensures kept { result.kept.items ≡ [] }
    {
        Memory {
            stored,
            room: room.min(AMPLE),
            kept: Vec::new(alloc),
        }
    }

    /// Returns the output files that were kept, in order.
    pub fn kept(&self) -> &[KeptFile]
        ensures { result.now ≡ self.now.kept.items }
    {
        &self.kept
    }
}

// Returns the reader of the first file with this path, if there is one.
fn reader<'a>(stored: &[StoredFile<'a>], path: &str) -> Option<UpTo<'a>>
    ensures text { MatchOption result (text_in stored.now path.now ≡ None)
        (λ file. ⟦<UpTo<'a> as Read>⟧.left file ≡ text_in stored.now path.now) }
    ensures sound { IfSome result (λ file. ⟦<UpTo<'a> as Read>⟧.has_failed file ≡ false) }
    ensures lasting { IfSome result (λ file. ⟦<UpTo<'a> as Read>⟧.failing file ≡ Never) }
{
    for file in stored {
        if file.path == path {
            return Some(UpTo::whole(file.text));
        }
    }
    None
}

impl<'a> Inputs for Memory<'a> {
    type File = UpTo<'a>;

    ghost files = { λ memory. files_of memory.stored.now };

    fn open_input(&self, path: &str) -> Option<UpTo<'a>> {
        reader(self.stored, path)
    }

    fn is_shown(&self) -> bool {
        false
    }

    fn is_same_file(&self, output: &str, input: &str) -> bool {
        output == input
    }
}

impl Outputs for Memory<'_> {
    type Output = UpToWriter;

    type Name = String;

    ghost outputs = { λ memory. outputs_of memory.kept.items };

    ghost is_for = { λ name path. string_bytes name ≡ path };

    fn create(
        &mut self,
        alloc: Global,
        path: &str,
    ) -> Result<Option<(String, UpToWriter)>, AllocError> {
        let name = path.to_string(alloc)?;
        Ok(Some((name, UpToWriter::new(alloc, self.room, AMPLE))))
    }

    fn keep(&mut self, name: String, output: UpToWriter) -> Result<(), WriteFault> {
        match self.kept.push(KeptFile { path: name, output }) {
            Ok(()) => Ok(()),
            Err(_) => Err(WriteFault),
        }
    }

    fn discard(&mut self, _name: String, _output: UpToWriter) {}
}
