//! What is made in memory: files that are being written, what is written to directly, and complete files.
ghost use Rattle.std.specs.Prelude.{◌≡◌, [], Some, option_map, string_bytes};
ghost use Rattle.std.specs.Io.{WritesAtMost};
ghost use Rattle.std.specs.Io.KnownBytes.{WriteAppends};

use sp_disk::{FileStatus, Part};
use std::alloc::Global;
use std::io;
use std::io::ErrorKind;

// Writes as many of these bytes as there is room for.
fn write_within(text: &mut Vec<u8>, room: usize, bytes: &[u8]) -> io::Result<usize>
    ensures within { WritesAtMost result bytes.now }
    ensures bytes { WriteAppends (Some text.old.items) (Some text.new.items) result bytes.now }
{
    let most = bytes.len().min(room.saturating_sub(text.len()));
    if most == 0 && !bytes.is_empty() {
        return Err(ErrorKind::StorageFull.into());
    }
    io::Write::write(text, &bytes[..most])
}

/// A file in memory that is being written under a name of its own.
#[derive(Drop)]
pub struct MemoryPart {
    pub(crate) text: Vec<u8>,
    pub(crate) lasts: bool,
    // The greatest number of bytes that it takes.
    room: usize,
}

impl MemoryPart {
    /// Returns a file to which nothing was written.
    pub(crate) fn new(alloc: Global, room: usize) -> Self
        ensures text { result.text.items ≡ [] }
    {
        MemoryPart {
            text: Vec::new(alloc),
            lasts: false,
            room,
        }
    }
}

impl Part for MemoryPart {
    ghost written = { λ part. Some part.text.items };

    ghost lasts = { λ part. part.lasts };

    fn write(&mut self, bytes: &[u8]) -> io::Result<usize> {
        self.lasts = false;
        write_within(&mut self.text, self.room, bytes)
    }

    fn flush(&mut self) -> io::Result<()> {
        io::Write::flush(&mut self.text)
    }

    fn sync(&mut self) -> io::Result<()> {
        self.lasts = true;
        Ok(())
    }

    fn status(&self) -> io::Result<FileStatus> {
        Err(ErrorKind::Unsupported.into())
    }

    fn set_mode(&self, _mode: u32) -> io::Result<()> {
        Ok(())
    }
}

/// Something in memory that is written to directly.
#[derive(Drop)]
pub struct MemoryDevice {
    pub(crate) path: Option<String>,
    pub(crate) text: Vec<u8>,
    // The greatest number of bytes that it takes.
    room: usize,
}

impl MemoryDevice {
    /// Returns a device to which nothing was written.
    pub(crate) fn new(alloc: Global, path: Option<String>, room: usize) -> Self
        ensures path { result.path ≡ path }
        ensures text { result.text.items ≡ [] }
    {
        MemoryDevice {
            path,
            text: Vec::new(alloc),
            room,
        }
    }

    /// Returns what was written to it.
    pub fn text(&self) -> &[u8]
        ensures { result.now ≡ self.now.text.items }
    {
        self.text.as_slice()
    }
}

impl io::Write for MemoryDevice {
    ghost contents = { λ device. Some device.text.items };

    fn write(&mut self, bytes: &[u8]) -> io::Result<usize> {
        write_within(&mut self.text, self.room, bytes)
    }

    fn flush(&mut self) -> io::Result<()> {
        Ok(())
    }
}

/// A file that is complete: the path for which it was made, its place if it has one, and its text.
#[derive(Drop)]
pub struct CompleteFile {
    pub(crate) path: String,
    pub(crate) place: Option<String>,
    pub(crate) text: Vec<u8>,
}

impl CompleteFile {
    /// Returns the path for which it was made.
    pub fn path(&self) -> &str
        ensures { result.now ≡ string_bytes self.now.path }
    {
        self.path.as_str()
    }

    /// Returns its place, if it has one.
    pub fn place(&self) -> Option<&str>
        ensures { option_map (λ place. place.now) result
            ≡ option_map (λ place. string_bytes place) self.now.place }
    {
        match &self.place {
            Some(place) => Some(place.as_str()),
            None => None,
        }
    }

    /// Returns its text.
    pub fn text(&self) -> &[u8]
        ensures { result.now ≡ self.now.text.items }
    {
        &self.text
    }
}
