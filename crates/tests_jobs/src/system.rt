//! A system in memory, about which contracts know everything: what its files hold, which files were made, and where they are.
//!
//! It shows that a real type can meet the contract of `System`.
ghost use Rattle.std.specs.Prelude.{◌≡◌, ◌<◌, ◌+◌, false, true, [], None, Some, IfOk, MatchOption, OnErr, OnOk, map, option_map, string_bytes};
ghost use Rattle.clap.specs.Walk.{texts};
ghost use Rattle.tests_jobs.specs.InMemory.{found_in, id_from, made_in, path_in, with_complete};
ghost use Rattle.tests_jobs.specs.Memory.{text_in};

use crate::made::{CompleteFile, MemoryDevice, MemoryPart};
use crate::stored::StoredFile;
use sp_disk::{FileId, FileStatus, System, Target};
use std::alloc::{AllocError, Global};
use std::io;
use std::io::ErrorKind;
use std::path::PathBuf;

/// A system in memory. What is made in it can't be read.
#[derive(Drop)]
pub struct MemorySystem<'a> {
    pub alloc: Global,
    /// The words of the command line, unless one of them isn't UTF-8.
    pub words: Option<&'a [&'a str]>,
    /// Whether there is memory for the words.
    pub has_memory: bool,
    /// The greatest number of bytes that an output takes, and standard output.
    pub room: usize,
    /// The files that can be read.
    pub stored: &'a [StoredFile<'a>],
    /// The text of standard input.
    pub stdin: &'a [u8],
    /// Whether standard output is a terminal.
    pub terminal: bool,
    complete: Vec<CompleteFile>,
    begun: usize,
}

impl<'a> MemorySystem<'a> {
    /// Returns a system with these words, these files and this standard input, in which nothing was made.
    pub fn new(
        alloc: Global,
        words: &'a [&'a str],
        stored: &'a [StoredFile<'a>],
        stdin: &'a [u8],
        terminal: bool,
    ) -> Self
        ensures given { ⟦<MemorySystem<'a> as System>⟧.given result ≡ Some (texts words.now) }
        ensures found { ⟦<MemorySystem<'a> as System>⟧.found result
            ≡ found_in stored.now stdin.now terminal }
        ensures made { ⟦<MemorySystem<'a> as System>⟧.made result ≡ made_in [] 0 }
    {
        MemorySystem {
            alloc,
            words: Some(words),
            has_memory: true,
            room: usize::MAX,
            stored,
            stdin,
            terminal,
            complete: Vec::new(alloc),
            begun: 0,
        }
    }

    /// Returns the files that are complete, in order.
    pub fn complete_files(&self) -> &[CompleteFile]
        ensures { result.now ≡ self.now.complete.items }
    {
        &self.complete
    }

    /// Returns whether a file is begun, and neither complete nor removed.
    pub fn has_begun(&self) -> bool
        ensures some { result ≡ true → 0 < self.now.begun }
        ensures none { result ≡ false → self.now.begun ≡ 0 }
    {
        self.begun > 0
    }

    // Counts one more file that is begun.
    fn begin(&mut self) -> io::Result<()>
        ensures begun { OnOk result (self.new.begun ≡ self.old.begun + 1) }
        ensures none { OnErr result (self.new.begun ≡ self.old.begun) }
        ensures stored { self.new.stored ≡ self.old.stored }
        ensures stdin { self.new.stdin ≡ self.old.stdin }
        ensures terminal { self.new.terminal ≡ self.old.terminal }
        ensures complete { self.new.complete ≡ self.old.complete }
    {
        match self.begun.checked_add(1) {
            Some(begun) => {
                self.begun = begun;
                Ok(())
            }
            None => Err(ErrorKind::OutOfMemory.into()),
        }
    }
}

impl MemorySystem<'_> {
    // Keeps a file, one of those that are begun.
    #[tactic(auto, using(crate::proofs::Places::made_behind))]
    fn complete(&mut self, file: CompleteFile) -> io::Result<()>
        ensures made { OnOk result (made_in self.new.complete.items self.new.begun
            ≡ with_complete file (made_in self.old.complete.items self.old.begun)) }
        ensures none { OnErr result (made_in self.new.complete.items self.new.begun
            ≡ made_in self.old.complete.items self.old.begun) }
        ensures stored { self.new.stored ≡ self.old.stored }
        ensures stdin { self.new.stdin ≡ self.old.stdin }
        ensures terminal { self.new.terminal ≡ self.old.terminal }
    {
        match self.complete.push(file) {
            Ok(()) => {
                self.begun = self.begun.saturating_sub(1);
                Ok(())
            }
            Err(_) => Err(ErrorKind::OutOfMemory.into()),
        }
    }
}

// Returns copies of these words.
fn copies(alloc: Global, words: &[&str]) -> Result<Vec<String>, AllocError>
    ensures { IfOk result (λ all. map string_bytes all.items ≡ texts words.now) }
{
    let mut all = Vec::new(alloc);
    for word in words {
        all.push(String::from_str(alloc, word)?)?;
    }
    Ok(all)
}

// Returns the text of the first file with this path, if there is one.
fn text_of<'a>(stored: &[StoredFile<'a>], path: &str) -> Option<&'a [u8]>
    ensures { MatchOption result (text_in stored.now path.now ≡ None)
        (λ text. text_in stored.now path.now ≡ Some text.now) }
{
    for file in stored {
        if file.path == path {
            return Some(file.text);
        }
    }
    None
}

// Returns the number and the size of the first file with this path, if there is one.
fn status_of(stored: &[StoredFile<'_>], path: &str) -> Option<FileStatus>
    ensures { id_from 0 stored.now path.now ≡ option_map (λ status. status.id) result }
{
    for (index, file) in stored.iter().enumerate() {
        if file.path == path {
            return Some(FileStatus {
                id: FileId {
                    device: 0,
                    inode: index as u64,
                },
                size: file.text.len() as u64,
                mode: 0o100600,
                owner: 0,
                group: 0,
            });
        }
    }
    None
}

impl<'a> System for MemorySystem<'a> {
    type File = &'a [u8];

    type Stdin = &'a [u8];

    type Part = MemoryPart;

    type Device = MemoryDevice;

    type Errors = MemoryDevice;

    ghost given = { λ system. option_map (λ words. texts words.now) system.words };

    ghost found = { λ system. found_in system.stored.now system.stdin.now system.terminal };

    ghost path_of = { path_in };

    ghost made = { λ system. made_in system.complete.items system.begun };

    fn words(&self, alloc: Global) -> io::Result<Vec<String>> {
        if !self.has_memory {
            return Err(ErrorKind::OutOfMemory.into());
        }
        match self.words {
            Some(words) => Ok(copies(alloc, words)?),
            None => Err(ErrorKind::InvalidData.into()),
        }
    }

    fn open(&self, path: &str) -> io::Result<&'a [u8]> {
        match text_of(self.stored, path) {
            Some(text) => Ok(text),
            None => Err(ErrorKind::NotFound.into()),
        }
    }

    fn stdin(&self) -> &'a [u8] {
        self.stdin
    }

    fn status(&self, path: &str) -> io::Result<Option<FileStatus>> {
        match status_of(self.stored, path) {
            Some(status) => Ok(Some(status)),
            None => Err(ErrorKind::NotFound.into()),
        }
    }

    fn is_terminal(&self) -> bool {
        self.terminal
    }

    fn is_link(&self, _path: &str) -> bool {
        false
    }

    fn read_link(&self, _path: &str) -> io::Result<PathBuf> {
        Err(ErrorKind::InvalidInput.into())
    }

    fn canonicalize(&self, path: &str) -> io::Result<PathBuf> {
        Ok(PathBuf::from_str(self.alloc, path)?)
    }

    fn stdout(&self) -> MemoryDevice {
        MemoryDevice::new(self.alloc, None, self.room)
    }

    fn stderr(&self) -> MemoryDevice {
        MemoryDevice::new(self.alloc, None, usize::MAX)
    }

    fn is_error_terminal(&self) -> bool {
        false
    }

    fn open_device(&mut self, path: &str) -> io::Result<MemoryDevice> {
        let path = Some(String::from_str(self.alloc, path)?);
        self.begin()?;
        Ok(MemoryDevice::new(self.alloc, path, self.room))
    }

    fn close(&mut self, device: MemoryDevice, path: &str) -> io::Result<()> {
        let text = device.text;
        let kept = match String::from_str(self.alloc, path) {
            Ok(path) => self.complete(CompleteFile {
                path,
                place: None,
                text,
            }),
            Err(error) => Err(error.into()),
        };
        if kept.is_err() {
            self.begun = self.begun.saturating_sub(1);
        }
        kept
    }

    fn abandon(&mut self, _device: MemoryDevice) {
        self.begun = self.begun.saturating_sub(1);
    }

    fn make(&mut self, _path: String, _mode: u32) -> io::Result<MemoryPart> {
        self.begin()?;
        Ok(MemoryPart::new(self.alloc, self.room))
    }

    fn chown(
        &self,
        _part: &MemoryPart,
        _owner: Option<u32>,
        _group: Option<u32>,
    ) -> io::Result<()> {
        Ok(())
    }

    fn rename(&mut self, part: &MemoryPart, target: &Target) -> io::Result<()> {
        if !part.lasts {
            return Err(ErrorKind::Unsupported.into());
        }
        let path = target.path.to_string(self.alloc)?;
        let place = Some(target.place.to_string(self.alloc)?);
        let mut text = Vec::new(self.alloc);
        text.extend_from_slice(&part.text)?;
        self.complete(CompleteFile { path, place, text })
    }

    fn remove(&mut self, _part: MemoryPart) {
        self.begun = self.begun.saturating_sub(1);
    }
}
