//! The system that the program runs on.
//!
//! Each method here makes one call of `std` and nothing else. No contract can say what the disk holds, so that these
//! lines do as their names say is trusted; it can be seen by reading them.
ghost use Rattle.std.specs.Prelude.{None, true};

use crate::status::{FileId, FileStatus};
use crate::system::{Part, System, Target};
use either::Either;
use std::alloc::Global;
use std::fs::{Metadata, OpenFile, OpenOptions, Permissions};
use std::io::{IsTerminal, Stderr, Stdin, Stdout, Write};
use std::os::unix::fs::{MetadataExt, OpenOptionsExt, PermissionsExt, lchown};
use std::path::PathBuf;
use std::rt::{Env, Files};
use std::{env, fs, io};

/// The system that the program runs on, of which contracts know nothing.
#[derive(Drop)]
pub struct Host<'a, R> {
    pub rt: &'a R,
    pub stdin: Stdin,
    pub stdout: Stdout,
    pub stderr: Stderr,
}

/// A file of the host that is being written, and its path.
#[derive(Drop)]
pub struct HostPart<F> {
    file: F,
    path: String,
}

impl<F: Write + OpenFile> Part for HostPart<F> {
    ghost written = { λ _. None };

    ghost lasts = { λ _. true };

    fn write(&mut self, bytes: &[u8]) -> io::Result<usize> {
        self.file.write(bytes)
    }

    fn flush(&mut self) -> io::Result<()> {
        self.file.flush()
    }

    fn sync(&mut self) -> io::Result<()> {
        self.file.sync_all()
    }

    fn status(&self) -> io::Result<FileStatus> {
        Ok(status_of(&self.file.metadata()?))
    }

    fn set_mode(&self, mode: u32) -> io::Result<()> {
        self.file.set_permissions(Permissions::from_mode(mode))
    }
}

impl<R: Env + Files + AllocGlobal> System for Host<'_, R> {
    type File = R::File;

    type Stdin = Stdin;

    type Part = HostPart<R::File>;

    type Device = Either<HostDevice<R::File>, Stdout>;

    type Errors = Stderr;

    fn words(&self, alloc: Global) -> io::Result<Vec<String>> {
        Ok(env::args(self.rt)?.collect(alloc)?)
    }

    fn open(&self, path: &str) -> io::Result<R::File> {
        fs::open(self.rt, path)
    }

    fn stdin(&self) -> Stdin {
        self.stdin
    }

    fn status(&self, path: &str) -> io::Result<Option<FileStatus>> {
        let found = fs::metadata(self.rt, path)?;
        Ok(found.is_file().then(|| status_of(&found)))
    }

    fn is_terminal(&self) -> bool {
        self.stdout.is_terminal()
    }

    fn is_link(&self, path: &str) -> bool {
        fs::symlink_metadata(self.rt, path).is_ok_and(|found| found.is_symlink())
    }

    fn read_link(&self, path: &str) -> io::Result<PathBuf> {
        fs::read_link(self.rt, path)
    }

    fn canonicalize(&self, path: &str) -> io::Result<PathBuf> {
        fs::canonicalize(self.rt, path)
    }

    fn stdout(&self) -> Self::Device {
        Either::Right(self.stdout)
    }

    fn stderr(&self) -> Stderr {
        self.stderr
    }

    fn is_error_terminal(&self) -> bool {
        self.stderr.is_terminal()
    }

    fn open_device(&mut self, path: &str) -> io::Result<Self::Device> {
        let mut options = OpenOptions::new();
        options.write(true).truncate(true);
        Ok(Either::Left(HostDevice(options.open(self.rt, path)?)))
    }

    fn close(&mut self, _device: Self::Device, _path: &str) -> io::Result<()> {
        Ok(())
    }

    fn abandon(&mut self, _device: Self::Device) {}

    fn make(&mut self, path: String, mode: u32) -> io::Result<Self::Part> {
        let mut options = OpenOptions::new();
        options.write(true).create_new(true).mode(mode);
        let file = options.open(self.rt, path.as_str())?;
        Ok(HostPart { file, path })
    }

    fn chown(&self, part: &Self::Part, owner: Option<u32>, group: Option<u32>) -> io::Result<()> {
        lchown(self.rt, part.path.as_str(), owner, group)
    }

    fn rename(&mut self, part: &Self::Part, target: &Target) -> io::Result<()> {
        fs::rename(self.rt, part.path.as_str(), target.place.as_str())
    }

    fn remove(&mut self, part: Self::Part) {
        let _ = fs::remove_file(self.rt, part.path.as_str());
    }
}

/// A device or a pipe of the host that is written to directly. Contracts know nothing of it.
#[derive(Drop)]
pub struct HostDevice<F>(F);

impl<F: Write> Write for HostDevice<F> {
    fn write(&mut self, bytes: &[u8]) -> io::Result<usize> {
        self.0.write(bytes)
    }

    fn flush(&mut self) -> io::Result<()> {
        self.0.flush()
    }
}

// Returns the part of a file's metadata that commands need.
fn status_of(found: &Metadata) -> FileStatus {
    FileStatus {
        id: FileId {
            device: found.dev(),
            inode: found.ino(),
        },
        size: found.len(),
        mode: found.mode(),
        owner: found.uid(),
        group: found.gid(),
    }
}
