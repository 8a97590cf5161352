//! Runs of the program in memory, with devices that may fail.
ghost use Rattle.std.specs.Prelude.{◌≡◌, false, IfSome};

use sp_cli::{Inputs, Outputs, run_command};
use sp_device::{Failed, Read, UpTo, UpToWriter, WriteFault};
use std::alloc::{AllocError, Global};
use std::process::Abort;
use std::str::from_utf8;
use std::sync::Wait;
use std::test::Fail;
use std::thread::Threads;

/// More bytes than any text here has.
pub const AMPLE: usize = 1 << 24;

/// A file in memory.
#[derive(Clone, Copy)]
pub enum Stored<'a> {
    /// Has these bytes.
    Whole(&'a [u8]),
    /// Gives these bytes, and then its device fails.
    Failing(&'a [u8]),
}

/// A file with this text.
pub fn whole(text: &str) -> Stored<'_> {
    Stored::Whole(text.as_bytes())
}

// A device whose contract doesn't say when it may fail.
#[derive(Drop)]
pub struct Device<R> {
    inner: R,
}

impl<R: Read> Read for Device<R> {
    ghost left = { λ d. R.left d.inner };

    ghost passed = { λ d. R.passed d.inner };

    ghost has_failed = { λ d. R.has_failed d.inner };

    fn read(&mut self, buf: &mut [u8]) -> Result<usize, Failed> {
        self.inner.read(buf)
    }
}

// Files in memory, by name. None can be created.
#[derive(Clone, Copy)]
struct FilesByName<'a> {
    files: &'a [(&'a str, Stored<'a>)],
}

impl Outputs for FilesByName<'_> {
    type Output = UpToWriter;

    type Name = ();

    fn create(
        &mut self,
        _alloc: Global,
        _path: &str,
    ) -> Result<Option<((), UpToWriter)>, AllocError> {
        Ok(None)
    }

    fn keep(&mut self, _name: (), _output: UpToWriter) -> Result<(), WriteFault> {
        Err(WriteFault)
    }

    fn discard(&mut self, _name: (), _output: UpToWriter) {}
}

impl<'a> Inputs for FilesByName<'a> {
    type File = Device<UpTo<'a>>;

    fn open_input(&self, path: &str) -> Option<Device<UpTo<'a>>> {
        for (name, stored) in self.files {
            if *name == path {
                return reader(*stored);
            }
        }
        None
    }

    fn is_shown(&self) -> bool {
        false
    }

    fn is_same_file(&self, _output: &str, _input: &str) -> bool {
        false
    }
}

fn reader<'a>(stored: Stored<'a>) -> Option<Device<UpTo<'a>>>
    ensures { IfSome result (λ file. ⟦<Device<UpTo<'a>> as Read>⟧.has_failed file ≡ false) }
{
    let inner = match stored {
        Stored::Whole(bytes) if bytes.len() <= AMPLE => UpTo::whole(bytes),
        Stored::Failing(bytes) if bytes.len() <= AMPLE => UpTo::failing(bytes),
        _ => return None,
    };
    Some(Device { inner })
}

/// The result of a run of the program.
#[derive(Drop)]
pub struct ProgramEnd {
    pub status: u8,
    pub out: UpToWriter,
    pub err: UpToWriter,
}

/// Runs the program on the words of a line, separated by single blanks, with streams that take these numbers of bytes in all.
pub fn run_in<R: Threads + Wait + Sync>(
    rt: &R,
    alloc: Global,
    rooms: (usize, usize),
    line: &str,
    files: &mut (impl Inputs + Outputs),
) -> Result<ProgramEnd, Fail> {
    let mut out = UpToWriter::new(alloc, rooms.0.min(AMPLE), AMPLE);
    let mut err = UpToWriter::new(alloc, rooms.1.min(AMPLE), AMPLE);
    let words: Vec<&str> = line.split(' ').collect(alloc)?;
    let status = run_command(rt, alloc, &words, files, &mut out, &mut err);
    Ok(ProgramEnd { status, out, err })
}

/// Runs the program so on these files.
pub fn run_into<R: Threads + Wait + Sync>(
    rt: &R,
    alloc: Global,
    rooms: (usize, usize),
    line: &str,
    files: &[(&str, Stored<'_>)],
) -> Result<ProgramEnd, Fail> {
    run_in(rt, alloc, rooms, line, &mut FilesByName { files })
}

/// Asserts the status, and the text of standard output and of standard error.
pub fn expect(rt: &impl Abort, name: &str, ended: ProgramEnd, status: u8, out: &str, err: &str) {
    assert_eq!(rt; from_utf8(ended.err.taken()), Ok(err), "in {name}");
    assert_eq!(rt; from_utf8(ended.out.taken()), Ok(out), "in {name}");
    assert_eq!(rt; ended.status, status, "in {name}");
}
