//! Notes about files and streams of the system, taken while they are read and written.
ghost use Rattle.std.specs.Prelude.{◌≡◌};
ghost use Rattle.std.specs.Result.{result_ok};

use crate::screen::Watch;
use sp_command::Encoding;
use std::cell::Cell;
use std::io;

/// The reason of the last failure, the encoding and the size of the file whose reading began last, and what was shown
/// of the run's progress.
#[derive(Drop)]
pub struct FileNotes {
    reason: Cell<Option<io::Error>>,
    encoding: Cell<Option<Encoding>>,
    size: Cell<Option<u64>>,
    watch: Watch,
}

impl FileNotes {
    /// Returns notes with nothing in them.
    pub fn new() -> Self {
        FileNotes {
            reason: Cell::new(None),
            encoding: Cell::new(None),
            size: Cell::new(None),
            watch: Watch::new(),
        }
    }

    /// Returns the value of a successful result. If the system reported an error, notes it.
    pub fn checked<T: Drop>(&self, answer: io::Result<T>) -> Option<T>
        ensures { result ≡ result_ok answer }
    {
        match answer {
            Ok(value) => Some(value),
            Err(error) => {
                self.failed(error);
                None
            }
        }
    }

    /// Notes the reason of a failure.
    pub fn failed(&self, error: io::Error) {
        self.reason.set(Some(error));
    }

    /// Returns the reason that the system gave for the last failure.
    pub fn reason(&self) -> Option<io::Error> {
        self.reason.get()
    }

    /// Returns the encoding of the file whose reading began last, if it isn't plain text.
    pub fn encoding(&self) -> Option<Encoding> {
        self.encoding.get()
    }

    /// Returns the size in bytes of the file whose reading began last, if it is known.
    pub fn size(&self) -> Option<u64> {
        self.size.get()
    }

    /// Returns the watch over the run's progress.
    pub fn watch(&self) -> &Watch {
        &self.watch
    }
}

// The number of bytes that show how a file is encoded.
const BEGINNING: usize = 6;

/// A file or a stream. It notes the reason of each failure, and how the file begins.
#[derive(Drop)]
pub struct Noted<'a, T> {
    pub(crate) inner: T,
    notes: &'a FileNotes,
    size: Option<u64>,
    // The first bytes that have been read, and their number. A reader may ask for a single byte at first.
    beginning: [u8; BEGINNING],
    begun: usize,
}

impl<'a, T> Noted<'a, T> {
    /// Returns a file or a stream of which nothing has been read. It has this size in bytes, if the size is known.
    pub(crate) fn new(inner: T, notes: &'a FileNotes, size: Option<u64>) -> Self
        ensures { result.inner ≡ inner }
    {
        Noted {
            inner,
            notes,
            size,
            beginning: [0; BEGINNING],
            begun: 0,
        }
    }

    // Notes how the file begins, until all bytes of its beginning have been read.
    fn begin(&mut self, bytes: &[u8])
        ensures { self.new.inner ≡ self.old.inner }
    {
        if self.begun == BEGINNING {
            return;
        }
        for byte in bytes.iter().take(BEGINNING) {
            if let Some(place) = self.beginning.get_mut(self.begun) {
                *place = *byte;
                self.begun += 1;
            }
        }
        if let Some(beginning) = self.beginning.get(..self.begun) {
            self.notes.encoding.set(Encoding::of(beginning));
        }
        self.notes.size.set(self.size);
    }
}

impl<T: io::Read> io::Read for Noted<'_, T> {
    ghost remaining = { λ noted. T.remaining noted.inner };

    fn read(&mut self, buf: &mut [u8]) -> io::Result<usize> {
        match self.inner.read(buf) {
            Ok(n) => {
                self.begin(&buf[..n]);
                Ok(n)
            }
            Err(error) => {
                self.notes.failed(error);
                Err(error)
            }
        }
    }
}

impl<T: io::Write> io::Write for Noted<'_, T> {
    ghost contents = { λ noted. T.contents noted.inner };

    fn write(&mut self, bytes: &[u8]) -> io::Result<usize> {
        match self.inner.write(bytes) {
            Ok(n) => Ok(n),
            Err(error) => {
                self.notes.failed(error);
                Err(error)
            }
        }
    }

    fn flush(&mut self) -> io::Result<()> {
        match self.inner.flush() {
            Ok(()) => Ok(()),
            Err(error) => {
                self.notes.failed(error);
                Err(error)
            }
        }
    }
}
