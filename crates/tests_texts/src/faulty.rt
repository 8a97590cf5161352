//! A reader and writer of `std` that fails.
ghost use Rattle.std.specs.Prelude.{◌≤◌, IfOk};

use std::io;

/// Passes at most `most` bytes a call, and fails at one call.
#[derive(Drop)]
pub struct Faulty {
    most: usize,
    calls: u32,
    failing: u32,
    kind: io::ErrorKind,
}

impl Faulty {
    pub fn new(most: usize, failing: u32, kind: io::ErrorKind) -> Self {
        Faulty {
            most,
            calls: 0,
            failing,
            kind,
        }
    }

    // Returns how many of `len` bytes pass.
    fn turn(&mut self, len: usize) -> io::Result<usize>
        ensures { IfOk result (λ n. n ≤ len) }
    {
        self.calls = self.calls.saturating_add(1);
        if self.calls == self.failing {
            return Err(io::Error::from(self.kind));
        }
        Ok(len.min(self.most))
    }
}

impl io::Read for Faulty {
    fn read(&mut self, buf: &mut [u8]) -> io::Result<usize> {
        let n = self.turn(buf.len())?;
        buf[..n].fill(b'c');
        Ok(n)
    }
}

impl io::Write for Faulty {
    fn write(&mut self, buf: &[u8]) -> io::Result<usize> {
        self.turn(buf.len())
    }

    fn flush(&mut self) -> io::Result<()> {
        Ok(())
    }
}
