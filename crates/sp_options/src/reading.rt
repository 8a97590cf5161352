//! Devices that report how much has been read from them.
ghost use Rattle.std.specs.Prelude.{◌≡◌};

use crate::running::ProgressReporter;
use sp_command::{FileKind, Inputs, ProgressReport};
use sp_device::{Failed, Read};

// The number of bytes between two reports.
const STRETCH: u64 = 1 << 20;

/// A device that reports at intervals how many of its bytes have been read, and once more at its end.
#[derive(Drop)]
pub struct Watched<'t, 'f, D, F> {
    device: D,
    file: FileKind,
    reporter: &'t ProgressReporter<'f, F>,
    // The number of bytes that have been read so far.
    bytes: u64,
    // The number of bytes at which the next report is made.
    next: u64,
}

impl<'t, 'f, D: Read, F: Inputs> Watched<'t, 'f, D, F> {
    /// Returns a watched device from which nothing has been read yet.
    pub fn new(device: D, file: FileKind, reporter: &'t ProgressReporter<'f, F>) -> Self
        ensures left { ⟦<Watched<'static, 'static, D, F> as Read>⟧.left result ≡ D.left device }
        ensures has_failed { ⟦<Watched<'static, 'static, D, F> as Read>⟧.has_failed result
            ≡ D.has_failed device }
        ensures failing { ⟦<Watched<'static, 'static, D, F> as Read>⟧.failing result
            ≡ D.failing device }
    {
        Watched {
            device,
            file,
            reporter,
            bytes: 0,
            next: STRETCH,
        }
    }

    // Counts the bytes of a read, and makes a report if one is due. At the end of the file a read has no bytes.
    fn count(&mut self, bytes: usize)
        ensures { self.new.device ≡ self.old.device }
    {
        self.bytes = self.bytes.saturating_add(bytes as u64);
        if bytes == 0 || self.bytes >= self.next {
            self.next = self.bytes.saturating_add(STRETCH);
            self.reporter.tell(ProgressReport::Read {
                file: self.file,
                bytes: self.bytes,
            });
        }
    }
}

impl<D: Read, F: Inputs> Read for Watched<'_, '_, D, F> {
    ghost left = { λ d. D.left d.device };

    ghost passed = { λ d. D.passed d.device };

    ghost has_failed = { λ d. D.has_failed d.device };

    ghost failing = { λ d. D.failing d.device };

    fn read(&mut self, buf: &mut [u8]) -> Result<usize, Failed> {
        let bytes = self.device.read(buf)?;
        self.count(bytes);
        Ok(bytes)
    }
}
