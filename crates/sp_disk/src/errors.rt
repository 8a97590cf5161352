//! Standard error.
ghost use Rattle.std.specs.Prelude.{◌≡◌, ◌≤◌, ◌^◌, false};
ghost use Rattle.sp_command.specs.Outputs.{IsBlank};

use crate::output::passing;
use crate::screen::Screen;
use crate::system::System;
use sp_device::{Failed, Write};
use std::io;
use std::rt::Clock;
use std::sync::Wait;

/// Standard error, for all messages other than progress. It fails if the system does or takes none of the bytes given to
/// it, and once 2^62 bytes have passed.
pub struct Errors<'a, R, S: System> {
    screen: Screen<'a, R>,
    stream: S::Errors,
    passed: u64,
    failed: bool,
    ghost limit: { passed ≤ 2 ^ 62 },
}

impl<R, S: System> Drop for Errors<'_, R, S> {
    fn drop(self) {
        let Errors {
            screen: _,
            stream: _,
            passed: _,
            failed: _,
        } = self;
    }
}

impl<'a, R, S: System> Errors<'a, R, S> {
    /// Returns this stream of the system, to which nothing was written.
    pub(crate) fn new(screen: Screen<'a, R>, stream: S::Errors) -> Self
        ensures stream { result.stream ≡ stream }
        ensures passed { result.passed ≡ 0 }
        ensures going { result.failed ≡ false }
    {
        Errors {
            screen,
            stream,
            passed: 0,
            failed: false,
        }
    }

    /// Returns the stream of the system.
    pub fn stream(&self) -> &S::Errors
        ensures { result.now ≡ self.now.stream }
    {
        &self.stream
    }
}

impl<'a, R: Eprint + Clock + Wait, S: System> Write for Errors<'a, R, S> {
    ghost written = { λ errors. S.Errors.contents errors.stream };

    ghost passed = { λ errors. errors.passed };

    ghost has_failed = { λ errors. errors.failed };

    fn write(&mut self, bytes: &[u8]) -> Result<usize, Failed> {
        let most = passing(bytes.len(), self.passed);
        if self.failed || most == 0 && !bytes.is_empty() {
            self.failed = true;
            return Err(Failed);
        }
        if bytes.is_empty() {
            return Ok(0);
        }
        // A line that shows progress ends before the text begins.
        self.screen.give_way();
        match io::Write::write(&mut self.stream, &bytes[..most]) {
            Ok(n) if n > 0 => {
                self.passed += n as u64;
                Ok(n)
            }
            _ => {
                self.failed = true;
                Err(Failed)
            }
        }
    }
}
