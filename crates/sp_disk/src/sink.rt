//! Where an output goes.
ghost use Rattle.sp_disk.specs.Made.{written_to};

use crate::system::Part;
use std::io;

/// A file that has a name of its own until it is complete, and the place that it then takes.
#[derive(Drop)]
pub struct UnfinishedFile<P> {
    pub(crate) part: P,
    pub(crate) place: String,
}

/// A file that is renamed once it is complete, or something that is written to directly.
#[derive(Drop)]
pub enum Sink<P, D> {
    Part(UnfinishedFile<P>),
    Device(D),
}

impl<P: Part, D: io::Write> io::Write for Sink<P, D> {
    ghost contents = { written_to P.written D.contents };

    fn write(&mut self, bytes: &[u8]) -> io::Result<usize> {
        match self {
            Sink::Part(file) => file.part.write(bytes),
            Sink::Device(device) => device.write(bytes),
        }
    }

    fn flush(&mut self) -> io::Result<()> {
        match self {
            Sink::Part(file) => file.part.flush(),
            Sink::Device(device) => device.flush(),
        }
    }
}
