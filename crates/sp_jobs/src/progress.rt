//! The progress of a batch, and the listener to which it is reported.
use crate::answers::Summary;
use sp_word::Meter;
use std::fmt;

/// The progress of a batch.
#[derive(Clone, Copy, Debug, PartialEq, Eq)]
pub enum Progress {
    /// The files have been read, and the rows of the graph have been built.
    Graph { vertices: u32, arcs: usize },
    /// The answers that the summary counts have been written, of `count` sources in all.
    Sources { written: Summary, count: usize },
    /// The answers that the summary counts have been written, of `count` runs in all, each from all sources.
    Runs { written: Summary, count: usize },
    /// The lines of a matrix that the summary counts have been written, of `count` in all.
    Lines { written: Summary, count: usize },
    /// The answers for the first `found` of `count` pairs are known.
    Pairs { found: usize, count: usize },
}

impl fmt::Display for Progress {
    fn fmt<W: fmt::Write>(&self, f: &mut fmt::Formatter<W>) -> fmt::Result {
        match self {
            Progress::Graph { vertices, arcs } => {
                write!(f, "graph of {vertices} vertices and {arcs} arcs")
            }
            Progress::Sources { written, count } => {
                let Summary { sources, bytes, .. } = written;
                write!(f, "{sources} of {count} sources, {bytes} bytes written")
            }
            Progress::Runs { written, count } => {
                let Summary { sources, bytes, .. } = written;
                write!(f, "{sources} of {count} runs, {bytes} bytes written")
            }
            Progress::Lines { written, count } => {
                let Summary { sources, bytes, .. } = written;
                write!(f, "{sources} of {count} lines, {bytes} bytes written")
            }
            Progress::Pairs { found, count } => write!(f, "{found} of {count} pairs"),
        }
    }
}

/// A listener for a batch's progress, on the thread that called the batch. What a batch returns and writes doesn't
/// depend on its listener.
pub trait Listener: Drop {
    /// Receives the progress: once when the graph has been built, and before each run from a source, a group of sources
    /// or a pair.
    fn hear(&self, progress: Progress);

    /// Returns the meter on which the workers count the vertices that they relax, if the listener reads it during the
    /// run. By default there is none.
    fn meter(&self) -> Option<&Meter> {
        None
    }
}

/// A listener that ignores all progress.
#[derive(Drop)]
pub struct Nobody;

impl Listener for Nobody {
    fn hear(&self, _progress: Progress) {}
}
