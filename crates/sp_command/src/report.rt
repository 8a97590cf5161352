//! Reports of the progress of a command.
use crate::faults::FileKind;
use std::fmt;

/// The progress of a command.
#[derive(Clone, Copy)]
pub enum ProgressReport {
    /// This many bytes of a file have been read.
    Read { file: FileKind, bytes: u64 },
    /// The files have been read, and the graph's rows have been built.
    Graph { vertices: u32, arcs: u64 },
    /// The trees of the first `done` of `count` sources have been written, in this many bytes.
    Sources { done: u64, count: u64, bytes: u64 },
    /// The answers of the first `done` of `count` runs, each from all sources, have been written, in this many bytes.
    Runs { done: u64, count: u64, bytes: u64 },
    /// The first `done` of the `count` lines of a matrix have been written, in this many bytes.
    Lines { done: u64, count: u64, bytes: u64 },
    /// The answers to the first `done` of `count` pairs have been found.
    Pairs { done: u64, count: u64 },
}

impl ProgressReport {
    /// Returns whether both reports are about the same stage of a command.
    pub fn is_like(self, other: ProgressReport) -> bool {
        match (self, other) {
            (ProgressReport::Read { file, .. }, ProgressReport::Read { file: next, .. }) => file
                == next,
            (ProgressReport::Graph { .. }, ProgressReport::Graph { .. }) => true,
            (ProgressReport::Sources { .. }, ProgressReport::Sources { .. }) => true,
            (ProgressReport::Runs { .. }, ProgressReport::Runs { .. }) => true,
            (ProgressReport::Lines { .. }, ProgressReport::Lines { .. }) => true,
            (ProgressReport::Pairs { .. }, ProgressReport::Pairs { .. }) => true,
            _ => false,
        }
    }
}

impl fmt::Display for ProgressReport {
    fn fmt<W: fmt::Write>(&self, f: &mut fmt::Formatter<W>) -> fmt::Result {
        match self {
            ProgressReport::Read { file, bytes } => write!(f, "{file}: {bytes} bytes read"),
            ProgressReport::Graph { vertices, arcs } => {
                write!(f, "graph of {vertices} vertices and {arcs} arcs")
            }
            ProgressReport::Sources { done, count, bytes } => {
                write!(f, "{done} of {count} sources, {bytes} bytes written")
            }
            ProgressReport::Runs { done, count, bytes } => {
                write!(f, "{done} of {count} runs, {bytes} bytes written")
            }
            ProgressReport::Lines { done, count, bytes } => {
                write!(f, "{done} of {count} lines, {bytes} bytes written")
            }
            ProgressReport::Pairs { done, count } => write!(f, "{done} of {count} pairs"),
        }
    }
}
