//! Tests of jobs from bytes to bytes, batches, matrices, forests and pairs, of a forest's file, and of the program in memory, with
//! devices that fail and output files. All go through the public calls. `tests/commands.py` compares what the program writes when
//! no device fails.
#![tactic(auto)]

mod made;
mod memory;
mod stored;
mod system;

pub use made::{CompleteFile, MemoryDevice, MemoryPart};
pub use memory::{KeptFile, Memory};
pub use stored::StoredFile;
pub use system::MemorySystem;

#[cfg(test)]
mod batches;
#[cfg(test)]
mod devices;
#[cfg(test)]
mod directions;
#[cfg(test)]
mod faults;
#[cfg(test)]
mod files;
#[cfg(test)]
mod graphs;
#[cfg(test)]
mod groups;
#[cfg(test)]
mod matrix;
#[cfg(test)]
mod meeting;
#[cfg(test)]
mod nearest;
#[cfg(test)]
mod outputs;
#[cfg(test)]
mod program;
#[cfg(test)]
mod routes;
#[cfg(test)]
mod shelf;
#[cfg(test)]
mod streams;
#[cfg(test)]
mod threads;
