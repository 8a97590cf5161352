//! Reports the result of a call on standard output.
use sp_device::{Write, WriteFault};
use sp_files::{Tree, write_far, write_tree};
use sp_packed::{PackedFault, PackedKind};
use sp_phase::RunError;
use sp_text::{DimacsError, Kind};
use std::io;

/// How a call ended. `Wrong` is an answer that its contract rules out here.
#[derive(Clone, Copy)]
pub enum Ending {
    Answered,
    Memory,
    Wrong,
}

/// Reports a fault of a sample's text. The text itself has none, so it must be that memory was refused.
pub fn tell_fault<R: Eprint>(rt: &R, fault: DimacsError) -> io::Result<Ending> {
    eprintln!(rt; "{fault}")?;
    if matches!(fault.kind, Kind::Memory) {
        Ok(Ending::Memory)
    } else {
        Ok(Ending::Wrong)
    }
}

/// Does the same for a sample's packed graph.
pub fn tell_packed_fault<R: Eprint>(rt: &R, fault: PackedFault) -> io::Result<Ending> {
    eprintln!(rt; "{fault}")?;
    if matches!(fault.kind, PackedKind::Memory) {
        Ok(Ending::Memory)
    } else {
        Ok(Ending::Wrong)
    }
}

/// Reports whether the text was written.
pub fn tell_written(written: Result<u64, WriteFault>) -> Ending {
    match written {
        Ok(_) => Ending::Answered,
        Err(_) => Ending::Wrong,
    }
}

/// Reports why a run from vertex 1 has no tree.
pub fn tell_refusal<W: Write>(out: &mut W, refusal: RunError) -> Ending {
    match refusal {
        RunError::Memory => Ending::Memory,
        RunError::TooFar(vertex) => tell_written(write_far(1, vertex, out)),
        RunError::NoSuchVertex => Ending::Wrong,
    }
}

/// Writes the tree's block.
pub fn tell_tree<W: Write>(out: &mut W, tree: &Tree<28>) -> Ending {
    tell_written(write_tree(tree, out))
}

/// Writes the tree's block, or reports why there is none.
pub fn tell_run<W: Write>(out: &mut W, answer: Result<Tree<28>, RunError>) -> Ending {
    match answer {
        Ok(tree) => tell_tree(out, &tree),
        Err(refusal) => tell_refusal(out, refusal),
    }
}
