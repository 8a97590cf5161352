//! The expected results of reading a text.
use sp_text::{DimacsError, Kind};

/// A fault of a line.
pub fn fault(line: u64, kind: Kind) -> DimacsError {
    DimacsError { line, kind }
}

/// The fault, as the result of a call that counts items.
pub fn told(line: u64, kind: Kind) -> Result<usize, DimacsError> {
    Err(fault(line, kind))
}

/// The fault of a field that is out of range.
pub fn out(line: u64, letter: u8) -> Result<usize, DimacsError> {
    told(line, Kind::OutOfRange(letter))
}

/// The expected fault if the device fails after this beginning of a text without a fault.
pub fn failed_behind(beginning: &[u8]) -> DimacsError {
    let mut line: u64 = 1;
    for byte in beginning {
        if *byte == b'\n' {
            line = line.saturating_add(1);
        }
    }
    fault(line, Kind::Read)
}
