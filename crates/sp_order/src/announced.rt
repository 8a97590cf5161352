//! The number of vertices that a packed graph announces.
use sp_device::Read;
use sp_packed::{FIRST, SECOND};

/// Returns the number of vertices that a packed graph announces, if the file is one.
pub fn announced_vertices<R: Read + Drop>(file: R) -> Option<u64> {
    let mut reader = file;
    let first = next_word(&mut reader)?;
    let second = next_word(&mut reader)?;
    if first != FIRST || second != SECOND {
        return None;
    }
    Some(u64::from(next_word(&mut reader)?))
}

// Reads a word, whose lowest byte comes first.
fn next_word<R: Read>(reader: &mut R) -> Option<u32> {
    let bytes = [
        next_byte(reader)?,
        next_byte(reader)?,
        next_byte(reader)?,
        next_byte(reader)?,
    ];
    Some(u32::from_le_bytes(bytes))
}

fn next_byte<R: Read>(reader: &mut R) -> Option<u8> {
    let mut byte = [0u8; 1];
    match reader.read(&mut byte) {
        Ok(1) => Some(byte[0]),
        _ => None,
    }
}
