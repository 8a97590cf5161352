//! The worked examples of packed graphs, word by word.
ghost use Rattle.std.specs.Prelude.{◌≡◌, ◌≤◌, ◌^◌, length, IfOk};

use sp_device::{UpTo, UpToWriter};
use sp_graph::Graph;
use sp_packed::{PackedFault, read_packed, write_packed};
use std::alloc::{AllocError, Global};

/// The words of the graph whose arcs are (1, 2, 3), (1, 3, 3), (2, 4, 2), (3, 4, 2), (1, 4, 6).
pub const DIAMOND: [u32; 23] = [
    0x5450_5389,
    0x011A_0A0D,
    4,
    5,
    0,
    3,
    4,
    5,
    5,
    2,
    3,
    3,
    3,
    4,
    6,
    4,
    2,
    4,
    2,
    0x556A_5DD1,
    0,
    0x55CA_EA2C,
    6,
];

/// The greatest number of arcs.
pub const MOST_ARCS: u32 = 1_073_741_824;

/// The bytes of words, the lowest of each first.
pub fn bytes_of(alloc: Global, words: &[u32]) -> Result<Vec<u8>, AllocError> {
    let mut bytes = Vec::new(alloc);
    for word in words {
        bytes.extend_from_slice(&word.to_le_bytes())?;
    }
    Ok(bytes)
}

/// The bytes of the diamond with another word at this place.
pub fn with_word(alloc: Global, place: usize, word: u32) -> Result<Vec<u8>, AllocError> {
    let mut words = DIAMOND;
    if place < words.len() {
        words[place] = word;
    }
    bytes_of(alloc, &words)
}

/// The packed text of a graph, as it is written into memory.
pub fn packed(alloc: Global, graph: &Graph) -> Result<Vec<u8>, AllocError> {
    let mut out = UpToWriter::new(alloc, 1000, 1000);
    if graph.m() <= 100 && write_packed(&mut out, graph).is_ok() {
        out.taken().to_vec(alloc)
    } else {
        Err(AllocError)
    }
}

/// What reading these bytes tells, or the number of vertices and of arcs.
pub fn read(alloc: Global, bytes: &[u8]) -> Result<(u32, usize), PackedFault>
    requires { length bytes.now ≤ 2 ^ 62 }
{
    let graph = read_packed::<28, _>(alloc, &mut UpTo::whole(bytes), MOST_ARCS)?;
    Ok((graph.n(), graph.m()))
}
