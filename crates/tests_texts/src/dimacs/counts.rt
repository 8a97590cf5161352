//! What is read of texts.
ghost use Rattle.std.specs.Prelude.{◌≡◌, ◌≤◌, ◌<◌, ◌^◌, true, length};
ghost use Rattle.sp_word.specs.Word.{is_layout};

use sp_device::UpTo;
use sp_dimacs::{Arc, DimacsError, GrFile, GrReader, read_gr};
use std::alloc::Global;

/// The number of arcs of a text.
pub fn arcs<const P: u32>(alloc: Global, text: &[u8]) -> Result<usize, DimacsError>
    requires layout { is_layout P ≡ true }
    requires short { length text.now ≤ 2 ^ 62 }
{
    let file = read_gr::<P, _>(alloc, &mut UpTo::whole(text))?;
    Ok(file.arcs.len())
}

/// The graph of a text that a reader is fed in pieces of this many bytes.
pub fn fed_by(reader: &mut GrReader<28>, text: &[u8], size: usize) -> Result<GrFile, DimacsError>
    requires { 0 < size }
{
    for piece in text.chunks(size) {
        reader.feed(piece)?;
    }
    reader.finish()
}

/// The number of arcs of a text that is fed in pieces of this many bytes.
pub fn fed(alloc: Global, text: &[u8], size: usize) -> Result<usize, DimacsError>
    requires { 0 < size }
{
    let mut reader = GrReader::<28>::new(alloc);
    let file = fed_by(&mut reader, text, size)?;
    Ok(file.arcs.len())
}

/// Whether a graph of four vertices with these arcs was read.
pub fn is_read(file: Result<GrFile, DimacsError>, arcs: &[Arc]) -> bool {
    match file {
        Ok(file) => file.n == 4 && file.arcs.as_slice() == arcs,
        Err(_) => false,
    }
}
