//! Reads a packed graph.
ghost use Rattle.std.specs.Prelude.{◌≡◌, ◌≢◌, ◌≤◌, ℕ, List, true, Some, IfOk, IfErr};
ghost use Rattle.sp_device.specs.Failing.{Never};
ghost use Rattle.sp_word.specs.Word.{is_layout, max_pred};
ghost use Rattle.sp_graph.specs.RowEnds.{AreRowEnds};
ghost use Rattle.sp_packed.specs.Packed.{IsPackable, IsWithin};
ghost use Rattle.sp_packed.specs.File.{file_graph, PackedFileRead};
ghost use Rattle.sp_packed.specs.Faults.{PackedRead};
ghost use Rattle.sp_packed.specs.Reading.{HasParts, Told};

use crate::blocks::WordBlock;
use crate::ending::read_sum;
use crate::ends::read_ends;
use crate::faults::{PackedFault, PackedKind};
use crate::front::read_front;
use crate::rows::read_rows;
use sp_device::Read;
use sp_graph::{Graph, RowEnds};
use sp_paths::Arc;
use sp_word::Word;
use std::alloc::Global;

/// What a packed text spells: the number of vertices, the arcs by tail, then by head, then by length, and the ends of their
/// rows.
#[derive(Drop)]
pub struct PackedFile {
    pub n: u32,
    pub arcs: Vec<Arc>,
    pub rows: RowEnds,
}

// Reads a whole text.
fn read_parts<R: Read>(
    alloc: Global,
    reader: &mut R,
    top: u32,
    most_arcs: u32,
) -> Result<PackedFile, PackedFault>
    requires { 1 ≤ top }
    ensures parts { IfOk result (λ file. HasParts top most_arcs
        (R.left reader.old) (R.left reader.new) file.n file.arcs.items) }
    ensures rows { IfOk result (λ file. AreRowEnds file.n file.arcs.items file.rows) }
    ensures told { IfErr result (Told top most_arcs
        (R.left reader.old) (R.left reader.new) (R.has_failed reader.new)) }
    ensures never { R.failing reader.old ≡ Never → IfErr result (λ e. e.kind ≢ PackedKind.Read) }
{
    let mut block = WordBlock::new();
    let (n, m) = match read_front(reader, &mut block, top, most_arcs) {
        Ok(front) => front,
        Err(fault) => return Err(fault),
    };
    let ends = match read_ends(alloc, reader, &mut block, n, m) {
        Ok(ends) => ends,
        Err(fault) => return Err(fault),
    };
    let read = match read_rows(alloc, reader, &mut block, n, &ends) {
        Ok(read) => read,
        Err(fault) => return Err(fault),
    };
    if let Err(fault) = read_sum(reader, &mut block, n, m) {
        return Err(fault);
    }
    let lengths = read.lengths;
    Ok(PackedFile {
        n,
        arcs: read.arcs,
        rows: RowEnds { ends, lengths },
    })
}

/// Reads the rest of a device's bytes. Returns the graph whose packed text they are, as a list of arcs with the ends of their
/// rows, or their first fault. There are at most as many vertices as a word with `P` predecessor bits can name, and at most
/// `most_arcs` arcs.
///
/// Memory grows with the bytes that come, never by an announced number. If there is no memory for a word, the fault is Memory
/// at that word, unless that word or an earlier one has a fault.
pub fn read_packed_file<const P: u32, R: Read>(
    alloc: Global,
    reader: &mut R,
    most_arcs: u32,
) -> Result<PackedFile, PackedFault>
    requires { is_layout P ≡ true }
    ensures exact { (text : List ℕ) → R.left reader.old ≡ Some text
        → PackedFileRead (max_pred P) most_arcs text
        (R.left reader.new) (R.has_failed reader.new) result }
    ensures packable { IfOk result (λ file. IsPackable (file_graph file)) }
    ensures within { IfOk result (λ file. IsWithin (max_pred P) most_arcs (file_graph file)) }
    ensures rows { IfOk result (λ file. AreRowEnds file.n file.arcs.items file.rows) }
    ensures read { IfErr result (λ e. e.kind ≡ PackedKind.Read → R.has_failed reader.new ≡ true) }
    ensures never { R.failing reader.old ≡ Never → IfErr result (λ e. e.kind ≢ PackedKind.Read) }
{
    match read_parts(alloc, reader, Word::<P>::max_pred(), most_arcs) {
        Ok(file) => Ok(file),
        Err(fault) => Err(fault),
    }
}

/// Reads the rest of a device's bytes as `read_packed_file` does, and returns the graph.
pub fn read_packed<const P: u32, R: Read>(
    alloc: Global,
    reader: &mut R,
    most_arcs: u32,
) -> Result<Graph, PackedFault>
    requires { is_layout P ≡ true }
    ensures exact { (text : List ℕ) → R.left reader.old ≡ Some text
        → PackedRead (max_pred P) most_arcs text
        (R.left reader.new) (R.has_failed reader.new) result }
    ensures packable { IfOk result IsPackable }
    ensures within { IfOk result (IsWithin (max_pred P) most_arcs) }
    ensures read { IfErr result (λ e. e.kind ≡ PackedKind.Read → R.has_failed reader.new ≡ true) }
    ensures never { R.failing reader.old ≡ Never → IfErr result (λ e. e.kind ≢ PackedKind.Read) }
{
    let file = match read_packed_file::<P, R>(alloc, reader, most_arcs) {
        Ok(file) => file,
        Err(fault) => return Err(fault),
    };
    Ok(Graph::from_rows(file.n, file.arcs, file.rows))
}
