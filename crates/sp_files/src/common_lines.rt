//! Lines shared by several texts.
ghost use Rattle.std.specs.Prelude.{◌++◌, ◌≡◌, ◌≤◌, ◌+◌, length};
ghost use Rattle.sp_files.specs.TreeText.{end_text, far_text};
ghost use Rattle.sp_files.specs.Sending.{EndsWith};

use sp_device::{Block, Printer, Write, WriteFault, finish, make_room};
use sp_text::push_number;

/// No line has more bytes than this.
pub(crate) const LINE_ROOM: usize = 86;

// Appends the last line of a tree or a forest with `count` rows.
fn push_end(block: &mut Block, count: u64)
    requires { length block.old + LINE_ROOM ≤ 8192 }
    ensures { block.new ≡ block.old ++ end_text count }
{
    block.push(b"e");
    push_number(block, count);
    block.push(b"\n");
}

/// Writes the bytes that wait, and then the last line of a tree or a forest with `count` rows. Returns the total number of bytes.
pub(crate) fn write_end<W: Write>(
    out: &mut W,
    mut printer: Printer,
    rows: usize,
) -> Result<u64, WriteFault>
    ensures { EndsWith W.Write (end_text rows) out.old printer result out.new }
{
    make_room(out, &mut printer, LINE_ROOM);
    push_end(&mut printer.block, rows as u64);
    finish(out, printer)
}

/// Appends the line for a source and a vertex that is too far from it.
#[tactic(auto, unfolding(crate::specs::TreeText::far_text))]
pub(crate) fn push_far(block: &mut Block, source: u32, vertex: u32)
    requires { length block.old + LINE_ROOM ≤ 8192 }
    ensures { block.new ≡ block.old ++ far_text source vertex }
{
    block.push(b"x");
    push_number(block, source as u64);
    push_number(block, vertex as u64);
    block.push(b"\n");
}
