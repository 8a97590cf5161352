//! Tables that are written page by page: the lines of many rows are made in memory, and written as they stand there.
ghost use Rattle.std.specs.Prelude.{◌≡◌, ◌*◌, ◌≤◌, ◌++◌, length, drop, vec_len, IfOk};
ghost use Rattle.sp_device.specs.Printing.{Sends};
ghost use Rattle.sp_files.specs.TreeText.{end_text};
ghost use Rattle.sp_files.specs.Sending.{EndsWith};

use crate::common_lines::write_end;
use crate::rows::{ROW_ROOM, RowSource};
use sp_device::{Printer, Write, WriteFault, print_text};
use std::alloc::{AllocError, Global};

// The greatest number of rows of a page. Their lines have 64 KiB or more: a system takes large pieces in less time than small ones.
const PAGE_ROWS: usize = 8192;

// The number of rows of a page that needs no memory of its own.
const FEW_ROWS: usize = 64;

/// Puts the lines of rows at the end of these bytes, and returns where they begin.
pub(crate) fn put_rows<R: RowSource>(rows: R, bytes: &mut [u8]) -> usize
    requires { R.size rows * 56 ≤ length bytes.old }
    ensures within { result ≤ length bytes.new }
    ensures text { drop result bytes.new ≡ R.text rows }
{
    let mut start = bytes.len();
    let mut left = rows;
    while left.count() > 0 {
        let (front, last) = left.parted(left.count() - 1);
        start = last.put_one(bytes, start);
        left = front;
    }
    start
}

// Sends the lines of rows, page after page.
fn send_rows<R: RowSource, W: Write>(out: &mut W, printer: &mut Printer, rows: R, page: &mut [u8])
    requires { 56 ≤ length page.old }
    ensures { Sends W.Write (R.text rows) out.old printer.old out.new printer.new }
{
    let most = page.len() / ROW_ROOM;
    let mut rest = rows;
    while rest.count() > 0 {
        let (group, later) = rest.parted(most.min(rest.count()));
        let start = put_rows(group, page);
        print_text(out, printer, &page[start..]);
        rest = later;
    }
}

// Writes the bytes that wait, and then the lines of rows and the last line of a table with `reached` rows, in such pages. Returns
// the total number of bytes.
fn write_by<R: RowSource, W: Write>(
    out: &mut W,
    mut printer: Printer,
    rows: R,
    reached: usize,
    page: &mut [u8],
) -> Result<u64, WriteFault>
    requires { 56 ≤ length page.old }
    ensures { EndsWith W.Write (R.text rows ++ end_text reached) out.old printer result out.new }
{
    send_rows(out, &mut printer, rows, page);
    write_end(out, printer, reached)
}

/// Writes the bytes that wait, and then the lines of rows and the last line of a table with `reached` rows. Returns the total
/// number of bytes. It allocates no memory.
pub(crate) fn write_rows<R: RowSource, W: Write>(
    out: &mut W,
    printer: Printer,
    rows: R,
    reached: usize,
) -> Result<u64, WriteFault>
    ensures { EndsWith W.Write (R.text rows ++ end_text reached) out.old printer result out.new }
{
    write_by(out, printer, rows, reached, &mut [0; FEW_ROWS * ROW_ROOM])
}

// Returns a page for the lines of so many rows, or of as many of them as one may have.
fn new_page(alloc: Global, rows: usize) -> Result<Vec<u8>, AllocError>
    ensures { IfOk result (λ page. 56 ≤ vec_len page) }
{
    vec![in alloc; 0; rows.min(PAGE_ROWS).max(1) * ROW_ROOM]
}

/// Does the same in larger pieces and in less time. It allocates memory for the lines of at most 8,192 rows. Where that is refused, it
/// writes as `write_rows` does.
pub(crate) fn write_in_pages<R: RowSource, W: Write>(
    alloc: Global,
    out: &mut W,
    printer: Printer,
    rows: R,
    reached: usize,
) -> Result<u64, WriteFault>
    ensures { EndsWith W.Write (R.text rows ++ end_text reached) out.old printer result out.new }
{
    match new_page(alloc, rows.count()) {
        Ok(mut page) => write_by(out, printer, rows, reached, &mut page),
        Err(_) => write_rows(out, printer, rows, reached),
    }
}
