//! Text that is written in blocks.
ghost use Rattle.std.specs.Prelude.{◌≡◌, ◌+◌, ◌≤◌, [], length, decimal, false};
ghost use Rattle.sp_device.specs.Printing.{Sends, KeepsSending, EndsSending, EndsCounting};

use crate::buffer::Block;
use crate::devices::{Write, write_all};
use crate::faults::WriteFault;
use itoa::Buffer;

// The capacity of a block in bytes.
const ROOM: usize = 8192;

/// Sends text to a device in blocks, and counts the bytes. A failure is reported at the end.
#[derive(Drop)]
pub struct Printer {
    /// The bytes that wait to be written. Bytes pushed here, if they fit, are sent too.
    pub block: Block,
    /// The number of bytes written.
    pub count: u64,
    /// Whether the device has failed.
    pub failed: bool,
}

impl Printer {
    /// Returns a printer that has sent nothing.
    pub fn new() -> Self
        ensures block { result.block ≡ [] }
        ensures count { result.count ≡ 0 }
        ensures going { result.failed ≡ false }
    {
        Printer {
            block: Block::new(),
            count: 0,
            failed: false,
        }
    }
}

// Writes the bytes that wait.
fn flush<W: Write>(out: &mut W, printer: &mut Printer)
    ensures block { printer.new.block ≡ [] }
    ensures sends { KeepsSending W.Write out.old printer.old out.new printer.new }
{
    if printer.failed {
        printer.block.clear();
        return;
    }
    match write_all(out, printer.block.bytes()) {
        Ok(()) => {
            let len = ROOM - printer.block.room_left();
            printer.block.clear();
            printer.count = printer.count.saturating_add(len as u64);
        }
        Err(_) => {
            printer.block.clear();
            printer.failed = true;
        }
    }
}

// Writes bytes while none wait.
fn write_on<W: Write>(out: &mut W, printer: &mut Printer, bytes: &[u8])
    requires { printer.old.block ≡ [] }
    ensures { Sends W.Write bytes.now out.old printer.old out.new printer.new }
{
    if printer.failed {
        return;
    }
    match write_all(out, bytes) {
        Ok(()) => printer.count = printer.count.saturating_add(bytes.len() as u64),
        Err(_) => printer.failed = true,
    }
}

/// Makes room for `room` bytes in the block.
pub fn make_room<W: Write>(out: &mut W, printer: &mut Printer, room: usize)
    requires { room ≤ 8192 }
    ensures room { length printer.new.block + room ≤ 8192 }
    ensures sends { KeepsSending W.Write out.old printer.old out.new printer.new }
{
    if printer.block.room_left() < room {
        flush(out, printer);
    }
}

/// Sends these bytes after all earlier ones.
pub fn print_text<W: Write>(out: &mut W, printer: &mut Printer, bytes: &[u8])
    ensures { Sends W.Write bytes.now out.old printer.old out.new printer.new }
{
    if bytes.len() <= ROOM {
        make_room(out, printer, bytes.len());
        printer.block.push(bytes);
    } else {
        flush(out, printer);
        write_on(out, printer, bytes);
    }
}

/// Sends a number in decimal.
pub fn print_number<W: Write>(out: &mut W, printer: &mut Printer, n: u64)
    ensures { Sends W.Write (decimal n) out.old printer.old out.new printer.new }
{
    let mut buffer = Buffer::new();
    print_text(out, printer, buffer.format(n).as_bytes());
}

/// Writes the bytes that wait, and returns the total number of bytes written.
pub fn finish<W: Write>(out: &mut W, mut printer: Printer) -> Result<u64, WriteFault>
    ensures written { EndsSending W.Write out.old printer result out.new }
    ensures passed { EndsCounting W.Write out.old printer result out.new }
{
    flush(out, &mut printer);
    if printer.failed {
        return Err(WriteFault);
    }
    Ok(printer.count)
}
