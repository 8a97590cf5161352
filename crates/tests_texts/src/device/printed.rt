ghost use Rattle.std.specs.Prelude.{◌≤◌, ◌^◌};

use sp_device::{Printer, UpToWriter, WriteFault, finish, make_room, print_number, print_text};
use std::alloc::Global;

// Prints a number and its LF.
fn row(out: &mut UpToWriter, printer: &mut Printer, n: u64) {
    print_number(out, printer, n);
    make_room(out, printer, 1);
    printer.block.push(b"\n");
}

// Prints so many rows of two bytes or more, and answers the count.
fn rows(out: &mut UpToWriter, many: u64) -> Result<u64, WriteFault> {
    let mut printer = Printer::new();
    print_text(out, &mut printer, b"rows\n");
    for n in 0..many {
        row(out, &mut printer, n);
    }
    finish(out, printer)
}

#[test]
fn counts(rt: HostRuntime) {
    let mut out = UpToWriter::new(rt.alloc(), 100, 7);
    assert!(rt; rows(&mut out, 11) == Ok(28));
    let text = b"rows\n0\n1\n2\n3\n4\n5\n6\n7\n8\n9\n10\n";
    assert!(rt; out.taken() == text.as_slice());
}

// Whether printing many rows fails in a device with this room, and a beginning of the whole stands.
fn is_begun(alloc: Global, whole: &[u8], room: usize) -> bool
    requires { room ≤ 2 ^ 62 }
{
    let mut out = UpToWriter::new(alloc, room, 1_000);
    let printed = rows(&mut out, 5_000);
    printed == Err(WriteFault) && out.taken().len() == room && whole.starts_with(out.taken())
}

// 5 bytes, then 10 rows of 2 bytes, 90 of 3, 900 of 4 and 4,000 of 5.
#[test]
fn beginnings(rt: HostRuntime) {
    let alloc = rt.alloc();
    let mut whole = UpToWriter::new(alloc, 100_000, 5_000);
    assert!(rt; rows(&mut whole, 5_000) == Ok(23_895));
    assert!(rt; whole.taken().len() == 23_895);
    for room in [0, 1, 8_191, 8_192, 8_193, 23_894] {
        assert!(rt; is_begun(alloc, whole.taken(), room));
    }
}

#[test]
fn longer_than_a_block(rt: HostRuntime) {
    let mut out = UpToWriter::new(rt.alloc(), 20_000, 20_000);
    let mut printer = Printer::new();
    print_text(&mut out, &mut printer, b"ab");
    print_text(&mut out, &mut printer, &[b'x'; 9_000]);
    assert!(rt; finish(&mut out, printer) == Ok(9_002));
}
