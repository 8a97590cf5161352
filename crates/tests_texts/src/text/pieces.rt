ghost use Rattle.std.specs.Prelude.{◌<◌, ◌≤◌, ◌^◌, length};

use super::entries::{new_reader, read_entries};
use crate::answers::{failed_behind, fault, out, told};
use sp_device::UpTo;
use sp_text::{DimacsError, Kind};
use std::alloc::Global;
use tests_samples::DIAMOND_GR;

// The number of items of a text that is fed in pieces of this many bytes.
fn fed(alloc: Global, text: &[u8], size: usize) -> Result<usize, DimacsError>
    requires { 0 < size }
{
    let mut reader = new_reader(alloc);
    for piece in text.chunks(size) {
        reader.feed(piece)?;
    }
    let entries = reader.finish()?;
    Ok(entries.len())
}

#[test]
fn fed_in_pieces(rt: HostRuntime) {
    for size in 1..50 {
        assert!(rt; fed(rt.alloc(), DIAMOND_GR.as_bytes(), size) == Ok(5));
    }
}

// The number of items of a text of which a device passes so many bytes at a time.
fn read(alloc: Global, text: &[u8], most: usize) -> Result<usize, DimacsError>
    requires short { length text.now ≤ 2 ^ 62 }
    requires some { 0 < most }
{
    let entries = read_entries(alloc, &mut UpTo::in_pieces(text, most))?;
    Ok(entries.len())
}

#[test]
fn read_in_pieces(rt: HostRuntime) {
    let text = DIAMOND_GR.as_bytes();
    assert!(rt; text.len() == 49);
    for most in 1..50 {
        assert!(rt; read(rt.alloc(), text, most) == Ok(5));
    }
}

#[test]
fn long_lines(rt: HostRuntime) {
    let mut reader = new_reader(rt.alloc());
    for _ in 0..1024 {
        assert!(rt; reader.feed(b"c") == Ok(()));
    }
    let long = fault(1, Kind::LongLine);
    assert!(rt; reader.feed(b"c") == Err(long));
    assert!(rt; reader.feed(b"\n") == Err(long));
    assert!(rt; reader.fail() == long);
}

#[test]
fn failing_readers(rt: HostRuntime) {
    let alloc = rt.alloc();
    let text = DIAMOND_GR.as_bytes();
    assert!(rt; text.len() == 49);
    for k in 0..50 {
        let file = read_entries(alloc, &mut UpTo::failing(&text[..k]));
        assert!(rt; file.err() == Some(failed_behind(&text[..k])));
    }
    let early = read_entries(alloc, &mut UpTo::failing(b"a 1 2 3\n"));
    assert!(rt; early.err() == Some(fault(1, Kind::NoProblem)));
}

// The answer to a text whose last line goes on with a byte so many times, in pieces of this many bytes.
fn grown(
    alloc: Global,
    start: &[u8],
    byte: u8,
    times: usize,
    size: usize,
) -> Result<usize, DimacsError> {
    let mut reader = new_reader(alloc);
    reader.feed(start)?;
    let bytes = [byte; 1100];
    for piece in bytes[..times.min(1100)].chunks(size.max(1)) {
        reader.feed(piece)?;
    }
    let entries = reader.finish()?;
    Ok(entries.len())
}

#[test]
fn lines_at_the_limit(rt: HostRuntime) {
    let long = told(2, Kind::LongLine);
    let out = out(2, b'W');
    for (start, byte, times, want) in [
        (b"p sp 1 0\nc ".as_slice(), b'x', 1022, Ok(0)),
        (b"p sp 1 0\nc ", b'x', 1023, long),
        (b"p sp 2 1\na 1 2 ", b'9', 1018, out),
        (b"p sp 2 1\na 1 2 ", b'9', 1019, long),
    ] {
        for size in [1, 7, 1100] {
            assert_eq!(rt; grown(rt.alloc(), start, byte, times, size), want);
        }
    }
}
