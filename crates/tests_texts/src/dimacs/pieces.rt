ghost use Rattle.std.specs.Prelude.{◌<◌};

use super::counts::{arcs, fed, fed_by, is_read};
use crate::answers::{fault, out, told};
use sp_device::{Read, UpTo};
use sp_dimacs::{Arc, DimacsError, GrReader, Kind, read_gr};
use std::alloc::Global;
use std::test::Fail;
use tests_samples::{DIAMOND, DIAMOND_GR, arcs_of};

// Whether a reader that is fed these two pieces reads these arcs.
fn has_arcs(reader: &mut GrReader<28>, front: &[u8], rest: &[u8], arcs: &[Arc]) -> bool {
    reader.feed(front).is_ok() && reader.feed(rest).is_ok() && is_read(reader.finish(), arcs)
}

// One reader after all, which begins anew behind each text.
#[test]
fn cut_anywhere(rt: HostRuntime) -> Result<(), Fail> {
    let alloc = rt.alloc();
    let arcs = arcs_of(alloc, 4, &DIAMOND)?;
    let text = DIAMOND_GR.as_bytes();
    assert!(rt; text.len() == 49);
    let mut reader = GrReader::<28>::new(alloc);
    for k in 0..50 {
        assert!(rt; has_arcs(&mut reader, &text[..k], &text[k..], &arcs));
    }
    for size in 1..50 {
        assert!(rt; is_read(fed_by(&mut reader, text, size), &arcs));
    }
    Ok(())
}

#[test]
fn refused_once_and_for_all(rt: HostRuntime) {
    let long = fault(1, Kind::LongLine);
    let mut reader = GrReader::<28>::new(rt.alloc());
    assert!(rt; reader.feed(&[b'c'; 1025]) == Err(long));
    assert!(rt; reader.feed(b"\n") == Err(long));
    assert!(rt; reader.finish().err() == Some(long));
    assert!(rt; reader.fail() == long);
}

#[test]
fn failed_once_and_for_all(rt: HostRuntime) {
    let read = fault(2, Kind::Read);
    let mut cut = GrReader::<28>::new(rt.alloc());
    assert!(rt; cut.feed(b"p sp 1 0\n") == Ok(()));
    assert!(rt; cut.fail() == read);
    assert!(rt; cut.feed(b"") == Err(read));
    assert!(rt; cut.finish().err() == Some(read));
}

// The number of arcs of a start, a byte so many times, and an end, in pieces of this many bytes.
fn grown(
    alloc: Global,
    start: &[u8],
    byte: u8,
    times: usize,
    end: &[u8],
    size: usize,
) -> Result<usize, DimacsError> {
    let mut reader = GrReader::<28>::new(alloc);
    reader.feed(start)?;
    let bytes = [byte; 1100];
    for piece in bytes[..times.min(1100)].chunks(size.max(1)) {
        reader.feed(piece)?;
    }
    reader.feed(end)?;
    let file = reader.finish()?;
    Ok(file.arcs.len())
}

#[test]
fn long_comment(rt: HostRuntime) {
    let long = told(2, Kind::LongLine);
    for (times, end, want) in [
        (1022, b"\n".as_slice(), Ok(0)),
        (1022, b"", Ok(0)),
        (1023, b"\n", long),
        (1023, b"", long),
        (1022, b"\r\n", long),
    ] {
        for size in [1, 2, 3, 1100] {
            let answer = grown(rt.alloc(), b"p sp 1 0\nc ", b'x', times, end, size);
            assert_eq!(rt; answer, want);
        }
    }
}

#[test]
fn long_lines(rt: HostRuntime) {
    let out = out(2, b'W');
    let long = told(2, Kind::LongLine);
    let bad = told(2, Kind::BadLine);
    for (start, byte, times, end, want) in [
        (
            b"p sp 2 1\na 1 2 ".as_slice(),
            b'9',
            1018,
            b"\n".as_slice(),
            out,
        ),
        (b"p sp 2 1\na 1 2 ", b'9', 1019, b"\n", long),
        (b"p sp 2 1\na 1 2 ", b'9', 1018, b"", out),
        (b"p sp 2 1\na 1 2 ", b'9', 1019, b"", long),
        (b"p sp 1 0\n", b'c', 1024, b"\n", bad),
    ] {
        for size in [1, 1100] {
            let answer = grown(rt.alloc(), start, byte, times, end, size);
            assert_eq!(rt; answer, want);
        }
    }
}

#[test]
fn fed_from_a_text(rt: HostRuntime) {
    for (text, want) in [
        (b"p sp 2 1\na 1 2 5".as_slice(), Ok(1)),
        (b"a 1 2 3\n", told(1, Kind::NoProblem)),
        (b"p sp 2 2\na 1 2 5", told(3, Kind::TooFew)),
    ] {
        for size in 1..3 {
            assert_eq!(rt; fed(rt.alloc(), text, size), want);
        }
    }
}

// A comment behind the problem line, in one text: 9 bytes and the comment.
#[test]
fn long_comment_whole(rt: HostRuntime) {
    let alloc = rt.alloc();
    let mut text = [b'x'; 1_035];
    text[..11].copy_from_slice(b"p sp 1 0\nc ");
    let long = told(2, Kind::LongLine);
    assert!(rt; arcs::<28>(alloc, &text[..1_033]) == Ok(0));
    assert!(rt; arcs::<28>(alloc, &text[..1_034]) == long);
    text[1_034] = b'\n';
    assert!(rt; arcs::<28>(alloc, &text) == long);
    text[1_033] = b'\n';
    assert!(rt; arcs::<28>(alloc, &text[..1_034]) == Ok(0));
}

// Of a device that has passed a header the rest is read, and lines are counted from there.
#[test]
fn behind_a_header(rt: HostRuntime) {
    let mut header = [0u8; 5];
    let mut device = UpTo::whole(b"spt1\np sp 2 1\na 1 3 3\n");
    assert!(rt; device.read(&mut header) == Ok(5));
    let told = read_gr::<28, _>(rt.alloc(), &mut device).err();
    assert!(rt; told == Some(fault(2, Kind::OutOfRange(b'V'))));
}
