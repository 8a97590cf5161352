//! Lines in the usual spelling and in others, whole and cut at each byte.
ghost use Rattle.std.specs.Prelude.{◌<◌, ◌≤◌, ◌^◌, length};

use super::entries::{Entry, Reader, new_reader, read_quickly};
use crate::answers::fault;
use sp_device::UpTo;
use sp_text::{DimacsError, Kind};
use std::alloc::Global;

// One item may stand, and vertices have up to seven digits.
const SEVEN: &[u8] = b"p sp 9999999 1\n";

// One item may stand, and vertices have up to eight digits.
const EIGHT: &[u8] = b"p sp 99999999 1\n";

// No arc has to stand.
const NONE: &[u8] = b"p sp 2 0\n";

type Answer = Result<Option<Entry>, DimacsError>;

// The first item of the text that a reader was fed.
fn first_item(reader: &mut Reader) -> Answer {
    let entries = reader.finish()?;
    Ok(entries.first().copied())
}

// The item of a line behind a problem line, where the line comes in these two pieces.
fn cut_at(alloc: Global, problem: &[u8], line: &[u8], end: usize) -> Answer
    requires { end ≤ length line.now }
{
    let (front, back) = line.split_at(end);
    let mut reader = new_reader(alloc);
    reader.feed(problem)?;
    reader.feed(front)?;
    reader.feed(back)?;
    first_item(&mut reader)
}

// Feeds a reader each byte by itself.
fn feed_singly(reader: &mut Reader, text: &[u8]) -> Result<(), DimacsError> {
    for byte in text.chunks(1) {
        reader.feed(byte)?;
    }
    Ok(())
}

// The item of a line behind a problem line, where each byte comes by itself.
fn singly(alloc: Global, problem: &[u8], line: &[u8]) -> Answer {
    let mut reader = new_reader(alloc);
    feed_singly(&mut reader, problem)?;
    feed_singly(&mut reader, line)?;
    first_item(&mut reader)
}

// Behind a line with its LF: there are enough bytes for the line to be read at once.
const COMMENT: &[u8] = b"c forty bytes and more come after each number\n";

// The text of a problem line, a line and, where that has its LF, a comment.
fn text_of(alloc: Global, problem: &[u8], line: &[u8]) -> Option<Vec<u8>> {
    let mut text = Vec::new(alloc);
    text.extend_from_slice(problem).ok()?;
    text.extend_from_slice(line).ok()?;
    if line.ends_with(b"\n") {
        text.extend_from_slice(COMMENT).ok()?;
    }
    Some(text)
}

// The first item of a text that a device passes in pieces of at most this size.
fn passed(alloc: Global, text: &[u8], most: usize) -> Answer
    requires short { length text.now ≤ 2 ^ 62 }
    requires some { 0 < most }
{
    let entries = read_quickly(alloc, &mut UpTo::in_pieces(text, most))?;
    Ok(entries.first().copied())
}

// Whether the item of a line is this one where its text comes from a device, whatever the size of pieces.
fn is_passed(alloc: Global, problem: &[u8], line: &[u8], whole: &Answer) -> bool {
    let Some(text) = text_of(alloc, problem, line) else {
        return false;
    };
    if text.len() > 1000 {
        return false;
    }
    for most in 1..text.len() + 1 {
        if passed(alloc, &text, most) != *whole {
            return false;
        }
    }
    true
}

// Whether this is the item of a line, however the line is cut, and read.
fn is_item(alloc: Global, problem: &[u8], line: &[u8], want: &Answer) -> bool {
    for end in 0..line.len() {
        if cut_at(alloc, problem, line, end) != *want {
            return false;
        }
    }
    singly(alloc, problem, line) == *want && is_passed(alloc, problem, line, want)
}

// The line behind the problem line has this fault.
fn refused(kind: Kind) -> Answer {
    Err(fault(2, kind))
}

#[test]
fn few_and_many_digits(rt: HostRuntime) {
    let a = rt.alloc();
    for (problem, line, entry) in [
        (SEVEN, b"a 1 2 3\n".as_slice(), (0, 1, 2, 3)),
        (SEVEN, b"a 12 21 45\n", (0, 12, 21, 45)),
        (SEVEN, b"a 123 321 456\n", (0, 123, 321, 456)),
        (SEVEN, b"a 1234 4321 5678\n", (0, 1_234, 4_321, 5_678)),
        (SEVEN, b"a 12345 54321 56789\n", (0, 12_345, 54_321, 56_789)),
        (
            SEVEN,
            b"a 123456 654321 567890\n",
            (0, 123_456, 654_321, 567_890),
        ),
        (
            SEVEN,
            b"a 1234567 7654321 5678901\n",
            (0, 1_234_567, 7_654_321, 5_678_901),
        ),
        (
            EIGHT,
            b"a 12345678 87654321 56789012\n",
            (0, 12_345_678, 87_654_321, 56_789_012),
        ),
        (EIGHT, b"a 7 1 123456789\n", (0, 7, 1, 123_456_789)),
        (SEVEN, b"a 10 200 3000000\n", (0, 10, 200, 3_000_000)),
        (NONE, b"i 1 0 0\n", (1, 1, 0, 0)),
        (
            SEVEN,
            b"a 9999999 9999999 1\n",
            (0, 9_999_999, 9_999_999, 1),
        ),
        (
            EIGHT,
            b"a 99999999 99999999 1\n",
            (0, 99_999_999, 99_999_999, 1),
        ),
        (EIGHT, b"a 7 1 4294967295\n", (0, 7, 1, 4_294_967_295)),
        (
            NONE,
            b"i 1 68719476734 268435454\n",
            (1, 1, 68_719_476_734, 268_435_454),
        ),
    ] {
        assert!(rt; is_item(a, problem, line, &Ok(Some(entry))), "in {line:?}");
    }
}

#[test]
fn too_great_and_too_small(rt: HostRuntime) {
    let a = rt.alloc();
    for (problem, line, letter) in [
        (SEVEN, b"a 10000000 1 1\n".as_slice(), b'U'),
        (SEVEN, b"a 1 10000000 1\n", b'V'),
        (EIGHT, b"a 100000000 1 1\n", b'U'),
        (EIGHT, b"a 1 100000000 1\n", b'V'),
        (SEVEN, b"a 0 1 1\n", b'U'),
        (SEVEN, b"a 1 0 1\n", b'V'),
        (SEVEN, b"a 1 2 0\n", b'W'),
        (SEVEN, b"a 1 2 4294967296\n", b'W'),
        (SEVEN, b"a 1 2 18446744073709551616\n", b'W'),
        (SEVEN, b"a 1 2 18446744073709551617\n", b'W'),
        (NONE, b"i 0 0 0\n", b'V'),
        (NONE, b"i 3 0 0\n", b'V'),
        (NONE, b"i 1 68719476735 0\n", b'D'),
        (NONE, b"i 1 0 268435455\n", b'P'),
    ] {
        let want = refused(Kind::OutOfRange(letter));
        assert!(rt; is_item(a, problem, line, &want), "in {line:?}");
    }
}

#[test]
fn leading_zeros(rt: HostRuntime) {
    let a = rt.alloc();
    let bad = refused(Kind::BadLine);
    for (problem, line) in [
        (NONE, b"i 1 0 00\n".as_slice()),
        (NONE, b"i 1 00 0\n"),
        (SEVEN, b"a 01 2 3\n"),
        (SEVEN, b"a 1 02 3\n"),
        (SEVEN, b"a 1 2 03\n"),
        (SEVEN, b"a 0000001 2 3\n"),
        (SEVEN, b"a 00000001 2 3\n"),
    ] {
        assert!(rt; is_item(a, problem, line, &bad), "in {line:?}");
    }
}

#[test]
fn blanks_and_ends(rt: HostRuntime) {
    let a = rt.alloc();
    let bad = refused(Kind::BadLine);
    let good = Ok(Some((0, 12, 345, 6_789)));
    for (line, want) in [
        (b"a 12 345 6789\n".as_slice(), good),
        (b"a 12 345 6789", good),
        (b"a 12 345 6789\r\n", good),
        (b"a 12 345 6789\r", good),
        (b"a 12 345 6789 \n", good),
        (b"a 12 345 6789 \t \r\n", good),
        (b"a  12  345  6789\n", good),
        (b"a\t12\t345\t6789\n", good),
        (b"a 12\t345 \t6789\n", good),
        (b" a 12 345 6789\n", good),
        (b"\n\nc x\na 12 345 6789\n\n", good),
        (b"a 12 345 6789\r\r\n", bad),
        (b"a 12 345 6789\r \n", bad),
        (b"a 12\r 345 6789\n", bad),
        (b"a 12 345 6789\x0b\n", bad),
    ] {
        assert!(rt; is_item(a, SEVEN, line, &want), "in {line:?}");
    }
}

#[test]
fn other_spellings(rt: HostRuntime) {
    let a = rt.alloc();
    let bad = refused(Kind::BadLine);
    for line in [
        b"a 12 345\n".as_slice(),
        b"a 12 345 6789 1\n",
        b"a 12 3456789\n",
        b"a 12,345 6789\n",
        b"a12 345 6789\n",
        b"aa 12 345 6789\n",
        b"b 12 345 6789\n",
        b"A 12 345 6789\n",
        b"a +12 345 6789\n",
        b"a -12 345 6789\n",
        b"a 1/ 345 6789\n",
        b"a 1: 345 6789\n",
        b"a : 345 6789\n",
        b"a 12 345 6789x\n",
        b"a 12 345 1234567x\n",
        b"a 12 345 12345678x\n",
        b"a 12 345 \xb1\xb2\n",
    ] {
        assert!(rt; is_item(a, SEVEN, line, &bad), "in {line:?}");
    }
}

#[test]
fn second_problem_line(rt: HostRuntime) {
    let want = refused(Kind::SecondProblem);
    assert!(rt; is_item(rt.alloc(), SEVEN, b"p sp 2 1\n", &want));
}
