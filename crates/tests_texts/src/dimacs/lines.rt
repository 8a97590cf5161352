ghost use Rattle.std.specs.Prelude.{◌<◌, ◌≤◌, ◌^◌, length};

use crate::answers::{failed_behind, fault};
use sp_device::{Buffer, UpTo};
use sp_dimacs::{DimacsError, Kind, Lines};
use tests_samples::DIAMOND_GR;

// Shows the next line between brackets, with a bar where it lacks its LF. Returns whether there is one, and room for it.
fn show_next(lines: &mut Lines<UpTo>, shown: &mut Buffer<64>) -> Result<bool, DimacsError> {
    let Some(line) = lines.next()? else {
        return Ok(false);
    };
    let room = shown.room_left();
    if room < 2 || line.len() > room - 2 {
        return Ok(false);
    }
    shown.push(b"[");
    shown.push(line);
    shown.push(if lines.ended() { b"]" } else { b"|" });
    Ok(true)
}

// Whether the lines of a text are shown so, where it comes in pieces of this size, and none has a fault.
fn are_shown(text: &[u8], most: usize, want: &[u8]) -> bool
    requires short { length text.now ≤ 2 ^ 62 }
    requires some { 0 < most }
{
    let mut lines = Lines::new(UpTo::in_pieces(text, most));
    let mut shown = Buffer::new();
    for _ in 0..100 {
        match show_next(&mut lines, &mut shown) {
            Ok(true) => {}
            Ok(false) => return shown.bytes() == want,
            Err(_) => return false,
        }
    }
    false
}

#[test]
fn each_line(rt: HostRuntime) {
    for (text, want) in [
        (b"".as_slice(), b"".as_slice()),
        (b"\n", b"[]"),
        (b"ab\n", b"[ab]"),
        (b"ab", b"[ab|"),
        (b"ab\n\ncd", b"[ab][][cd|"),
        (b"a\r\n\r\nb\r", b"[a\r][\r][b\r|"),
        (b"\n\n", b"[][]"),
    ] {
        for most in 1..4 {
            assert!(rt; are_shown(text, most, want));
        }
    }
}

// Whether the next line is this one, and then so many were returned, the last one with its LF or without.
fn is_next(lines: &mut Lines<UpTo>, line: Option<&[u8]>, number: u64, has_end: bool) -> bool {
    let is_line = lines.next() == Ok(line);
    is_line && lines.line() == number && lines.ended() == has_end
}

#[test]
fn numbers_of_lines(rt: HostRuntime) {
    let mut lines = Lines::new(UpTo::whole(b"p\n\nq"));
    assert!(rt; lines.line() == 0);
    for (line, number, has_end) in [
        (Some(b"p".as_slice()), 1, true),
        (Some(b""), 2, true),
        (Some(b"q"), 3, false),
        (None, 3, false),
        (None, 3, false),
    ] {
        assert!(rt; is_next(&mut lines, line, number, has_end));
    }
}

// Whether a text has two lines, `y` and this one, with its LF or without.
fn are_two(text: &[u8], most: usize, line: &[u8], has_end: bool) -> bool
    requires short { length text.now ≤ 2 ^ 62 }
    requires some { 0 < most }
{
    let mut lines = Lines::new(UpTo::in_pieces(text, most));
    is_next(&mut lines, Some(b"y"), 1, true)
        && is_next(&mut lines, Some(line), 2, has_end)
        && is_next(&mut lines, None, 2, has_end)
}

#[test]
fn longest_lines(rt: HostRuntime) {
    let mut bytes = [b'x'; 1030];
    bytes[0] = b'y';
    bytes[1] = b'\n';
    bytes[1026] = b'\n';
    let line = [b'x'; 1024];
    for most in [1, 7, 1024, 2000] {
        assert!(rt; are_two(&bytes[..1026], most, &line, false));
        assert!(rt; are_two(&bytes[..1027], most, &line, true));
    }
}

// Whether the second line of a text is too long, behind `y`, and again.
fn is_long(text: &[u8], most: usize) -> bool
    requires short { length text.now ≤ 2 ^ 62 }
    requires some { 0 < most }
{
    let long = Err(fault(2, Kind::LongLine));
    let mut lines = Lines::new(UpTo::in_pieces(text, most));
    let is_first = is_next(&mut lines, Some(b"y"), 1, true);
    is_first && lines.next() == long && lines.next() == long && lines.line() == 1
}

#[test]
fn long_lines(rt: HostRuntime) {
    let mut bytes = [b'x'; 1030];
    bytes[0] = b'y';
    bytes[1] = b'\n';
    bytes[1027] = b'\n';
    for most in [1, 7, 1024, 2000] {
        assert!(rt; is_long(&bytes[..1027], most));
        assert!(rt; is_long(&bytes[..1028], most));
    }
}

#[test]
fn long_before_failure(rt: HostRuntime) {
    let text = [b'x'; 1025];
    let mut long = Lines::new(UpTo::failing(&text));
    assert!(rt; long.next() == Err(fault(1, Kind::LongLine)));
    let mut open = Lines::new(UpTo::failing(&text[..1024]));
    assert!(rt; open.next() == Err(fault(1, Kind::Read)));
}

// Whether a device that fails behind this text, which has no fault, is told at the line that is being read, and again.
fn is_told(text: &[u8]) -> bool
    requires { length text.now ≤ 2 ^ 62 }
{
    let read = failed_behind(text);
    let mut lines = Lines::new(UpTo::failing(text));
    for _ in 1..read.line {
        if lines.next().is_err() || !lines.ended() {
            return false;
        }
    }
    let is_failed = lines.next() == Err(read) && lines.next() == Err(read);
    is_failed && lines.line().checked_add(1) == Some(read.line)
}

#[test]
fn failing_after_each_byte(rt: HostRuntime) {
    let text = DIAMOND_GR.as_bytes();
    assert!(rt; text.len() == 49);
    for k in 0..49 {
        assert!(rt; is_told(&text[..k]));
    }
}
