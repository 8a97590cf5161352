//! The worked examples of faults.
ghost use Rattle.std.specs.Prelude.{◌≤◌, ◌^◌, length};

use super::diamond::{DIAMOND, bytes_of, packed, read, with_word};
use sp_packed::{PackedFault, PackedField, PackedKind};
use std::alloc::{AllocError, Global};
use std::test::Fail;
use tests_samples::graph_of;

const fn out(field: PackedField) -> PackedKind {
    PackedKind::OutOfRange(field)
}

// Whether the diamond with another word at this place is refused so.
fn is_refused(
    alloc: Global,
    change: (usize, u32),
    at: u64,
    kind: PackedKind,
) -> Result<bool, AllocError> {
    let bytes = with_word(alloc, change.0, change.1)?;
    if 1000 < bytes.len() {
        return Ok(false);
    }
    Ok(read(alloc, &bytes) == Err(PackedFault { at, kind }))
}

#[test]
fn another_word(rt: HostRuntime) -> Result<(), Fail> {
    let alloc = rt.alloc();
    for (change, at, kind) in [
        ((2, 0), 8, out(PackedField::Vertices)),
        ((2, 268_435_455), 8, out(PackedField::Vertices)),
        ((3, 1_073_741_825), 12, out(PackedField::Arcs)),
        ((4, 1), 16, out(PackedField::End)),
        ((5, 0), 64, out(PackedField::Length)),
        ((6, 1), 24, out(PackedField::End)),
        ((6, 6), 24, out(PackedField::End)),
        ((8, 4), 32, out(PackedField::End)),
        ((3, 6), 32, out(PackedField::End)),
        ((9, 0), 36, out(PackedField::Head)),
        ((9, 5), 36, out(PackedField::Head)),
        ((11, 1), 44, out(PackedField::Head)),
        ((10, 0), 40, out(PackedField::Length)),
        ((0, 0x5450_5388), 0, PackedKind::OtherForm),
        ((1, 0x021A_0A0D), 4, PackedKind::OtherForm),
        ((10, 4), 76, PackedKind::OtherSum),
        ((22, 7), 88, PackedKind::OtherSum),
    ] {
        let refused = is_refused(alloc, change, at, kind)?;
        assert!(rt; refused);
    }
    Ok(())
}

// Whether the first of these bytes alone end too early, at this one.
fn is_cut(alloc: Global, bytes: &[u8], len: usize, at: u64) -> bool
    requires within { len ≤ length bytes.now }
    requires short { length bytes.now ≤ 2 ^ 62 }
{
    let kind = PackedKind::TooFew;
    read(alloc, &bytes[..len]) == Err(PackedFault { at, kind })
}

#[test]
fn first_fifty_bytes(rt: HostRuntime) -> Result<(), Fail> {
    let alloc = rt.alloc();
    let bytes = bytes_of(alloc, &DIAMOND)?;
    assert!(rt; bytes.len() == 92);
    assert!(rt; is_cut(alloc, &bytes, 50, 48));
    Ok(())
}

#[test]
fn one_byte_behind(rt: HostRuntime) -> Result<(), Fail> {
    let alloc = rt.alloc();
    let mut bytes = bytes_of(alloc, &DIAMOND)?;
    bytes.push(b'x')?;
    assert!(rt; bytes.len() == 93);
    let many = PackedFault {
        at: 92,
        kind: PackedKind::TooMany,
    };
    assert!(rt; read(alloc, &bytes) == Err(many));
    Ok(())
}

// Nothing is asked for by the announced numbers: this answer comes at once, and takes no room for so many arcs.
#[test]
fn many_arcs_announced(rt: HostRuntime) {
    let words = [0x5450_5389, 0x011A_0A0D, 268_435_454, 1_073_741_824, 0, 7];
    let few = PackedFault {
        at: 24,
        kind: PackedKind::TooFew,
    };
    if let Ok(bytes) = bytes_of(rt.alloc(), &words) {
        assert!(rt; bytes.len() == 24);
        assert!(rt; read(rt.alloc(), &bytes) == Err(few));
    }
}

// A graph of one vertex and no arc has 40 bytes.
#[test]
fn alone(rt: HostRuntime) -> Result<(), Fail> {
    let alloc = rt.alloc();
    let graph = graph_of(alloc, 1, &[])?;
    let bytes = packed(alloc, &graph)?;
    let words = [
        0x5450_5389,
        0x011A_0A0D,
        1,
        0,
        0,
        0,
        0x556A_5D97,
        0,
        0xFF64_277B,
        1,
    ];
    let want = bytes_of(alloc, &words)?;
    assert!(rt; bytes.as_slice() == want.as_slice());
    assert!(rt; bytes.len() == 40);
    assert!(rt; read(alloc, &bytes) == Ok((1, 0)));
    Ok(())
}

#[test]
fn displayed(rt: HostRuntime) -> Result<(), Fail> {
    let alloc = rt.alloc();
    for (fault, text) in [
        (out(PackedField::Vertices), "byte 8: 5 OutOfRange N"),
        (out(PackedField::Arcs), "byte 8: 5 OutOfRange M"),
        (out(PackedField::End), "byte 8: 5 OutOfRange E"),
        (out(PackedField::Head), "byte 8: 5 OutOfRange V"),
        (out(PackedField::Length), "byte 8: 5 OutOfRange W"),
        (PackedKind::OtherForm, "byte 8: 10 OtherForm"),
        (PackedKind::OtherSum, "byte 8: 11 OtherSum"),
        (PackedKind::TooMany, "byte 8: 6 TooMany"),
        (PackedKind::TooFew, "byte 8: 7 TooFew"),
        (PackedKind::Memory, "byte 8: 8 Memory"),
        (PackedKind::Read, "byte 8: 9 Read"),
    ] {
        let shown = format!(in alloc; "{}", PackedFault { at: 8, kind: fault })?;
        assert!(rt; shown.as_str() == text);
    }
    Ok(())
}
