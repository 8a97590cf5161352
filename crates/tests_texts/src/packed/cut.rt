//! A packed graph that is cut or changed anywhere.
ghost use Rattle.std.specs.Prelude.{◌≤◌, ◌<◌, ◌^◌, length};

use super::diamond::{DIAMOND, MOST_ARCS, bytes_of, read};
use super::judged::fault_of;
use sp_device::UpTo;
use sp_packed::{PackedKind, read_packed};
use std::alloc::{AllocError, Global};
use std::test::Fail;

// The words that these bytes spell.
fn words_of(alloc: Global, bytes: &[u8]) -> Result<Vec<u32>, AllocError> {
    let mut words = Vec::new(alloc);
    for k in 0..bytes.len() / 4 {
        let at = 4 * k;
        words.push(u32::from_le_bytes([bytes[at], bytes[at + 1], bytes[at + 2], bytes[at + 3]]))?;
    }
    Ok(words)
}

// Whether the fault of these bytes is told, by a device that ends behind them.
fn is_told(alloc: Global, bytes: &[u8]) -> Result<bool, AllocError>
    requires { length bytes.now ≤ 2 ^ 62 }
{
    let words = words_of(alloc, bytes)?;
    let want = fault_of(&words, bytes.len() % 4, PackedKind::TooFew);
    Ok(read(alloc, bytes).err() == want)
}

#[test]
fn cut_anywhere(rt: HostRuntime) -> Result<(), Fail> {
    let alloc = rt.alloc();
    let bytes = bytes_of(alloc, &DIAMOND)?;
    assert!(rt; bytes.len() == 92);
    for len in 0..93 {
        let cut = is_told(alloc, &bytes[..len])?;
        assert!(rt; cut);
    }
    Ok(())
}

// Whether the fault is told where the device fails behind this beginning.
fn is_told_failing(alloc: Global, bytes: &[u8]) -> Result<bool, AllocError>
    requires { length bytes.now ≤ 2 ^ 62 }
{
    let words = words_of(alloc, bytes)?;
    let want = match fault_of(&words, bytes.len() % 4, PackedKind::Read) {
        Some(fault) => fault,
        None => sp_packed::PackedFault {
            at: 92,
            kind: PackedKind::Read,
        },
    };
    let told = read_packed::<28, _>(alloc, &mut UpTo::failing(bytes), MOST_ARCS);
    Ok(told.err() == Some(want))
}

#[test]
fn failing_anywhere(rt: HostRuntime) -> Result<(), Fail> {
    let alloc = rt.alloc();
    let bytes = bytes_of(alloc, &DIAMOND)?;
    assert!(rt; bytes.len() == 92);
    for len in 0..93 {
        let failing = is_told_failing(alloc, &bytes[..len])?;
        assert!(rt; failing);
    }
    Ok(())
}

// Whether the fault is told where the byte at this place is another.
fn is_told_changed(alloc: Global, place: usize, mask: u8) -> Result<bool, AllocError> {
    let mut bytes = bytes_of(alloc, &DIAMOND)?;
    if bytes.len() <= place || 1000 < bytes.len() {
        return Ok(false);
    }
    bytes[place] ^= mask;
    is_told(alloc, &bytes)
}

#[test]
fn each_byte_changed(rt: HostRuntime) -> Result<(), Fail> {
    let alloc = rt.alloc();
    for place in 0..92 {
        for mask in [1, 2, 4, 0x80, 0xff] {
            let changed = is_told_changed(alloc, place, mask)?;
            assert!(rt; changed);
        }
    }
    Ok(())
}

// In pieces of any size the same graph is read.
#[test]
fn in_pieces(rt: HostRuntime) -> Result<(), Fail> {
    let alloc = rt.alloc();
    let bytes = bytes_of(alloc, &DIAMOND)?;
    assert!(rt; bytes.len() == 92);
    for most in 1..93 {
        let graph = read_packed::<28, _>(alloc, &mut UpTo::in_pieces(&bytes, most), MOST_ARCS);
        assert!(rt; graph.is_ok_and(|graph| graph.n() == 4 && graph.m() == 5));
    }
    Ok(())
}
