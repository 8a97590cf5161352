//! Reads short numbers, all digits at once.
ghost use Rattle.std.specs.Prelude.{◌≡◌, ◌+◌, ◌<◌, ◌≤◌, length, take, drop, true, IfSome};
ghost use Rattle.std.specs.List.{list_all};
ghost use Rattle.std.specs.Char.{is_ascii_digit};
ghost use Rattle.sp_text.specs.Lines.{value};
ghost use Rattle.sp_text.specs.Numeral.{AreDigits, IsFront, others};

use std::simd::prelude::*;
use std::simd::{u8x8, u8x32, u64x1};

/// The number of bytes examined at once to find where numbers end.
const WINDOW: usize = 32;

/// The number of bytes that a text must have, so that each number ending in the window is read at once.
pub(crate) const ROOM: usize = 40;

// For each number of digits, the factor that moves the digits to the end of eight bytes, after zeros.
static SHIFTS: [u64; 9] = [
    0,
    1 << 56,
    1 << 48,
    1 << 40,
    1 << 32,
    1 << 24,
    1 << 16,
    1 << 8,
    1,
];

// Returns the value of the digits at the front, given how many there are.
#[inline(always)]
fn packed_value(text: &[u8], count: usize) -> u64
    requires room { 8 ≤ length text.now }
    requires some { 0 < count }
    requires few { count ≤ 8 }
    requires digits { list_all is_ascii_digit (take count text.now) ≡ true }
    ensures { result ≡ value (take count text.now) }
{
    let [bytes] = u64x1::from_le_bytes(u8x8::from_slice(text)).to_array();
    let digits = bytes.wrapping_mul(SHIFTS[count]) & 0x0f0f_0f0f_0f0f_0f0f;
    let pairs = digits.wrapping_mul(2_561) >> 8 & 0x00ff_00ff_00ff_00ff;
    let fours = pairs.wrapping_mul(6_553_601) >> 16;
    (fours & 0xffff)
        .wrapping_mul(10_000)
        .wrapping_add(fours >> 32)
}

/// Returns the number that the leading digits spell, and where they end, if there are eight bytes and one to seven leading
/// digits.
#[inline(always)]
pub(crate) fn packed_number(text: &[u8]) -> Option<(u64, usize)>
    ensures { IfSome result (λ x. AreDigits text.now x.0 x.1) }
{
    if text.len() < 8 {
        return None;
    }
    let lanes = u8x8::from_slice(text) - u8x8::splat(b'0');
    let others = lanes.simd_gt(u8x8::splat(9)).to_bitmask();
    let count = others.trailing_zeros() as usize;
    if count == 0 || count > 7 {
        return None;
    }
    Some((packed_value(text, count), count))
}

/// Returns a bit for each of the first 32 bytes, set if the byte is no digit.
#[inline(always)]
pub(crate) fn other_bytes(text: &[u8]) -> u64
    requires { WINDOW ≤ length text.now }
    ensures { result ≡ others (take WINDOW text.now) }
{
    let lanes = u8x32::from_slice(text) - u8x32::splat(b'0');
    lanes.simd_gt(u8x32::splat(9)).to_bitmask()
}

/// Returns the number that the digits from a position on spell, and their count, if there are one to eight, they begin
/// with no zero, and they end among the first 32 bytes. A bit is set for each of those bytes that is no digit.
#[inline(always)]
pub(crate) fn number_at(text: &[u8], bits: u64, place: usize) -> Option<(u64, usize)>
    requires room { ROOM ≤ length text.now }
    requires bits { bits ≡ others (take WINDOW text.now) }
    requires place { place ≤ WINDOW }
    ensures number { IfSome result (λ x. IsFront (drop place text.now) x.0 x.1) }
    ensures positive { IfSome result (λ x. 0 < x.0) }
    ensures within { IfSome result (λ x. place + x.1 < WINDOW) }
{
    let count = (bits >> place).trailing_zeros() as usize;
    if count == 0 || count > 8 || text[place] == b'0' {
        return None;
    }
    let (_, digits) = text.split_at(place);
    Some((packed_value(digits, count), count))
}
