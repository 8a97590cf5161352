//! Numbers with any number of digits.
ghost use Rattle.std.specs.Prelude.{◌≡◌, ◌<◌, ◌≤◌, ◌^◌, length, take, slice_index, true, false, IfSome, MatchOption};
ghost use Rattle.std.specs.List.{list_all};
ghost use Rattle.std.specs.Char.{is_ascii_digit};
ghost use Rattle.sp_text.specs.Lines.{value, is_number};
ghost use Rattle.sp_text.specs.Numeral.{numeral, numeral_within, HasNoLead, Leads, starts_number, begins_number, IsFront, IsQuick};

use crate::fields::parts_fields;
use crate::packed::packed_number;

/// A field, read as a number within a range.
#[derive(Clone, Copy, Debug, PartialEq, Eq)]
pub enum Numeral {
    /// The field spells no number.
    Bad,
    /// The field spells a number that is out of the range.
    Out,
    Value(u64),
}

// Any number with this many digits is below 2^64.
const FEW_DIGITS: usize = 19;

// Returns the number that the digits spell, if it fits.
fn value_of(digits: &[u8]) -> Option<u64>
    ensures { MatchOption result (2 ^ 64 ≤ value digits.now) (λ v. v ≡ value digits.now) }
{
    let mut value: u64 = 0;
    for digit in digits {
        let ten_fold = value.checked_mul(10)?;
        value = ten_fold.checked_add(digit.saturating_sub(b'0') as u64)?;
    }
    Some(value)
}

fn all_digits(bytes: &[u8]) -> bool
    ensures { result ≡ list_all is_ascii_digit bytes.now }
{
    bytes.iter().all(|b| b.is_ascii_digit())
}

/// Returns whether a field spells a number.
#[tactic(auto, unfolding(crate::specs::Lines::is_number))]
pub(crate) fn spells_number(field: &[u8]) -> bool
    ensures { result ≡ is_number field.now }
{
    match field {
        [] => false,
        [digit] => digit.is_ascii_digit(),
        [first, ..] => *first != b'0' && all_digits(field),
    }
}

// Returns the number of a field that may have many digits.
fn long_number(field: &[u8], least: u64, most: u64) -> Numeral
    ensures { result ≡ numeral field.now least most }
{
    if !spells_number(field) {
        return Numeral::Bad;
    }
    match value_of(field) {
        Some(value) => ranged(value, least, most),
        None => Numeral::Out,
    }
}

/// Returns the number if it is from `least` to `most`.
#[inline(always)]
pub(crate) fn ranged(value: u64, least: u64, most: u64) -> Numeral
    ensures { result ≡ numeral_within value least most }
{
    if least <= value && value <= most {
        Numeral::Value(value)
    } else {
        Numeral::Out
    }
}

// Returns the number that the leading digits spell, and their count, if there are few of them.
#[inline(always)]
fn front_digits(text: &[u8]) -> (u64, usize)
    ensures within { result.1 ≤ length text.now }
    ensures digits { list_all is_ascii_digit (take result.1 text.now) ≡ true }
    ensures number { result.1 ≤ 19 → result.0 ≡ value (take result.1 text.now) }
    ensures all { result.1 < length text.now
        → is_ascii_digit (slice_index text.now result.1) ≡ false }
{
    let mut value: u64 = 0;
    for (end, byte) in text.iter().enumerate() {
        if !byte.is_ascii_digit() {
            return (value, end);
        }
        value = value.wrapping_mul(10).wrapping_add((*byte - b'0') as u64);
    }
    (value, text.len())
}

/// Returns the number that the leading digits spell, and where they end, if there are few and they begin with no zero.
#[inline(always)]
pub(crate) fn front_number(text: &[u8]) -> Option<(u64, usize)>
    ensures { IfSome result (λ x. IsFront text.now x.0 x.1) }
{
    if !begins_number(text) {
        return None;
    }
    if let Some((value, end)) = packed_number(text) {
        return Some((value, end));
    }
    let (value, end) = front_digits(text);
    if end > FEW_DIGITS {
        return None;
    }
    Some((value, end))
}

/// Returns the number that the leading digits spell, and where they end, if there are few and a blank or the end follows
/// them.
#[inline(always)]
pub(crate) fn quick_number(text: &[u8]) -> Option<(u64, usize)>
    ensures { IfSome result (λ x. IsQuick text.now x.0 x.1) }
{
    let (value, end) = front_digits(text);
    if end > FEW_DIGITS || end < text.len() && !parts_fields(text[end]) {
        return None;
    }
    Some((value, end))
}

// Returns whether the first byte is a digit other than zero.
#[inline(always)]
fn begins_number(text: &[u8]) -> bool
    ensures { result ≡ begins_number text.now }
{
    match text {
        [] => false,
        [first, ..] => *first != b'0' && first.is_ascii_digit(),
    }
}

// Returns whether there is a byte, and no leading zero that other bytes follow.
fn starts_number(field: &[u8]) -> bool
    ensures { result ≡ starts_number field.now }
{
    match field {
        [] => false,
        [_] => true,
        [first, ..] => *first != b'0',
    }
}

/// Returns the number that the leading digits of a text spell, and their count. A number that 64 bits can't hold is
/// reported as `u64::MAX`. Returns `None` if they spell no number.
#[inline(always)]
pub fn leading_number(text: &[u8]) -> Option<(u64, usize)>
    ensures { MatchOption result (HasNoLead text.now) (λ x. Leads text.now x.0 x.1) }
{
    if let Some((value, end)) = front_number(text) {
        return Some((value, end));
    }
    let (value, end) = front_digits(text);
    let (digits, _) = text.split_at(end);
    if !starts_number(digits) {
        return None;
    }
    if end <= FEW_DIGITS {
        return Some((value, end));
    }
    match value_of(digits) {
        Some(value) => Some((value, end)),
        None => Some((u64::MAX, end)),
    }
}

/// Returns the number that a field spells, if it is from `least` to `most`.
pub fn number(field: &[u8], least: u64, most: u64) -> Numeral
    ensures { result ≡ numeral field.now least most }
{
    if !starts_number(field) {
        return Numeral::Bad;
    }
    match quick_number(field) {
        Some((value, end)) if end == field.len() => ranged(value, least, most),
        _ => long_number(field, least, most),
    }
}
