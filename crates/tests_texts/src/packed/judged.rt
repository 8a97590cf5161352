//! The fault of a packed graph, by the rules for each word, one after the other.
ghost use Rattle.std.specs.Prelude.{◌<◌, ◌^◌};

use super::diamond::MOST_ARCS;
use sp_packed::{PackedFault, PackedField, PackedKind};

// The word at this place, or 0 where it isn't there.
fn at(words: &[u32], place: u64) -> u64
    ensures { result < 2 ^ 32 }
{
    for (k, word) in words.iter().enumerate() {
        if k as u64 == place {
            return *word as u64;
        }
    }
    0
}

// Whether a row of a graph of so many vertices begins with the arc at this index.
fn begins_row(words: &[u32], arc: u64) -> bool {
    let n = at(words, 2);
    for v in 0..n {
        if at(words, 4 + v) == arc {
            return true;
        }
    }
    false
}

// The lower or the upper half of the two sums of so many words.
fn sum_word(words: &[u32], count: u64, half: u64) -> u64 {
    let (mut first, mut second) = (0u64, 0u64);
    for (k, word) in words.iter().enumerate() {
        if (k as u64) < count {
            first = first.wrapping_add(*word as u64);
            second = second.wrapping_add(first);
        }
    }
    match half {
        0 => first % 0x1_0000_0000,
        1 => first / 0x1_0000_0000,
        2 => second % 0x1_0000_0000,
        _ => second / 0x1_0000_0000,
    }
}

// Whether the end with so many ends before it is none.
fn is_no_end(words: &[u32], place: u64) -> bool {
    let (n, m) = (at(words, 2), at(words, 3));
    let end = at(words, place.saturating_add(4));
    if place == 0 {
        return end != 0;
    }
    end < at(words, place.saturating_add(3)) || m < end || place == n && end != m
}

// Whether the head of an arc is none.
fn is_no_head(words: &[u32], arc: u64, place: u64) -> bool {
    let head = at(words, place);
    let first = begins_row(words, arc);
    head < 1 || at(words, 2) < head || !first && head < at(words, place.saturating_sub(2))
}

// Whether the length of an arc is none.
fn is_no_length(words: &[u32], arc: u64, place: u64) -> bool {
    let len = at(words, place);
    let same = at(words, place.saturating_sub(1)) == at(words, place.saturating_sub(3));
    len < 1 || !begins_row(words, arc) && same && len < at(words, place.saturating_sub(2))
}

// What is told of the word at this place, if it is another than is right behind those before it.
fn wrong(words: &[u32], place: u64) -> Option<PackedKind> {
    let (n, m) = (at(words, 2), at(words, 3));
    let word = at(words, place);
    let arcs = 5 + n;
    let sum = arcs + 2 * m;
    let (is_wrong, kind) = match place {
        0 => (word != 0x5450_5389, PackedKind::OtherForm),
        1 => (word != 0x011A_0A0D, PackedKind::OtherForm),
        2 => (
            word < 1 || 268_435_454 < word,
            PackedKind::OutOfRange(PackedField::Vertices),
        ),
        3 => (
            (MOST_ARCS as u64) < word,
            PackedKind::OutOfRange(PackedField::Arcs),
        ),
        _ if place < arcs => (
            is_no_end(words, place.saturating_sub(4)),
            PackedKind::OutOfRange(PackedField::End),
        ),
        _ if place < sum => {
            let behind = place.saturating_sub(arcs);
            if behind % 2 == 0 {
                let head = is_no_head(words, behind / 2, place);
                (head, PackedKind::OutOfRange(PackedField::Head))
            } else {
                let len = is_no_length(words, behind / 2, place);
                (len, PackedKind::OutOfRange(PackedField::Length))
            }
        }
        _ => (
            word != sum_word(words, sum, place.saturating_sub(sum)),
            PackedKind::OtherSum,
        ),
    };
    if is_wrong { Some(kind) } else { None }
}

/// The fault of a text of these words and so many bytes behind them, and what is told where it ends too early.
pub fn fault_of(words: &[u32], more: usize, few: PackedKind) -> Option<PackedFault> {
    let count = words.len() as u64;
    for k in 0..words.len() {
        let at = 4 * (k as u64 % 0x1_0000_0000);
        if is_whole(words, k as u64) {
            return Some(PackedFault {
                at,
                kind: PackedKind::TooMany,
            });
        }
        if let Some(kind) = wrong(words, k as u64) {
            return Some(PackedFault { at, kind });
        }
    }
    let at = 4 * (count % 0x1_0000_0000);
    if !is_whole(words, count) {
        return Some(PackedFault { at, kind: few });
    }
    if more == 0 {
        return None;
    }
    Some(PackedFault {
        at,
        kind: PackedKind::TooMany,
    })
}

// Whether a packed graph has so many words.
fn is_whole(words: &[u32], count: u64) -> bool {
    4 <= count && count == 9 + at(words, 2) + 2 * at(words, 3)
}
