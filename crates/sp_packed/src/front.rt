//! The first words of a packed graph.
ghost use Rattle.std.specs.Prelude.{◌≡◌, ◌≢◌, ◌<◌, ◌≤◌, ◌^◌, ℕ, length, slice_index, IfOk, IfErr, IsTrue, ◌↔◌};
ghost use Rattle.sp_device.specs.Failing.{Never};
ghost use Rattle.sp_packed.specs.Packed.{shows_packed};
ghost use Rattle.sp_packed.specs.Faults.{IsPlace, IsWordKind};
ghost use Rattle.sp_packed.specs.Reading.{IsFrontWord, HasFront, Told};

use crate::blocks::WordBlock;
use crate::faults::{PackedFault, PackedField, PackedKind};
use sp_device::Read;

// The first byte of a packed text. No text of lines that spells a graph begins with it.
const MARK: u8 = 0x89;

/// The first word: the bytes 0x89 S P T.
pub const FIRST: u32 = 0x5450_5389;

/// The second word: CR LF 0x1A, and the number of the form.
pub const SECOND: u32 = 0x011A_0A0D;

// The number of words before the end of row 1.
const FRONT: usize = 5;

/// Returns whether a text that begins with this byte is packed. An empty text isn't.
pub fn is_packed(next: Option<u8>) -> bool
    ensures { result ≡ shows_packed next }
{
    match next {
        Some(first) => first == MARK,
        None => false,
    }
}

// Returns whether this may be the word that `place` words precede.
fn is_front_word(place: usize, number: u32, top: u32, most_arcs: u32) -> bool
    ensures { IsTrue result ↔ IsFrontWord top most_arcs place number }
{
    match place {
        0 => number == FIRST,
        1 => number == SECOND,
        2 => 1 <= number && number <= top,
        3 => number <= most_arcs,
        _ => number == 0,
    }
}

// Returns how many of the leading numbers are allowed there.
fn count_right(numbers: &[u32], top: u32, most_arcs: u32) -> usize
    ensures within { result ≤ length numbers.now }
    ensures right { (k : ℕ) → k < result → IsFrontWord top most_arcs k (slice_index numbers.now k) }
    ensures wrong { result < length numbers.now
        → IsFrontWord top most_arcs result (slice_index numbers.now result) → ⊥ }
    ensures fit { (i : ℕ) → slice_index numbers.now i < 2 ^ 32 }
{
    for (k, number) in numbers.iter().enumerate() {
        if !is_front_word(k, *number, top, most_arcs) {
            return k;
        }
    }
    numbers.len()
}

// Returns what to report of a wrong word that `place` words precede.
fn front_kind(place: usize) -> PackedKind
    requires { place < 5 }
    ensures place { (n m : ℕ) → IsPlace result n m place }
    ensures word { IsWordKind result }
{
    match place {
        0 | 1 => PackedKind::OtherForm,
        2 => PackedKind::OutOfRange(PackedField::Vertices),
        3 => PackedKind::OutOfRange(PackedField::Arcs),
        _ => PackedKind::OutOfRange(PackedField::End),
    }
}

/// Reads the numbers of vertices and of arcs, and the 0 where row 0 ends.
pub fn read_front<R: Read>(
    reader: &mut R,
    block: &mut WordBlock,
    top: u32,
    most_arcs: u32,
) -> Result<(u32, u32), PackedFault>
    requires { 1 ≤ top }
    ensures front { IfOk result (λ p. HasFront top most_arcs (R.left reader.old)
        (R.left reader.new) block.old.sum block.new.sum p.0 p.1) }
    ensures told { IfErr result (Told top most_arcs
        (R.left reader.old) (R.left reader.new) (R.has_failed reader.new)) }
    ensures never { R.failing reader.old ≡ Never → IfErr result (λ e. e.kind ≢ PackedKind.Read) }
    ensures lasting { R.failing reader.new ≡ R.failing reader.old }
{
    let failed = block.take(reader, FRONT);
    let numbers = block.numbers();
    let right = count_right(numbers, top, most_arcs);
    if right < numbers.len() {
        return Err(PackedFault::behind(right as u64, front_kind(right)));
    }
    if right < FRONT {
        return Err(PackedFault::cut(right as u64, failed));
    }
    Ok((numbers[2], numbers[3]))
}
