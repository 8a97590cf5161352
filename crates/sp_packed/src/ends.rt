//! Where rows end.
ghost use Rattle.std.specs.Prelude.{◌≡◌, ◌≢◌, ◌+◌, ◌<◌, ◌≤◌, ◌^◌, ◌++◌, ℕ, length, take, slice_index, IfOk, IfErr, IfSome, IsNone};
ghost use Rattle.sp_device.specs.Failing.{Never};
ghost use Rattle.sp_packed.specs.Ends.{AreEnds, AreFirstEnds, HasEnds};
ghost use Rattle.sp_packed.specs.Reading.{front_words, ToldBehind};

use crate::blocks::{ROOM, WordBlock};
use crate::faults::{PackedFault, PackedField, PackedKind};
use sp_device::Read;
use std::alloc::Global;

// Returns the position of the first number that can't follow the ends so far. Each end is no less than the one before and at
// most `m`, and the end of the last row is `m`.
fn wrong_end(ends: &[u32], numbers: &[u32], n: u32, m: u32) -> Option<usize>
    requires some { 1 ≤ length ends.now }
    requires first { AreFirstEnds n m ends.now }
    requires few { length ends.now ≤ n }
    requires within { length ends.now + length numbers.now ≤ n + 1 }
    ensures place { IfSome result (λ k. k < length numbers.now) }
    ensures before { IfSome result (λ k. AreFirstEnds n m (ends.now ++ take k numbers.now)) }
    ensures wrong { IfSome result
        (λ k. AreFirstEnds n m (ends.now ++ take (k + 1) numbers.now) → ⊥) }
    ensures right { IsNone result → AreFirstEnds n m (ends.now ++ numbers.now) }
    ensures fit { (i : ℕ) → slice_index numbers.now i < 2 ^ 32 }
{
    let mut last = ends[ends.len() - 1];
    for (k, number) in numbers.iter().enumerate() {
        if *number < last || m < *number {
            return Some(k);
        }
        last = *number;
    }
    if ends.len() + numbers.len() == n as usize + 1 && last != m {
        return Some(numbers.len() - 1);
    }
    None
}

/// Reads where the rows of `n` vertices end, after the 0 of row 0.
pub fn read_ends<R: Read>(
    alloc: Global,
    reader: &mut R,
    block: &mut WordBlock,
    n: u32,
    m: u32,
) -> Result<Vec<u32>, PackedFault>
    requires { 1 ≤ n }
    ensures ends { IfOk result (λ ends. AreEnds n m ends.items) }
    ensures text { IfOk result (λ ends. HasEnds (R.left reader.old) (R.left reader.new)
        block.old.sum block.new.sum ends.items) }
    ensures told { IfErr result (λ e. ToldBehind (front_words n m) n m
        (R.left reader.old) (R.left reader.new) (R.has_failed reader.new) e) }
    ensures never { R.failing reader.old ≡ Never → IfErr result (λ e. e.kind ≢ PackedKind.Read) }
    ensures lasting { R.failing reader.new ≡ R.failing reader.old }
{
    let count = n as usize + 1;
    let mut ends = Vec::new(alloc);
    let Ok(()) = ends.push(0) else {
        return Err(PackedFault::behind(4, PackedKind::Memory));
    };
    while ends.len() < count {
        let want = (count - ends.len()).min(ROOM);
        let failed = block.take(reader, want);
        let numbers = block.numbers();
        let before = 4 + ends.len() as u64;
        if let Some(k) = wrong_end(&ends, numbers, n, m) {
            let kind = PackedKind::OutOfRange(PackedField::End);
            return Err(PackedFault::behind(before + k as u64, kind));
        }
        if numbers.len() < want {
            return Err(PackedFault::cut(before + numbers.len() as u64, failed));
        }
        let Ok(()) = ends.extend_from_slice(numbers) else {
            return Err(PackedFault::behind(before, PackedKind::Memory));
        };
    }
    Ok(ends)
}
