//! The end of a packed graph: its sum, and nothing after it.
ghost use Rattle.std.specs.Prelude.{◌≡◌, ◌≢◌, ◌<◌, ◌≤◌, ◌^◌, ℕ, length, slice_index, OnOk, IfErr};
ghost use Rattle.std.specs.Io.KnownBytes.{Consumes, IsAtEnd};
ghost use Rattle.sp_device.specs.Failing.{Never};
ghost use Rattle.sp_packed.specs.Words.{words, sum_words};
ghost use Rattle.sp_packed.specs.Reading.{ToldOfSum};

use crate::blocks::{WordBlock, fill};
use crate::faults::{PackedFault, PackedKind};
use crate::word_sums::sum_numbers;
use sp_device::Read;

// The number of words of a sum.
const OF_SUM: usize = 4;

// Returns how many leading numbers of the two lists are equal.
fn count_same(numbers: &[u32], others: &[u32]) -> usize
    requires { length numbers.now ≤ length others.now }
    ensures within { result ≤ length numbers.now }
    ensures same { (k : ℕ) → k < result → slice_index numbers.now k ≡ slice_index others.now k }
    ensures other { result < length numbers.now
        → slice_index numbers.now result ≡ slice_index others.now result → ⊥ }
    ensures fit { (i : ℕ) → slice_index numbers.now i < 2 ^ 32 }
{
    for (k, number) in numbers.iter().enumerate() {
        if *number != others[k] {
            return k;
        }
    }
    numbers.len()
}

/// Reads the sum of `n` vertices and `m` arcs, and checks that nothing is left after it.
pub fn read_sum<R: Read>(
    reader: &mut R,
    block: &mut WordBlock,
    n: u32,
    m: u32,
) -> Result<(), PackedFault>
    ensures sum { OnOk result (Consumes (R.left reader.old) (R.left reader.new)
        (words (sum_words block.old.sum))) }
    ensures ended { OnOk result (IsAtEnd (R.left reader.new)) }
    ensures told { IfErr result (ToldOfSum block.old.sum n m
        (R.left reader.old) (R.left reader.new) (R.has_failed reader.new)) }
    ensures never { R.failing reader.old ≡ Never → IfErr result (λ e. e.kind ≢ PackedKind.Read) }
    ensures lasting { R.failing reader.new ≡ R.failing reader.old }
{
    let before = 5 + n as u64 + 2 * m as u64;
    let sum = sum_numbers(block.sum());
    let failed = block.take(reader, OF_SUM);
    let numbers = block.numbers();
    let right = count_same(numbers, &sum);
    if right < numbers.len() {
        return Err(PackedFault::behind(before + right as u64, PackedKind::OtherSum));
    }
    if right < OF_SUM {
        return Err(PackedFault::cut(before + right as u64, failed));
    }
    let mut behind = [0];
    let (more, failed) = fill(reader, &mut behind);
    if 0 < more {
        return Err(PackedFault::behind(before + 4, PackedKind::TooMany));
    }
    if failed {
        return Err(PackedFault::behind(before + 4, PackedKind::Read));
    }
    Ok(())
}
