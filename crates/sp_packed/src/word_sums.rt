//! Blocks of words, and their sum.
ghost use Rattle.std.specs.Prelude.{◌≡◌, ℕ, ◌<◌, ◌^◌, slice_index, ◌+◌, ◌*◌, length};
ghost use Rattle.sp_packed.specs.Words.{words, sum_on, no_sum, sum_words};

/// The sum of words: the sum of the numbers, and the sum of all intermediate sums, both modulo 2^64.
#[derive(Clone, Copy)]
pub struct Sum {
    pub first: u64,
    pub second: u64,
}

impl Sum {
    /// Returns the sum of no words.
    pub fn new() -> Self
        ensures { result ≡ no_sum }
    {
        Sum {
            first: 0,
            second: 0,
        }
    }

    /// Returns the sum after these words are added.
    pub fn on(self, numbers: &[u32]) -> Sum
        ensures { result ≡ sum_on self numbers.now }
    {
        let mut first = self.first;
        let mut second = self.second;
        for number in numbers {
            first = first.wrapping_add(*number as u64);
            second = second.wrapping_add(first);
        }
        Sum { first, second }
    }
}

/// Returns the words of a sum.
pub fn sum_numbers(sum: Sum) -> [u32; 4]
    ensures words { result ≡ sum_words sum }
    ensures fit { (i : ℕ) → slice_index result i < 2 ^ 32 }
{
    [
        (sum.first % 0x1_0000_0000) as u32,
        (sum.first / 0x1_0000_0000) as u32,
        (sum.second % 0x1_0000_0000) as u32,
        (sum.second / 0x1_0000_0000) as u32,
    ]
}

/// Replaces all the numbers with those that the bytes spell.
pub fn decode(bytes: &[u8], numbers: &mut [u32])
    requires { length bytes.now ≡ 4 * length numbers.old }
    ensures { bytes.now ≡ words numbers.new }
{
    for (i, number) in numbers.iter_mut().enumerate() {
        let at = 4 * i;
        *number = u32::from_le_bytes([bytes[at], bytes[at + 1], bytes[at + 2], bytes[at + 3]]);
    }
}
