//! Appends numbers to a block of text.
ghost use Rattle.std.specs.Prelude.{◌≡◌, ◌+◌, ◌≤◌, ◌++◌, length};
ghost use Rattle.sp_text.specs.Numeral.{number_text};

use sp_device::Block;

/// Appends a space and a number.
pub fn push_number(block: &mut Block, n: u64)
    requires { length block.old + 21 ≤ 8192 }
    ensures text { block.new ≡ block.old ++ number_text n }
    ensures short { length block.new ≤ length block.old + 21 }
{
    block.push(b" ");
    block.push_number(n);
}
