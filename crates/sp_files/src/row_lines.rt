//! The lines of single rows, put into bytes from the end to the front: so no number's length is needed before its digits, and no
//! digit is moved.
ghost use Rattle.std.specs.Prelude.{◌≡◌, ◌+◌, ◌≤◌, ◌∷◌, ◌++◌, length, drop, codes};
ghost use Rattle.sp_text.specs.Numeral.{number_text};
ghost use Rattle.sp_files.specs.TreeText.{reached_text};
ghost use Rattle.sp_files.specs.ForestText.{reached_text as rooted_text};

use itoa::write_digits;
use sp_word::Word;

// Puts a byte before what stands from `end` on, and returns where it stands.
#[inline(always)]
fn put_byte(byte: u8, bytes: &mut [u8], end: usize) -> usize
    requires some { 1 ≤ end }
    requires within { end ≤ length bytes.old }
    ensures start { result + 1 ≡ end }
    ensures text { drop result bytes.new ≡ byte ∷ drop end bytes.old }
{
    bytes[end - 1] = byte;
    end - 1
}

// Puts a space and a number before what stands from `end` on, and returns where they begin.
#[inline(always)]
fn put_number(n: u64, bytes: &mut [u8], end: usize) -> usize
    requires room { length (number_text n) ≤ end }
    requires within { end ≤ length bytes.old }
    ensures start { result + length (number_text n) ≡ end }
    ensures text { drop result bytes.new ≡ number_text n ++ drop end bytes.old }
{
    let start = write_digits(n, bytes, end);
    put_byte(b' ', bytes, start)
}

// Puts the letter and the first numbers of a row before what stands from `end` on, and returns where they begin.
#[tactic(auto, using(crate::proofs::Numerals::decimal_short, crate::proofs::Numerals::vertex_short))]
#[inline(always)]
fn put_numbers(vertex: u32, dist: u64, pred: u32, bytes: &mut [u8], end: usize) -> usize
    requires room { 44 ≤ end }
    requires within { end ≤ length bytes.old }
    ensures front { result ≤ end }
    ensures short { end ≤ result + 44 }
    ensures text { drop result bytes.new ≡ codes "v" ++ number_text vertex ++ number_text dist
        ++ number_text pred ++ drop end bytes.old }
{
    let end = put_number(pred as u64, bytes, end);
    let end = put_number(dist, bytes, end);
    let end = put_number(vertex as u64, bytes, end);
    put_byte(b'v', bytes, end)
}

/// Puts the line of a tree's row before what stands from `end` on, and returns where it begins.
#[inline]
pub(crate) fn put_row<const P: u32>(
    vertex: u32,
    word: Word<P>,
    bytes: &mut [u8],
    end: usize,
) -> usize
    requires room { 56 ≤ end }
    requires within { end ≤ length bytes.old }
    ensures front { result ≤ end }
    ensures short { end ≤ result + 56 }
    ensures text { drop result bytes.new
        ≡ reached_text vertex word.entry ++ drop end bytes.old }
{
    let (Some(dist), Some(pred)) = (word.dist(), word.pred()) else {
        return end;
    };
    let end = put_byte(b'\n', bytes, end);
    put_numbers(vertex, dist, pred, bytes, end)
}

/// Puts the line of a forest's row before what stands from `end` on, and returns where it begins.
#[tactic(auto, using(crate::proofs::Numerals::vertex_short))]
#[inline]
pub(crate) fn put_rooted_row<const P: u32>(
    vertex: u32,
    word: Word<P>,
    root: u32,
    bytes: &mut [u8],
    end: usize,
) -> usize
    requires room { 56 ≤ end }
    requires within { end ≤ length bytes.old }
    ensures front { result ≤ end }
    ensures short { end ≤ result + 56 }
    ensures text { drop result bytes.new
        ≡ rooted_text vertex word.entry root ++ drop end bytes.old }
{
    let (Some(dist), Some(pred)) = (word.dist(), word.pred()) else {
        return end;
    };
    let end = put_byte(b'\n', bytes, end);
    let end = put_number(root as u64, bytes, end);
    put_numbers(vertex, dist, pred, bytes, end)
}
