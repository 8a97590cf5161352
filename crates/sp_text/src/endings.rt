//! The end of a line.
ghost use Rattle.std.specs.Prelude.{MatchOption};
ghost use Rattle.memchr.specs.Find.{IsFirstByte, is_byte};
ghost use Rattle.sp_text.specs.Meaning.{HasNoLf, IsFirstLine};

use memchr::memchr;
use std::simd::prelude::*;
use std::simd::u8x32;

// The number of bytes searched at once.
const FRONT: usize = 32;

// Returns the position of the first LF.
#[inline(always)]
fn first_lf(bytes: &[u8]) -> Option<usize>
    ensures { IsFirstByte (is_byte 10) bytes.now result }
{
    if bytes.len() >= FRONT {
        let found = u8x32::from_slice(bytes).simd_eq(u8x32::splat(b'\n'));
        let end = found.to_bitmask().trailing_zeros() as usize;
        if end < FRONT {
            return Some(end);
        }
    }
    memchr(b'\n', bytes)
}

/// Returns the bytes before the first LF, and those after it.
#[inline(always)]
pub fn cut_line(bytes: &[u8]) -> Option<(&[u8], &[u8])>
    ensures { MatchOption result (HasNoLf bytes.now) (λ x. IsFirstLine bytes.now x.0.now x.1.now) }
{
    let end = first_lf(bytes)?;
    let (line, after) = bytes.split_at(end);
    let (_, more) = after.split_at(1);
    Some((line, more))
}
