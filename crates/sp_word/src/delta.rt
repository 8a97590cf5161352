//! The width of a bucket.
ghost use Rattle.std.specs.Prelude.{◌≡◌, ◌↔◌, true, IsSome, IfSome};
ghost use Rattle.sp_word.specs.Word.{is_layout};

use crate::word::Word;
use std::marker::Model;

/// The width of a bucket, from 1 to the greatest distance of a word with `P` predecessor bits.
///
/// In contracts a `Delta` is its number.
#[derive(Clone, Copy, Debug, PartialEq, Eq)]
pub struct Delta<const P: u32> {
    width: u64,
}

impl<const P: u32> Model for Delta<P> {
    ghost use Rattle.std.specs.Prelude.{ℕ};
    ghost use Rattle.sp_word.specs.Ranges.{IsWidth};

    ghost Value = { ℕ };

    ghost view = { λ d. d.width };

    ghost invariant = { λ d. IsWidth P d.width };

    ghost inverse = { λ n. record { width = n } };
}

impl<const P: u32> Delta<P> {
    ghost use Rattle.sp_word.specs.Ranges.{IsWidth};

    /// Returns this width, or `None` if it is out of range.
    pub fn new(width: u64) -> Option<Delta<P>>
        requires { is_layout P ≡ true }
        ensures width { IfSome result (λ delta. delta ≡ width) }
        ensures exactly { IsSome result ↔ IsWidth P width }
    {
        if width < 1 || width > Word::<P>::max_dist() {
            return None;
        }
        Some(Delta { width })
    }

    /// Returns the width as a number.
    pub fn get(self) -> u64
        ensures width { result ≡ self.entry }
        ensures range { IsWidth P result }
    {
        self.width
    }
}
