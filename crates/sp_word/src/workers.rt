//! The number of workers.
ghost use Rattle.std.specs.Prelude.{◌≡◌, ◌≤◌, ◌↔◌, IsSome, IfSome, min, max};

use std::marker::Model;

/// The greatest number of workers.
pub const MOST_WORKERS: u32 = 64;

/// A number of workers, from 1 to `MOST_WORKERS`.
///
/// In contracts it is this number.
#[derive(Clone, Copy, Debug, PartialEq, Eq)]
pub struct Workers {
    number: u32,
}

impl Model for Workers {
    ghost use Rattle.std.specs.Prelude.{ℕ};
    ghost use Rattle.sp_word.specs.Ranges.{IsCrew};

    ghost Value = { ℕ };

    ghost view = { λ w. w.number };

    ghost invariant = { λ w. IsCrew w.number };

    ghost inverse = { λ n. record { number = n } };
}

impl Workers {
    ghost use Rattle.sp_word.specs.Ranges.{IsCrew};

    /// Returns this number of workers, or `None` if it is out of range.
    pub fn new(number: u32) -> Option<Workers>
        ensures number { IfSome result (λ workers. workers ≡ number) }
        ensures exactly { IsSome result ↔ IsCrew number }
    {
        if number < 1 || number > MOST_WORKERS {
            return None;
        }
        Some(Workers { number })
    }

    /// Returns one worker.
    pub fn one() -> Workers
        ensures { result ≡ 1 }
    {
        Workers { number: 1 }
    }

    /// Returns the number.
    pub fn get(self) -> u32
        ensures number { result ≡ self }
        ensures range { IsCrew result }
    {
        self.number
    }

    /// Returns this number of workers, reduced to `most` if it is greater, but at least one.
    pub fn at_most(self, most: usize) -> Workers
        ensures number { result ≡ max 1 (min self most) }
        ensures fewer { result ≤ self }
    {
        let few = (self.number as usize).min(most).max(1);
        Workers { number: few as u32 }
    }
}
