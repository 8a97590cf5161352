//! Grants, and the rule of the marks: what claimers hold, and what a step adds.
ghost use Rattle.std.specs.Prelude.{◌≡◌, ℕ};

use atomic_table::{Join, Play, Split, TableRule};
use std::collections::LinkedList;

/// The right to run, in this round, the work that the slot stands for.
#[derive(Clone, Copy, PartialEq, Eq, Debug)]
pub struct Grant {
    pub slot: u32,
    pub round: u64,
}

/// The grants that a claimer was given. No value of this type is made.
pub struct GrantView {
    pub grants: LinkedList<Grant>,
}

/// Each slot and round is granted at most once, and a word is 0 or a round that was granted.
pub struct OncePerRound;

impl TableRule<(), GrantView, usize> for OncePerRound {
    ghost use Rattle.sp_rounds.specs.Grants.{Kept, nothing};

    ghost holds = { λ n s. Kept n s.words s.views };

    ghost first = { λ _. nothing };
}

/// A claim: if the word found is below the round, the grant is new; otherwise nothing changes.
pub struct Claims;

impl Play<(), GrantView> for Claims {
    ghost use Rattle.sp_rounds.specs.Grants.{Claimed};

    ghost then = { Claimed };
}

/// A load that records that no grant was given twice.
pub struct Checks;

impl Play<(), GrantView> for Checks {
    ghost use Rattle.sp_rounds.specs.Grants.{Checked};

    ghost then = { Checked };
}

/// A new claimer has no grants.
pub struct Apart;

impl Split<GrantView> for Apart {
    ghost use Rattle.sp_rounds.specs.Grants.{nothing};

    ghost left = { λ v. v };

    ghost right = { λ _. nothing };
}

/// The first claimer has the grants of both.
pub struct Together;

impl Join<GrantView> for Together {
    ghost use Rattle.sp_rounds.specs.Grants.{nothing, both};

    ghost both = { both };

    ghost spent = { nothing };
}
