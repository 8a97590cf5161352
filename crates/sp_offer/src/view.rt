//! What the rule sees of a seat.
use std::marker::Model;

/// The history that a seat has seen, and its own calls in it. The type exists only in contracts and has no values at run time.
pub struct View {}

impl Model for View {
    ghost use Rattle.sp_offer.specs.Sight.{Sight, newcomer};

    ghost Value = { Sight };

    ghost view = { λ _. newcomer };
}
