//! The law of a programme's offers.
ghost use Rattle.sp_replay.specs.Least.{IsOffered};

use sp_machine::Programme;
use sp_offer::Lawful;

/// Allows the pairs that actors of the programme offer, each for its vertex.
#[derive(Drop)]
pub(crate) struct OffersOf<'p, const P: u32> {
    pub programme: &'p Programme<P>,
}

impl<'p, const P: u32> Lawful for OffersOf<'p, P> {
    ghost allows = { λ law. IsOffered law.programme.now };
}
