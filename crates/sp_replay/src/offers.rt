//! Offers files.
ghost use Rattle.std.specs.Prelude.{◌≡◌, ℕ, List, [], IfOk, IfErr, Some, true, false};
ghost use Rattle.sp_word.specs.Word.{is_layout};
ghost use Rattle.sp_text.specs.Text.{ItemLine as Line};
ghost use Rattle.sp_text.specs.Whole.{NeverRead};
ghost use Rattle.sp_replay.specs.Offers.{IsOffersFile, OffersRead};

use crate::formats::offers_format;
use crate::keeper::offer_at;
use crate::rows::ActorItems;
use sp_device::Read;
use sp_machine::{Item, Programme};
use sp_text::{
    Collector, DimacsError, Feeder, FileFormat, Keep, Kind, Ranges, Values, ranges_of, read_text,
};
use std::alloc::{AllocError, Global};

/// The offers read so far.
#[derive(Drop)]
pub struct OfferKeeper<const P: u32> {
    rows: ActorItems<P>,
    ghost layout: { is_layout P ≡ true },
}

/// What an offers file holds.
#[derive(Drop)]
pub struct OfferParts<const P: u32> {
    pub words: u32,
    pub actors: u32,
    pub rows: Vec<Vec<Item<P>>>,
}

impl<const P: u32> OfferKeeper<P> {
    ghost use Rattle.sp_replay.specs.OfferKeeping.{KeepsOffers};

    /// Returns a keeper that has read no line.
    pub fn new(alloc: Global) -> Self
        requires { is_layout P ≡ true }
        ensures { KeepsOffers result [] }
    {
        OfferKeeper {
            rows: ActorItems::new(alloc),
        }
    }
}

impl<const P: u32> Keep for OfferKeeper<P> {
    ghost use Rattle.std.specs.Prelude.{◌≡◌, ℕ, List, false};
    ghost use Rattle.sp_replay.specs.ReplayFormat.{offers};
    ghost use Rattle.sp_text.specs.Formats.{ranges_of};
    ghost use Rattle.sp_replay.specs.OfferKeeping.{KeepsOffers, SaysOffers};

    type Value = OfferParts<P>;

    ghost format = { offers };

    ghost ranges = { ranges_of P };

    ghost Kept = { λ k lines. KeepsOffers k lines };

    ghost Spelled = { λ problem lines parts. SaysOffers problem lines parts };

    fn format(&self) -> FileFormat {
        offers_format()
    }

    fn ranges(&self) -> Ranges {
        ranges_of::<P>()
    }

    fn keep(&mut self, _place: usize, values: &Values) -> Result<(), AllocError> {
        self.rows.push(values.get(0), offer_at(values))
    }

    // No form is fresh.
    fn is_named(&self, _place: usize, _first: u64) -> bool
        ensures { result ≡ false }
    {
        false
    }

    fn give(&mut self, problem: &Values) -> OfferParts<P> {
        OfferParts {
            words: problem.get(0) as u32,
            actors: problem.get(1) as u32,
            rows: self.rows.give(problem.get(1)),
        }
    }
}

/// Reads the rest of a reader's bytes, and returns the programme of the offers file that they spell, or their first
/// fault. The programme's items are the offers, and it has no word at the start.
///
/// It allocates memory for the offers as they come. If an allocation fails, the fault is Memory at the line of that offer,
/// unless that line or an earlier one has a fault. After a fault it is unspecified how much the reader took from its source.
pub fn read_offers<const P: u32, R: Read>(
    alloc: Global,
    reader: &mut R,
) -> Result<Programme<P>, DimacsError>
    requires { is_layout P ≡ true }
    ensures found { IfOk result IsOffersFile }
    ensures exact { (text : List ℕ) → R.left reader.old ≡ Some text
        → OffersRead text (R.left reader.new) (R.has_failed reader.new) result }
    ensures read { IfErr result (λ e. e.kind ≡ Kind.Read → R.has_failed reader.new ≡ true) }
    ensures never { NeverRead (R.failing reader.old) result }
{
    let feeder = Feeder::new(Collector::new(OfferKeeper::<P>::new(alloc)));
    match read_text(reader, feeder) {
        Ok(parts) => Ok(Programme::new(parts.words, parts.actors, Vec::new(alloc), parts.rows)),
        Err(e) => Err(e),
    }
}
