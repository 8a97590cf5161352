//! The offers of one actor.
ghost use Rattle.std.specs.Prelude.{◌≡◌, ◌≤◌};
ghost use Rattle.sp_machine.specs.Programme.{IsNumber, IsItem};
ghost use Rattle.sp_replay.specs.Made.{AllowsItem, AllowsOffers, KnowsNoLess, KnowsItem, KnowsActor};

use sp_machine::{Item, Programme};
use sp_offer::{Caller, Lawful, OfferTable};

/// Makes the offers of an actor, in their order.
pub(crate) fn offer_row<L: Lawful, const P: u32>(
    table: &OfferTable<L, P>,
    mut caller: Caller,
    programme: &Programme<P>,
    actor: u32,
) -> Caller
    requires caller { caller.table ≡ table.now.id }
    requires words { programme.now.words ≤ table.now.vertices }
    requires law { AllowsOffers (L.allows table.now.law) programme.now }
    requires actor { IsNumber programme.now.actors actor }
    ensures caller { result.table ≡ caller.table }
    ensures made { KnowsActor programme.now actor result.story }
{
    let mut place = 0;
    while let Some(item) = programme.item(actor, place) {
        offer_item(table, &mut caller, &item);
        place += 1;
    }
    caller
}

// Makes the offer, if the item is one.
fn offer_item<L: Lawful, const P: u32>(
    table: &OfferTable<L, P>,
    caller: &mut Caller,
    item: &Item<P>,
)
    requires caller { caller.old.table ≡ table.now.id }
    requires item { IsItem table.now.vertices item.now }
    requires law { AllowsItem (L.allows table.now.law) item.now }
    ensures caller { caller.new.table ≡ caller.old.table }
    ensures falls { KnowsNoLess caller.old.story caller.new.story }
    ensures made { KnowsItem caller.new.story item.now }
{
    match item {
        Item::Offer { vertex, word } => {
            table.offer(caller, *vertex, *word);
        }
        _ => {}
    }
}
