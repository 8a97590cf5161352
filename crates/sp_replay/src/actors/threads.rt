//! Runs a thread for each actor.
ghost use Rattle.std.specs.Prelude.{◌≡◌, ◌≤◌};
ghost use denote.Param.Send.{IsSend, IsSync};
ghost use Rattle.sp_replay.specs.Made.{AllowsOffers, KnowsActors};

use crate::actors::rows::offer_row;
use sp_machine::Programme;
use sp_offer::{Caller, Lawful, OfferTable};
use std::thread::{Threads, join};

/// Makes the offers of the actors behind one and up to another, those of each on a thread of its own. Where no thread can be
/// had, this one makes them. All callers are joined at the end.
#[cycle(actors)]
#[tactic(auto, using(crate::proofs::Making::one_known, crate::proofs::Making::none_known))]
pub(crate) fn offer_rows<R: Threads + Sync, L: Lawful + Send + Sync, const P: u32>(
    rt: &R,
    table: &OfferTable<L, P>,
    caller: Caller,
    programme: &Programme<P>,
    before: u32,
    last: u32,
) -> Caller
    requires caller { caller.table ≡ table.now.id }
    requires words { programme.now.words ≤ table.now.vertices }
    requires law { AllowsOffers (L.allows table.now.law) programme.now }
    requires actors { (before ≤ last) × (last ≤ programme.now.actors) }
    ensures caller { result.table ≡ table.now.id }
    ensures made { KnowsActors programme.now before last result.story }
{
    let count = last - before;
    if count == 0 {
        return caller;
    }
    if count == 1 {
        return offer_row(table, caller, programme, last);
    }
    let middle = before + count / 2;
    let Ok((first, second)) = table.split(caller) else {
        unreachable!()
    };
    let theirs = move || -> Caller
        requires { IsSync R.row × IsSync L.row × IsSend L.row
            × (second.table ≡ table.now.id) × (programme.now.words ≤ table.now.vertices)
            × AllowsOffers (L.allows table.now.law) programme.now
            × (middle ≤ last) × (last ≤ programme.now.actors) }
        ensures { (result.table ≡ table.entry.now.id)
            × KnowsActors programme.entry.now middle last result.story }
    { offer_rows(rt, table, second, programme, middle, last) };
    let mine = move || -> Caller
        requires { IsSync R.row × IsSync L.row × IsSend L.row
            × (first.table ≡ table.now.id) × (programme.now.words ≤ table.now.vertices)
            × AllowsOffers (L.allows table.now.law) programme.now
            × (before ≤ middle) × (middle ≤ programme.now.actors) }
        ensures { (result.table ≡ table.entry.now.id)
            × KnowsActors programme.entry.now before middle result.story }
    { offer_rows(rt, table, first, programme, before, middle) };
    let (later, sooner) = join(rt, theirs, mine);
    table.join(sooner, later)
}
