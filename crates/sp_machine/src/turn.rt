//! The cases of a step.
ghost use Rattle.std.specs.Prelude.{◌≡◌, true};
ghost use Rattle.std.specs.Option.{option_copied};
ghost use Rattle.sp_word.specs.Word.{is_layout, max_dist};
ghost use Rattle.sp_machine.specs.Step.{at, offer_turn, load_turn, turn};
ghost use Rattle.sp_machine.specs.Cases.{IsReady};

use crate::item::Item;
use sp_word::Word;

/// The place within its item at which an actor is.
#[derive(Clone, Copy)]
pub enum At<const P: u32> {
    /// The actor has no further item.
    Idle,
    /// The actor is at an offer, by itself or as the second part of a relaxation.
    Offering { vertex: u32, word: Word<P> },
    /// The actor is at a read.
    Reading { vertex: u32 },
    /// The actor is at a relaxation, before the load of its tail.
    Loading { tail: u32, head: u32, len: u32 },
}

impl<const P: u32> At<P> {
    ghost use Rattle.sp_machine.specs.Step.{vertex_at};

    /// Returns the vertex whose word the actor's next step looks at, or 0 if the actor is idle.
    pub(crate) fn vertex(&self) -> u32
        ensures { result ≡ vertex_at self.now }
    {
        match self {
            At::Idle => 0,
            At::Offering { vertex, .. } | At::Reading { vertex } => *vertex,
            At::Loading { tail, .. } => *tail,
        }
    }
}

/// The case of a step of an actor.
#[derive(Clone, Copy)]
pub enum Turn {
    /// There is no further item: nothing changes.
    Rests,
    /// Case 1: the word loaded is at most the offer, which ends with the reply Kept.
    Keeps,
    /// Case 2: the word loaded is greater than the offer, and the actor holds it.
    Holds,
    /// Case 3: the word is the one held; the offer is stored, and ends.
    Wins,
    /// Case 4: the word is a different one and at most the offer, which ends with the reply Kept.
    LosesAndKeeps,
    /// Case 5: the word is a different one and greater than the offer, and the actor holds it.
    LosesAndHolds,
    /// Case 6: the read ends.
    EndsRead,
    /// Case 7: the tail is unreached, or the sum doesn't fit; its read ends, and so does the relaxation.
    EndsLoad,
    /// Case 8: the tail's read ends, and the actor is at the offer to the head.
    GoesOn,
}

/// Returns the place of an actor, given its item and the distance that it loaded there.
pub(crate) fn place_of<const P: u32>(item: Option<&Item<P>>, loaded: Option<u64>) -> At<P>
    requires { IsReady (option_copied item) loaded }
    ensures { result ≡ at (option_copied item.entry) loaded }
{
    let Some(item) = item else {
        return At::Idle;
    };
    match *item {
        Item::Offer { vertex, word } => At::Offering { vertex, word },
        Item::Read { vertex } => At::Reading { vertex },
        Item::Relax { tail, head, len } => match loaded {
            None => At::Loading { tail, head, len },
            Some(dist) => At::Offering {
                vertex: head,
                word: Word::pack(dist + len as u64, tail),
            },
        },
    }
}

// Returns the case of a step at an offer: cases 1 and 2 before its load, cases 3 to 5 if a word is held.
fn offer_turn<const P: u32>(offer: Word<P>, held: Option<Word<P>>, found: Word<P>) -> Turn
    ensures { result ≡ offer_turn offer.entry held.entry found.entry }
{
    let is_lower = offer.is_below(found);
    match held {
        None if is_lower => Turn::Holds,
        None => Turn::Keeps,
        Some(held) if found.is_same(held) => Turn::Wins,
        Some(_) if is_lower => Turn::LosesAndHolds,
        Some(_) => Turn::LosesAndKeeps,
    }
}

// Returns the case of a step before the load of an arc's tail: cases 7 and 8.
fn load_turn<const P: u32>(len: u32, found: Word<P>) -> Turn
    requires { is_layout P ≡ true }
    ensures { result ≡ load_turn (max_dist P) len found.entry }
{
    match found.dist() {
        Some(dist) if dist + len as u64 <= Word::<P>::max_dist() => Turn::GoesOn,
        _ => Turn::EndsLoad,
    }
}

/// Returns the case of a step in which the actor may hold `held`, and finds `found`.
pub(crate) fn turn_of<const P: u32>(place: &At<P>, held: Option<Word<P>>, found: Word<P>) -> Turn
    requires { is_layout P ≡ true }
    ensures { result ≡ turn (max_dist P) place.now held.entry found.entry }
{
    match *place {
        At::Idle => Turn::Rests,
        At::Offering { word, .. } => offer_turn(word, held, found),
        At::Reading { .. } => Turn::EndsRead,
        At::Loading { len, .. } => load_turn(len, found),
    }
}
