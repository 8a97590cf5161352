//! The effects of a step, besides advancing its actor.
ghost use Rattle.std.specs.Prelude.{◌≡◌, true};
ghost use Rattle.std.specs.Option.{option_copied};
ghost use Rattle.sp_word.specs.Word.{is_layout, IsPair};
ghost use Rattle.sp_machine.specs.Step.{ends_item, offer_word, at, call_ended, exchange_of, relaxation, effect};
ghost use Rattle.sp_machine.specs.Cases.{IsReady};

use crate::actor::Actor;
use crate::item::Item;
use crate::turn::{At, Turn, place_of};
use sp_word::{Reply, Word, decide};

/// A call on the word of a vertex, with its answer.
#[derive(Clone, Copy, Debug, PartialEq, Eq)]
pub enum Call<const P: u32> {
    /// An offer: the pair offered, the word that decided the reply, and the reply.
    Offer {
        word: Word<P>,
        found: Word<P>,
        reply: Reply,
    },
    /// A read: the word found.
    Read {
        found: Word<P>,
    },
}

/// A call that has ended, with its caller and its vertex.
#[derive(Clone, Copy, Debug, PartialEq, Eq)]
pub struct Ended<const P: u32> {
    pub actor: u32,
    pub vertex: u32,
    pub call: Call<P>,
}

/// A finished relaxation of an arc, and the distance of the tail that it loaded, if the tail was reached.
#[derive(Clone, Copy, Debug, PartialEq, Eq, Hash)]
pub struct Relaxation {
    pub tail: u32,
    pub head: u32,
    pub len: u32,
    pub loaded: Option<u64>,
}

/// The outcome of an exchange.
#[derive(Clone, Copy, Debug, PartialEq, Eq)]
pub enum ExchangeOutcome {
    /// The word found was the word held, and the offer was stored.
    Won,
    /// The word found was a different one, and nothing was stored.
    Lost,
}

/// The effect of a step: the call that it ended, the relaxation that it finished, and its exchange.
#[derive(Clone, Copy, Debug, PartialEq, Eq)]
pub struct Effect<const P: u32> {
    pub ended: Option<Ended<P>>,
    pub relaxed: Option<Relaxation>,
    pub exchange: Option<ExchangeOutcome>,
}

impl<const P: u32> Effect<P> {
    /// Returns the effect before the first step: nothing.
    pub(crate) fn none() -> Effect<P>
        ensures { result ≡ record { ended = None; relaxed = None; exchange = None } }
    {
        Effect {
            ended: None,
            relaxed: None,
            exchange: None,
        }
    }
}

fn offered_word<const P: u32>(place: &At<P>) -> Word<P>
    requires { is_layout P ≡ true }
    ensures { result ≡ offer_word place.now }
{
    match *place {
        At::Offering { word, .. } => word,
        _ => Word::unreached(),
    }
}

// Returns the call that a step ends, with its answer.
fn call_ended<const P: u32>(place: &At<P>, turn: Turn, found: Word<P>) -> Option<Call<P>>
    requires layout { is_layout P ≡ true }
    requires pair { turn ≡ Turn.Wins → IsPair (offer_word place.now) }
    ensures { result ≡ call_ended place.now turn found.entry }
{
    let word = offered_word(place);
    match turn {
        Turn::Rests | Turn::Holds | Turn::LosesAndHolds => None,
        Turn::Keeps | Turn::LosesAndKeeps => Some(Call::Offer {
            word,
            found,
            reply: Reply::Kept,
        }),
        Turn::Wins => Some(Call::Offer {
            word,
            found,
            reply: decide(found, word),
        }),
        Turn::EndsRead | Turn::EndsLoad | Turn::GoesOn => Some(Call::Read { found }),
    }
}

fn exchange_of(turn: Turn) -> Option<ExchangeOutcome>
    ensures { result ≡ exchange_of turn }
{
    match turn {
        Turn::Wins => Some(ExchangeOutcome::Won),
        Turn::LosesAndKeeps | Turn::LosesAndHolds => Some(ExchangeOutcome::Lost),
        _ => None,
    }
}

fn ends_item(turn: Turn) -> bool
    ensures { result ≡ ends_item turn }
{
    !matches!(
        turn,
        Turn::Rests | Turn::Holds | Turn::LosesAndHolds | Turn::GoesOn
    )
}

// Returns the relaxation of an item, with the distance that its read of the tail found.
fn finished_relaxation<const P: u32>(
    item: Option<&Item<P>>,
    loaded: Option<u64>,
    found: Word<P>,
) -> Option<Relaxation>
    ensures { result ≡ relaxation (option_copied item.entry) loaded found.entry }
{
    match *item? {
        Item::Offer { .. } | Item::Read { .. } => None,
        Item::Relax { tail, head, len } => Some(Relaxation {
            tail,
            head,
            len,
            loaded: loaded.or(found.dist()),
        }),
    }
}

/// Returns the effect of a step of an actor that is at `item` and finds `found`.
pub(crate) fn effect_of<const P: u32>(
    actor: u32,
    item: Option<&Item<P>>,
    state: &Actor<P>,
    turn: Turn,
    found: Word<P>,
) -> Effect<P>
    requires layout { is_layout P ≡ true }
    requires ready { IsReady (option_copied item) state.now.loaded }
    requires pair { turn ≡ Turn.Wins
        → IsPair (offer_word (at (option_copied item) state.now.loaded)) }
    ensures { result ≡ effect actor (option_copied item.entry) state.now turn found.entry }
{
    let place = place_of(item, state.loaded);
    let vertex = place.vertex();
    let ended = match call_ended(&place, turn, found) {
        Some(call) => Some(Ended {
            actor,
            vertex,
            call,
        }),
        None => None,
    };
    let relaxed = if ends_item(turn) {
        finished_relaxation(item, state.loaded, found)
    } else {
        None
    };
    Effect {
        ended,
        relaxed,
        exchange: exchange_of(turn),
    }
}
