//! The rule of the table, and what each kind of step shows.
ghost use Rattle.std.specs.Prelude.{ℕ, ◌+◌, ◌≤◌, ◌<◌};
ghost use Rattle.sp_word.specs.Word.{Word, Unreached};
ghost use Rattle.sp_offer.specs.Order.{lawful};
ghost use Rattle.sp_offer.specs.Sight.{newcomer, listener, merged_sight};
ghost use Rattle.sp_offer.specs.Rule.{rule, met, was_read, loaded, exchanged, lessened};

use crate::law::Lawful;
use crate::view::View;
use atomic_table::{Join, Play, Split, TableRule};
use std::marker::{Brand, PhantomData};

/// The parameters of a table: its law, the number of its vertices, and the layout of its words.
#[derive(Drop)]
pub struct Terms<L> {
    pub law: L,
    pub vertices: u64,
    /// The number of bits of a word that hold its predecessor.
    pub layout: u32,
}

/// All calls form one legal history.
pub struct InOneHistory;

impl<L: Lawful> TableRule<(), View, Terms<L>> for InOneHistory {
    ghost holds = { λ key. rule key.layout (lawful key.layout (L.allows key.law)) key.vertices };

    ghost first = { λ _. newcomer };
}

/// The parameters of one call. The call chooses them, only for its proof.
pub trait Asking {
    // The caller's number.
    ghost by: { ℕ };

    // The layout of the words.
    ghost layout: { ℕ };

    // The words that the table takes.
    ghost law: { ℕ → Word → Type 0 };

    // The word offered.
    ghost word: { Word };
}

impl Asking for Brand {
    ghost by = { 0 };

    ghost layout = { 0 };

    ghost law = { λ _ _. Unit {0} };

    ghost word = { Unreached };
}

/// A load that only looks at the history so far.
pub struct Meet<J> {
    call: PhantomData<J>,
}

impl<J: Asking> Play<(), View> for Meet<J> {
    ghost then = { met J.layout J.law };
}

/// The load of a read.
pub struct ReadWord<J> {
    call: PhantomData<J>,
}

impl<J: Asking> Play<(), View> for ReadWord<J> {
    ghost then = { was_read J.layout J.law J.by };
}

/// The load that starts an offer, and ends it if the word found is no larger.
pub struct FirstLook<J> {
    call: PhantomData<J>,
}

impl<J: Asking> Play<(), View> for FirstLook<J> {
    ghost then = { loaded J.layout J.law J.by J.word };
}

/// An exchange that replaces the word held by the word offered.
pub struct Exchange<J> {
    call: PhantomData<J>,
}

impl<J: Asking> Play<(), View> for Exchange<J> {
    ghost then = { exchanged J.layout J.law J.by J.word };
}

/// The single step that leaves the lesser of two words.
pub struct Lessen<J> {
    call: PhantomData<J>,
}

impl<J: Asking> Play<(), View> for Lessen<J> {
    ghost then = { lessened J.layout J.law J.by J.word };
}

/// The first seat keeps its view; the second seat has seen the same.
pub struct Share;

impl Split<View> for Share {
    ghost left = { λ v. v };

    ghost right = { listener };
}

/// The first seat takes over the calls of the second.
pub struct TakeOver;

impl Join<View> for TakeOver {
    ghost both = { merged_sight };

    ghost spent = { newcomer };
}
