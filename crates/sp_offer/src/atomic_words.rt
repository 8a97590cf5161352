//! The atomic steps: seats, and the bits of words.
ghost use Rattle.std.specs.Prelude.{◌≡◌, ◌≢◌, ℕ, ◌+◌, ◌-◌, ◌≤◌, ◌<◌, true, ◌++◌, IfOk, length, replicate};
ghost use Rattle.sp_word.specs.Word.{Word, is_layout, is_word, bits_of, word_of};
ghost use Rattle.sp_word.specs.History.{Read};
ghost use Rattle.sp_offer.specs.Histories.{event};
ghost use Rattle.sp_offer.specs.Story.{IsTried};
ghost use Rattle.sp_offer.specs.Sight.{listener, merged_sight};
ghost use Rattle.sp_offer.specs.Ending.{IsEnd};
ghost use Rattle.sp_offer.specs.Lowering.{HasCome, Swaps, SeatTakes, by_steps};
ghost use Rattle.sp_offer.specs.Rule.{knowledge, IsBetweenSteps, HoldsWord, IsDone, seat_story, own_places, trail_of, HasSameTrail, SeatFinds, EndsAt, answer_event, Hears, HoldsNoSlot, IsFirstSeat, IsAtRest, IsSameSeat, IsAsItWas, HasSamePlaces, SeatLooks, SeatSees, SeatReads, SeatOffers};

use crate::law::Lawful;
use crate::rule::{
    Asking, Exchange, FirstLook, InOneHistory, Lessen, Meet, ReadWord, Share, TakeOver, Terms,
};
use crate::view::View;
use atomic_table::{Seat, Table};
use std::alloc::{AllocError, Global};
use std::marker::Brand;

/// A caller's seat at a table.
pub type CallerSeat = Seat<(), View>;

/// The words of a table, as 64 bits for each vertex.
#[derive(Drop)]
pub struct Words<L: Lawful> {
    table: Table<(), View, Terms<L>, InOneHistory, Global>,
    pub ghost some: { 0 < table.shared.key.vertices },
    pub ghost wide: { table.shared.table_id.words ≡ table.shared.key.vertices },
    pub ghost few: { table.shared.key.vertices < 4294967296 },
    pub ghost layout: { is_layout table.shared.key.layout ≡ true },
    pub ghost no_slots: { table.shared.table_id.slots ≡ 0 },
}

fn unreached_words(alloc: Global, n: u32) -> Result<Vec<u64>, AllocError>
    ensures { IfOk result (λ v. v.items ≡ replicate n 18446744073709551615) }
{
    vec![in alloc; u64::MAX; n as usize]
}

impl<L: Lawful> Words<L> {
    ghost use Rattle.sp_offer.specs.Parts.{id_of, vertices_of, layout_of, HasTerms, law_in};

    pub(crate) fn new(
        alloc: Global,
        n: u32,
        layout: u32,
        law: L,
    ) -> Result<(Words<L>, CallerSeat), AllocError>
    where
        L: Drop,
        requires some { 0 < n }
        requires layout { is_layout layout ≡ true }
        ensures words { IfOk result (λ t. HasTerms law n layout t.0) }
        ensures seat { IfOk result (λ t. IsFirstSeat (id_of t.0) t.1) }
    {
        let words = unreached_words(alloc, n)?;
        let terms = Terms {
            law,
            vertices: n as u64,
            layout,
        };
        let (table, seat) = Table::of_words(alloc, words.as_slice(), &terms)?;
        Ok((Words { table }, seat))
    }

    /// Returns the number of vertices.
    pub(crate) fn count(&self) -> usize
        ensures count { result ≡ vertices_of self.now }
        ensures range { (0 < result) × (result < 4294967296) }
    {
        self.table.word_count()
    }

    pub(crate) fn read<J: Asking>(&self, seat: &mut CallerSeat, vertex: u32) -> u64
        requires vertex { (0 < vertex) × (vertex ≤ vertices_of self.now) }
        requires seat { IsAtRest (id_of self.now) seat.old }
        requires layout { J.layout ≡ layout_of self.now }
        requires law { (v : ℕ) (w : Word) → law_in L.allows self.now v w → J.law v w }
        requires by { J.by ≡ seat.old.id }
        ensures seat { IsAtRest (id_of self.now) seat.new × IsSameSeat seat.old seat.new }
        ensures word { is_word J.layout result ≡ true }
        ensures call { SeatReads J.layout J.law J.by vertex result seat.old seat.new }
        ensures trail { SeatFinds vertex (word_of J.layout result) seat.old seat.new }
        ensures ends { EndsAt (event J.by vertex (Read (word_of J.layout result))) seat.new }
    {
        let words = &self.table.shared;
        words.load::<ReadWord<J>>(seat, (vertex - 1) as usize)
    }

    // Makes the load that begins an offer.
    #[tactic(auto, using(crate::proofs::Moves::may_begin))]
    fn first_look<J: Asking>(&self, seat: &mut CallerSeat, vertex: u32, word: u64) -> u64
        requires vertex { (0 < vertex) × (vertex ≤ vertices_of self.now) }
        requires seat { IsAtRest (id_of self.now) seat.old }
        requires layout { J.layout ≡ layout_of self.now }
        requires law { (v : ℕ) (w : Word) → law_in L.allows self.now v w → J.law v w }
        requires by { J.by ≡ seat.old.id }
        requires word { (word ≡ bits_of J.layout J.word) × law_in L.allows self.now vertex J.word }
        ensures seat { IsBetweenSteps (id_of self.now) seat.new × IsSameSeat seat.old seat.new }
        ensures way { HasCome J.layout J.law J.by vertex J.word word result 1 seat.old seat.new }
        ensures trail { SeatFinds vertex (word_of J.layout result) seat.old seat.new }
        ensures ends { result ≤ word
            → EndsAt (answer_event J.by vertex J.word (word_of J.layout result)) seat.new }
        ensures done { result ≤ word → IsDone seat.new }
        ensures goes_on { word < result
            → HoldsWord vertex J.word (word_of J.layout result) seat.new }
    {
        let words = &self.table.shared;
        words.load::<FirstLook<J>>(seat, (vertex - 1) as usize)
    }

    // Exchanges the bits held for the lesser bits offered.
    #[tactic(auto, using(crate::proofs::Moves::may_exchange))]
    fn exchange<J: Asking>(&self, seat: &mut CallerSeat, vertex: u32, held: u64, word: u64) -> u64
        requires vertex { (0 < vertex) × (vertex ≤ vertices_of self.now) }
        requires seat { IsBetweenSteps (id_of self.now) seat.old }
        requires holds { HoldsWord vertex J.word (word_of J.layout held) seat.old }
        requires layout { J.layout ≡ layout_of self.now }
        requires law { (v : ℕ) (w : Word) → law_in L.allows self.now v w → J.law v w }
        requires by { J.by ≡ seat.old.id }
        requires word { (word ≡ bits_of J.layout J.word) × law_in L.allows self.now vertex J.word }
        requires less { word < held }
        ensures seat { IsBetweenSteps (id_of self.now) seat.new × IsSameSeat seat.old seat.new }
        ensures step { Swaps J.layout J.law J.by vertex J.word word held result seat.old seat.new }
        ensures trail { SeatFinds vertex (word_of J.layout result) seat.old seat.new }
        ensures wins { result ≡ held
            → EndsAt (answer_event J.by vertex J.word (word_of J.layout result)) seat.new }
        ensures ends { result ≤ word
            → EndsAt (answer_event J.by vertex J.word (word_of J.layout result)) seat.new }
        ensures won { result ≡ held → IsDone seat.new }
        ensures done { result ≤ word → IsDone seat.new }
        ensures goes_on { result ≢ held → word < result
            → HoldsWord vertex J.word (word_of J.layout result) seat.new }
    {
        let words = &self.table.shared;
        words.compare_exchange::<Exchange<J>>(seat, (vertex - 1) as usize, held, word)
    }

    /// Loads, then exchanges until one succeeds or finds a word that is no larger. Returns the last word found and the number of
    /// steps.
    #[tactic(auto, using(crate::proofs::Exchanges::won_call, crate::proofs::Exchanges::won_tries, crate::proofs::Exchanges::lost_on))]
    pub(crate) fn lower<J: Asking>(
        &self,
        seat: &mut CallerSeat,
        vertex: u32,
        word: u64,
    ) -> (u64, u64)
        requires vertex { (0 < vertex) × (vertex ≤ vertices_of self.now) }
        requires seat { IsAtRest (id_of self.now) seat.old }
        requires layout { J.layout ≡ layout_of self.now }
        requires law { (v : ℕ) (w : Word) → law_in L.allows self.now v w → J.law v w }
        requires by { J.by ≡ seat.old.id }
        requires word { (word ≡ bits_of J.layout J.word) × law_in L.allows self.now vertex J.word }
        ensures seat { IsAtRest (id_of self.now) seat.new × IsSameSeat seat.old seat.new }
        ensures word { is_word J.layout result.0 ≡ true }
        ensures call { SeatOffers J.layout J.law J.by vertex J.word result.0 seat.old seat.new }
        ensures tries { IsTried vertex (seat_story seat.old) (seat_story seat.new) result.1 }
        ensures steps { SeatTakes (answer_event J.by vertex J.word (word_of J.layout result.0))
            (by_steps J.word (word_of J.layout result.0) result.1) seat.old seat.new }
    {
        let mut held = self.first_look::<J>(seat, vertex, word);
        let mut tries = 1;
        while word < held {
            let found = self.exchange::<J>(seat, vertex, held, word);
            tries += 1;
            if found == held {
                return (found, tries);
            }
            held = found;
        }
        (held, tries)
    }

    /// Leaves the lesser of two words in one step. Returns the word that was there before.
    pub(crate) fn lessen<J: Asking>(&self, seat: &mut CallerSeat, vertex: u32, word: u64) -> u64
        requires vertex { (0 < vertex) × (vertex ≤ vertices_of self.now) }
        requires seat { IsAtRest (id_of self.now) seat.old }
        requires layout { J.layout ≡ layout_of self.now }
        requires law { (v : ℕ) (w : Word) → law_in L.allows self.now v w → J.law v w }
        requires by { J.by ≡ seat.old.id }
        requires word { (word ≡ bits_of J.layout J.word) × law_in L.allows self.now vertex J.word }
        ensures seat { IsAtRest (id_of self.now) seat.new × IsSameSeat seat.old seat.new }
        ensures word { is_word J.layout result ≡ true }
        ensures call { SeatOffers J.layout J.law J.by vertex J.word result seat.old seat.new }
        ensures trail { SeatFinds vertex (word_of J.layout result) seat.old seat.new }
        ensures ends { EndsAt (answer_event J.by vertex J.word (word_of J.layout result)) seat.new }
    {
        let words = &self.table.shared;
        words.fetch_min::<Lessen<J>>(seat, (vertex - 1) as usize, word)
    }

    /// Makes a second seat, which has seen what the first has seen.
    #[tactic(auto, using(crate::proofs::Moves::splits))]
    pub(crate) fn split(&self, seat: &mut CallerSeat) -> CallerSeat
        requires { IsAtRest (id_of self.now) seat.old }
        ensures first { IsAtRest (id_of self.now) seat.new × IsAsItWas seat.old seat.new }
        ensures second { IsAtRest (id_of self.now) result × (result.me.0 ≡ listener seat.old.me.0) }
    {
        self.table.shared.split_seat::<Share>(seat)
    }

    // Makes one load, which shows the seat the history so far.
    fn look<J: Asking>(&self, seat: &mut CallerSeat)
        requires seat { HoldsNoSlot (id_of self.now) seat.old }
        requires layout { J.layout ≡ layout_of self.now }
        requires law { (v : ℕ) (w : Word) → law_in L.allows self.now v w → J.law v w }
        ensures seat { IsAtRest (id_of self.now) seat.new × IsSameSeat seat.old seat.new }
        ensures hears { Hears seat.old.me.0 seat.new.me.0 }
        ensures looks { SeatLooks J.law seat.old seat.new }
        ensures trail { HasSameTrail seat.old seat.new }
    {
        self.table.shared.load::<Meet<J>>(seat, 0);
    }

    // The seat takes over the calls of the other seat, and hears what that one has seen.
    #[tactic(auto, using(crate::proofs::Moves::joins))]
    fn merge(&self, seat: &mut CallerSeat, other: CallerSeat)
        requires seat { IsAtRest (id_of self.now) seat.old }
        requires other { IsAtRest (id_of self.now) other }
        ensures seat { HoldsNoSlot (id_of self.now) seat.new × IsSameSeat seat.old seat.new }
        ensures view { seat.new.me.0 ≡ merged_sight seat.old.me.0 other.me.0 }
    {
        self.table.shared.join_seat::<TakeOver>(seat, other);
    }

    /// The seat takes over the calls of the other seat, and sees what that one has seen.
    pub(crate) fn take_over(&self, seat: &mut CallerSeat, other: CallerSeat)
        requires seat { IsAtRest (id_of self.now) seat.old }
        requires other { IsAtRest (id_of self.now) other }
        ensures seat { IsAtRest (id_of self.now) seat.new × IsSameSeat seat.old seat.new }
        ensures story { SeatSees (law_in L.allows self.now) seat.old other seat.new }
        ensures own { own_places seat.new ≡ own_places seat.old ++ own_places other }
        ensures trail { trail_of seat.new ≡ trail_of seat.old ++ trail_of other }
    {
        self.merge(seat, other);
        self.look::<Brand>(seat);
    }

    /// The first seat also sees what the second seat has seen.
    pub(crate) fn hear(&self, first: &mut CallerSeat, second: &mut CallerSeat)
        requires first { IsAtRest (id_of self.now) first.old }
        requires second { IsAtRest (id_of self.now) second.old }
        ensures first { IsAtRest (id_of self.now) first.new × IsSameSeat first.old first.new }
        ensures second { IsAtRest (id_of self.now) second.new × IsAsItWas second.old second.new }
        ensures story { SeatSees (law_in L.allows self.now) first.old second.old first.new }
        ensures own { HasSamePlaces first.old first.new }
        ensures trail { HasSameTrail first.old first.new }
    {
        let echo = self.split(second);
        self.take_over(first, echo);
    }

    /// Closes the table, with its last caller. Returns the final words.
    pub(crate) fn close<const P: u32>(
        self,
        alloc: Global,
        seat: CallerSeat,
    ) -> Result<Vec<sp_word::Word<P>>, AllocError>
        requires seat { IsAtRest (id_of self) seat }
        requires layout { P ≡ layout_of self }
        ensures length { IfOk result (λ words. length words.items ≡ vertices_of self) }
        ensures end { IfOk result
            (λ words. IsEnd (law_in L.allows self) (knowledge seat) words.items) }
    {
        let count = self.count();
        let mut words = Vec::with_capacity(alloc, count)?;
        let Words { table } = self;
        let closed = table.close_with(seat);
        for place in 0..count {
            words.push_reserved(sp_word::Word::from_bits(closed.word(place)));
        }
        closed.free();
        Ok(words)
    }

    /// Both seats see what either has seen, and the first seat's history is a prefix of the second's.
    pub(crate) fn meet(&self, first: &mut CallerSeat, second: &mut CallerSeat)
        requires first { IsAtRest (id_of self.now) first.old }
        requires second { IsAtRest (id_of self.now) second.old }
        ensures first { IsAtRest (id_of self.now) first.new × IsSameSeat first.old first.new }
        ensures second { IsAtRest (id_of self.now) second.new × IsSameSeat second.old second.new }
        ensures first_sees { SeatSees (law_in L.allows self.now) first.old second.old first.new }
        ensures second_sees { SeatSees (law_in L.allows self.now) second.old first.new second.new }
        ensures own { HasSamePlaces first.old first.new × HasSamePlaces second.old second.new }
        ensures trail { HasSameTrail first.old first.new × HasSameTrail second.old second.new }
    {
        self.hear(first, second);
        self.hear(second, first);
    }
}
