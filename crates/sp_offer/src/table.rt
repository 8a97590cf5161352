//! The table and its callers.
ghost use Rattle.sp_offer.specs.Lowering.{by_steps};
ghost use Rattle.sp_offer.specs.Order.{lawful};
ghost use Rattle.sp_offer.specs.Ending.{IsEnd};
ghost use Rattle.std.specs.Prelude.{◌≡◌, ℕ, ◌+◌, ◌≤◌, ◌<◌, true, [], ◌++◌, length, IfOk, IsOkAnd, OnErr};
ghost use Rattle.sp_word.specs.Word.{IsPair, is_layout};
ghost use Rattle.sp_word.specs.Reply.{reply_to};
ghost use Rattle.sp_offer.specs.Story.{IsTried, empty_story, own_calls, reads_of};
ghost use Rattle.sp_offer.specs.Calling.{IsSameCaller, KeepsPlaces, HasSameCalls, HasSameTrail, OffersBy, ReadsBy, Copies, IsBeside, offer_of, read_of, Tells, Owns, OwnsAll, Offers, ReadsWord, ReadsWords, CopiesWords, SeesBoth};

use crate::atomic_words::{CallerSeat, Words};
use crate::law::Lawful;
use crate::lowering::{Loop, Lowering};
use sp_word::{Reply, Word, decide};
use std::alloc::{AllocError, Global};
use std::marker::{Brand, Model};

/// A table with a word for each of the vertices 1 to n. Offers lower the words.
#[derive(Drop)]
pub struct OfferTable<L: Lawful, const P: u32> {
    words: Words<L>,
}

impl<L: Lawful, const P: u32> Model for OfferTable<L, P> {
    ghost use Rattle.std.specs.Prelude.{◌≡◌};
    ghost use Rattle.sp_offer.specs.Rule.{TableView};
    ghost use Rattle.sp_offer.specs.Parts.{table_view, layout_of};

    ghost Value = { TableView L };

    ghost view = { λ t. table_view t.words };

    ghost invariant = { λ t. layout_of t.words ≡ P };
}

/// What one thread knows about a table, and its right to call there. It takes no bytes.
#[derive(Drop)]
pub struct Caller {
    seat: CallerSeat,
}

impl Model for Caller {
    ghost use Rattle.sp_offer.specs.Story.{Knowledge};
    ghost use Rattle.sp_offer.specs.Rule.{knowledge, IsCallersSeat};

    ghost Value = { Knowledge };

    ghost view = { λ c. knowledge c.seat };

    ghost invariant = { λ c. IsCallersSeat c.seat };
}

/// Memory for a second caller was refused. The first caller is unchanged.
#[derive(Drop)]
pub struct SplitRefused {
    /// The caller that was not split.
    pub caller: Caller,
}

/// The result of an offer.
#[derive(Clone, Copy, Debug, PartialEq, Eq)]
pub struct Offered<const P: u32> {
    /// What the offer did.
    pub reply: Reply,
    /// The word that decided the reply.
    pub found: Word<P>,
    /// The number of atomic steps that the offer took.
    pub tries: u64,
}

impl<L: Lawful, const P: u32> OfferTable<L, P> {
    /// Makes a table in which every word is unreached, and its first caller, which has seen nothing.
    pub fn new(alloc: Global, n: u32, law: L) -> Result<(OfferTable<L, P>, Caller), AllocError>
    where
        L: Drop,
        requires some { 0 < n }
        requires layout { is_layout P ≡ true }
        ensures table { IfOk result (λ t. (t.0.law ≡ law) × (t.0.vertices ≡ n)) }
        ensures caller { IfOk result (λ t. (t.1.table ≡ t.0.id) × (t.1.story ≡ empty_story)) }
        ensures trail { IfOk result (λ t. t.1.trail ≡ []) }
    {
        let (words, seat) = Words::new(alloc, n, P, law)?;
        Ok((OfferTable { words }, Caller { seat }))
    }

    /// Leaves the lesser of the vertex's word and the word offered. Never waits for other threads.
    pub fn offer(&self, caller: &mut Caller, vertex: u32, word: Word<P>) -> Offered<P>
        requires vertex { (0 < vertex) × (vertex ≤ self.now.vertices) }
        requires caller { caller.old.table ≡ self.now.id }
        requires word { IsPair word × L.allows self.now.law vertex word }
        ensures caller { IsSameCaller caller.old caller.new }
        ensures call { Offers P L.allows self.now vertex word.entry result caller.old caller.new }
        ensures known { Tells (offer_of caller.old vertex word.entry result) caller.old caller.new }
        ensures reply { result.reply ≡ reply_to result.found word.entry }
        ensures tries { IsTried vertex caller.old.story caller.new.story result.tries }
        ensures own { Owns (offer_of caller.old vertex word.entry result) caller.old caller.new }
        ensures steps { OffersBy by_steps vertex word.entry result caller.old caller.new }
    {
        self.offer_by::<Loop>(caller, vertex, word)
    }

    /// Makes an offer like `offer`, with a lowering that the caller chooses.
    pub fn offer_by<M: Lowering>(
        &self,
        caller: &mut Caller,
        vertex: u32,
        word: Word<P>,
    ) -> Offered<P>
        requires vertex { (0 < vertex) × (vertex ≤ self.now.vertices) }
        requires caller { caller.old.table ≡ self.now.id }
        requires word { IsPair word × L.allows self.now.law vertex word }
        ensures caller { IsSameCaller caller.old caller.new }
        ensures call { Offers P L.allows self.now vertex word.entry result caller.old caller.new }
        ensures known { Tells (offer_of caller.old vertex word.entry result) caller.old caller.new }
        ensures reply { result.reply ≡ reply_to result.found word.entry }
        ensures tries { IsTried vertex caller.old.story caller.new.story result.tries }
        ensures one { M.is_one_step ≡ true → result.tries ≡ 1 }
        ensures own { Owns (offer_of caller.old vertex word.entry result) caller.old caller.new }
        ensures steps { OffersBy M.finds vertex word.entry result caller.old caller.new }
    {
        // The word fits its layout.
        let _ = word.dist();
        let (bits, tries) = M::lower(&self.words, &mut caller.seat, vertex, word.bits());
        let found = Word::from_bits(bits);
        Offered {
            reply: decide(found, word),
            found,
            tries,
        }
    }

    /// Reads the word of a vertex.
    pub fn read(&self, caller: &mut Caller, vertex: u32) -> Word<P>
        requires vertex { (0 < vertex) × (vertex ≤ self.now.vertices) }
        requires caller { caller.old.table ≡ self.now.id }
        ensures caller { IsSameCaller caller.old caller.new }
        ensures call { ReadsWord P L.allows self.now vertex result caller.old caller.new }
        ensures known { Tells (read_of caller.old vertex result) caller.old caller.new }
        ensures own { Owns (read_of caller.old vertex result) caller.old caller.new }
        ensures steps { ReadsBy vertex result caller.old caller.new }
    {
        Word::from_bits(self.words.read::<Brand>(&mut caller.seat, vertex))
    }

    /// Copies the words of all vertices into `words`, with one read of each vertex in ascending order.
    pub fn copy_words(&self, caller: &mut Caller, words: &mut [Word<P>])
        requires caller { caller.old.table ≡ self.now.id }
        requires room { length words.old ≡ self.now.vertices }
        ensures caller { IsSameCaller caller.old caller.new }
        ensures reads { ReadsWords P L.allows self.now words.new caller.old caller.new }
        ensures copy { CopiesWords P L.allows self.now words.new caller.old caller.new }
        ensures length { length words.new ≡ length words.old }
        ensures own { OwnsAll (reads_of caller.old.number 1 words.new) caller.old caller.new }
        ensures steps { Copies words.new caller.old caller.new }
    {
        // There is a vertex.
        let _ = &self.words;
        for i in 0..words.len() {
            self.copy_word(caller, i, &mut words[i]);
        }
    }

    /// Returns a list of the words of all vertices, made with one read of each vertex in ascending order. If memory for the list
    /// is refused, nothing is read.
    pub fn list_words(&self, alloc: Global, caller: &mut Caller) -> Result<Vec<Word<P>>, AllocError>
        requires { caller.old.table ≡ self.now.id }
        ensures caller { IsSameCaller caller.old caller.new }
        ensures reads { IfOk result
            (λ words. ReadsWords P L.allows self.now words.items caller.old caller.new) }
        ensures copy { IfOk result
            (λ words. CopiesWords P L.allows self.now words.items caller.old caller.new) }
        ensures length { IfOk result (λ words. length words.items ≡ self.now.vertices) }
        ensures own { IfOk result
            (λ words. OwnsAll (reads_of caller.old.number 1 words.items) caller.old caller.new) }
        ensures steps { IfOk result (λ words. Copies words.items caller.old caller.new) }
        ensures refused { OnErr result (caller.new ≡ caller.old) }
    {
        let count = self.words.count();
        let mut words = Vec::with_capacity(alloc, count)?;
        for place in 0..count {
            words.push_reserved(self.read_place(caller, place));
        }
        Ok(words)
    }

    // Reads the word at an index, counted from 0, into `copy`.
    fn copy_word(&self, caller: &mut Caller, place: usize, copy: &mut Word<P>)
        requires caller { caller.old.table ≡ self.now.id }
        requires place { place < self.now.vertices }
        ensures caller { IsSameCaller caller.old caller.new }
        ensures call { ReadsWord P L.allows self.now (place + 1) copy.new caller.old caller.new }
        ensures own { Owns (read_of caller.old (place + 1) copy.new) caller.old caller.new }
        ensures steps { ReadsBy (place + 1) copy.new caller.old caller.new }
    {
        *copy = self.read_place(caller, place);
    }

    // Reads the word at an index, counted from 0.
    fn read_place(&self, caller: &mut Caller, place: usize) -> Word<P>
        requires caller { caller.old.table ≡ self.now.id }
        requires place { place < self.now.vertices }
        ensures caller { IsSameCaller caller.old caller.new }
        ensures call { ReadsWord P L.allows self.now (place + 1) result caller.old caller.new }
        ensures own { Owns (read_of caller.old (place + 1) result) caller.old caller.new }
        ensures steps { ReadsBy (place + 1) result caller.old caller.new }
    {
        // There are fewer than 2^32 vertices.
        let _ = &self.words;
        self.read(caller, place as u32 + 1)
    }

    /// Makes a second caller, which has seen what the first has seen and has made no calls. Allocates no memory and never fails.
    pub fn split(&self, caller: Caller) -> Result<(Caller, Caller), SplitRefused>
        requires { caller.table ≡ self.now.id }
        ensures first { IsOkAnd result (λ c. c.0 ≡ caller) }
        ensures second { IsOkAnd result (λ c. IsBeside caller c.1) }
        ensures trail { IsOkAnd result (λ c. c.1.trail ≡ []) }
    {
        let Caller { mut seat } = caller;
        let second = self.words.split(&mut seat);
        Ok((Caller { seat }, Caller { seat: second }))
    }

    /// Joins two callers into one, which has seen what both had seen and owns the calls of both.
    pub fn join(&self, first: Caller, second: Caller) -> Caller
        requires first { first.table ≡ self.now.id }
        requires second { second.table ≡ self.now.id }
        ensures caller { IsSameCaller first result }
        ensures story { SeesBoth P L.allows self.now first second result }
        ensures places { result.story.own ≡ first.story.own ++ second.story.own }
        ensures own { own_calls result.story ≡ own_calls first.story ++ own_calls second.story }
        ensures trail { result.trail ≡ first.trail ++ second.trail }
    {
        let Caller { mut seat } = first;
        let Caller { seat: other } = second;
        self.words.take_over(&mut seat, other);
        Caller { seat }
    }

    /// Closes the table, with its last caller, and returns the final words: the result of all calls ever made at the table, which
    /// are the calls of an interleaving of the callers' steps. If memory for the words is refused, the table and the caller are
    /// gone all the same.
    pub fn close(self, alloc: Global, caller: Caller) -> Result<Vec<Word<P>>, AllocError>
        requires caller { caller.table ≡ self.id }
        ensures length { IfOk result (λ words. length words.items ≡ self.vertices) }
        ensures end { IfOk result
            (λ words. IsEnd (lawful P (L.allows self.law)) caller words.items) }
    {
        let OfferTable { words } = self;
        let Caller { seat } = caller;
        words.close(alloc, seat)
    }

    /// Lets each caller see what the other has seen. The first caller's history is then a prefix of the second's.
    pub fn meet(&self, first: &mut Caller, second: &mut Caller)
        requires first { first.old.table ≡ self.now.id }
        requires second { second.old.table ≡ self.now.id }
        ensures first { KeepsPlaces first.old first.new }
        ensures second { KeepsPlaces second.old second.new }
        ensures first_sees { SeesBoth P L.allows self.now first.old second.old first.new }
        ensures second_sees { SeesBoth P L.allows self.now second.old first.new second.new }
        ensures own { HasSameCalls first.old first.new × HasSameCalls second.old second.new }
        ensures trail { HasSameTrail first.old first.new × HasSameTrail second.old second.new }
    {
        self.words.meet(&mut first.seat, &mut second.seat);
    }
}
