//! The table that threads share, and its claimers.
ghost use Rattle.std.specs.Prelude.{◌≡◌, ◌∷◌, ◌++◌, [], ◌<◌, IfOk, IsOkAnd, IfSome, IfNone, OnSome, replicate};
ghost use Rattle.sp_rounds.specs.Grants.{times, EachOnce};

use crate::grants::{Apart, Checks, Claims, Grant, GrantView, OncePerRound, Together};
use atomic_table::{Seat, Table};
use std::alloc::{AllocError, Global};
use std::marker::Model;

/// A table with a word for each slot: the greatest round that was claimed, at first 0. Contracts see which table it is.
#[derive(Drop)]
pub struct ClaimTable {
    table: Table<(), GrantView, usize, OncePerRound, Global>,
}

impl Model for ClaimTable {
    ghost use Rattle.std.specs.Prelude.{◌≡◌};
    ghost use Rattle.atomic_table.specs.Seated.{TableId};

    ghost Value = { TableId };

    ghost view = { λ t. t.table.shared.table_id };

    ghost invariant = { λ t. t.table.shared.key ≡ t.table.shared.table_id.words };
}

/// A thread's right to claim. Contracts see the table to which it belongs, and the grants that it was given.
#[derive(Drop)]
pub struct Claimer {
    seat: Seat<(), GrantView>,
}

impl Model for Claimer {
    ghost use Rattle.std.specs.Prelude.{◌≡◌, []};
    ghost use Rattle.sp_rounds.specs.Held.{Held};

    ghost Value = { Held };

    ghost view = { λ c. record { table = c.seat.table_id; grants = c.seat.me.0.grants } };

    ghost invariant = { λ c. c.seat.me.1 ≡ [] };
}

/// Memory for a second claimer was refused. The claimer that was to be split is returned.
#[derive(Drop)]
pub struct SplitRefused {
    pub claimer: Claimer,
}

impl ClaimTable {
    /// Makes a table whose words are all 0, with its first claimer, which has no grants.
    pub fn new(alloc: Global, slots: u32) -> Result<(ClaimTable, Claimer), AllocError>
        requires { 0 < slots }
        ensures slots { IfOk result (λ made. made.0.words ≡ slots) }
        ensures table { IfOk result (λ made. made.1.table ≡ made.0) }
        ensures grants { IfOk result (λ made. made.1.grants ≡ []) }
    {
        let words = fresh_words(alloc, slots)?;
        let (table, seat) = Table::of_words(alloc, words.as_slice(), &words.len())?;
        Ok((ClaimTable { table }, Claimer { seat }))
    }

    /// Claims the slot for the round, by one step on the slot's word. The claim is granted exactly if the word found
    /// was below the round, so round 0 is never granted. It allocates no memory.
    pub fn claim(&self, claimer: &mut Claimer, slot: u32, round: u64) -> Option<Grant>
        requires table { claimer.old.table ≡ self.now }
        requires inside { slot < self.now.words }
        ensures table { claimer.new.table ≡ claimer.old.table }
        ensures numbers { IfSome result (λ grant. (grant.slot ≡ slot) × (grant.round ≡ round)) }
        ensures positive { OnSome result (0 < round) }
        ensures fresh { OnSome result (times slot round claimer.old.grants ≡ 0) }
        ensures granted { IfSome result (λ grant. claimer.new.grants ≡ grant ∷ claimer.old.grants) }
        ensures refused { IfNone result (claimer.new.grants ≡ claimer.old.grants) }
    {
        let found = self
            .table
            .shared
            .fetch_max::<Claims>(&mut claimer.seat, slot as usize, round);
        if found < round {
            Some(Grant { slot, round })
        } else {
            None
        }
    }

    /// Splits a claimer into two: the first keeps the grants, and the second has none. It allocates no memory, and
    /// never fails.
    pub fn split(&self, claimer: Claimer) -> Result<(Claimer, Claimer), SplitRefused>
        requires table { claimer.table ≡ self.now }
        requires slots { 0 < self.now.words }
        ensures first { IsOkAnd result (λ claimers. claimers.0 ≡ claimer) }
        ensures table { IsOkAnd result (λ claimers. claimers.1.table ≡ claimer.table) }
        ensures second { IsOkAnd result (λ claimers. claimers.1.grants ≡ []) }
    {
        let Claimer { mut seat } = claimer;
        let other = self.table.shared.split_seat::<Apart>(&mut seat);
        Ok((Claimer { seat }, Claimer { seat: other }))
    }

    /// Joins two claimers into one with the grants of both, which have no slot and round in common.
    pub fn join(&self, claimer: Claimer, other: Claimer) -> Claimer
        requires first { claimer.table ≡ self.now }
        requires second { other.table ≡ self.now }
        requires slots { 0 < self.now.words }
        ensures table { result.table ≡ claimer.table }
        ensures grants { result.grants ≡ claimer.grants ++ other.grants }
        ensures once { EachOnce result.grants }
    {
        let mut joined = claimer;
        self.take_over(&mut joined, other);
        self.check(&mut joined);
        joined
    }

    /// Shows, by one load, that no slot and round occurs among the claimer's grants twice.
    pub fn check(&self, claimer: &mut Claimer)
        requires table { claimer.old.table ≡ self.now }
        requires slots { 0 < self.now.words }
        ensures same { claimer.new ≡ claimer.old }
        ensures once { EachOnce claimer.new.grants }
    {
        self.load_once(claimer);
    }

    fn load_once(&self, claimer: &mut Claimer)
        requires table { claimer.old.table ≡ self.now }
        requires slots { 0 < self.now.words }
        ensures same { claimer.new ≡ claimer.old }
        ensures once { EachOnce claimer.new.grants }
    {
        self.table.shared.load::<Checks>(&mut claimer.seat, 0);
    }

    // The first claimer takes over the grants of the other.
    fn take_over(&self, claimer: &mut Claimer, other: Claimer)
        requires first { claimer.old.table ≡ self.now }
        requires second { other.table ≡ self.now }
        requires slots { 0 < self.now.words }
        ensures table { claimer.new.table ≡ claimer.old.table }
        ensures grants { claimer.new.grants ≡ claimer.old.grants ++ other.grants }
    {
        let Claimer { seat: other } = other;
        self.table
            .shared
            .join_seat::<Together>(&mut claimer.seat, other);
    }
}

fn fresh_words(alloc: Global, slots: u32) -> Result<Vec<u64>, AllocError>
    ensures { IfOk result (λ words. words.items ≡ replicate slots 0) }
{
    vec![in alloc; 0u64; slots as usize]
}
