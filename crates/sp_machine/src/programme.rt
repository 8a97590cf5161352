//! The start of a run: the words at the start, and the items of each actor.
ghost use Rattle.std.specs.Prelude.{◌≡◌, ◌+◌, ◌^◌, ◌<◌, ◌≤◌, IsSome, IfSome, All, map, true};
ghost use Rattle.sp_word.specs.Word.{is_layout};
ghost use Rattle.sp_machine.specs.Programme.{IsNumber, IsItem, item_of};

use crate::item::Item;
use sp_word::Word;
use std::marker::Model;

/// The words at the start, and the items of each actor in order.
#[derive(Drop)]
pub struct Programme<const P: u32> {
    words: u32,
    actors: u32,
    named: Vec<(u32, Word<P>)>,
    rows: Vec<Vec<Item<P>>>,
}

impl<const P: u32> Model for Programme<P> {
    ghost use Rattle.std.specs.Prelude.{◌≡◌, true, map};
    ghost use Rattle.sp_word.specs.Word.{is_layout};
    ghost use Rattle.sp_machine.specs.Programme.{Programme as ProgrammeModel};

    ghost Value = { ProgrammeModel P };

    ghost use Rattle.sp_machine.specs.ProgrammeView.{plan_of};
    ghost use Rattle.sp_machine.specs.Programme.{IsProgramme};

    ghost view = { λ p. plan_of p };

    ghost invariant = { λ p. (is_layout P ≡ true) × IsProgramme (plan_of p) };
}

impl<const P: u32> Programme<P> {
    ghost use Rattle.sp_machine.specs.Programme.{Programme as ProgrammeModel, IsProgramme};

    /// Makes a programme with the given numbers of words and actors. The named vertices have a word at the start. Row `a - 1`
    /// holds the items of actor `a`, in order. Actors beyond the last row have no items.
    pub fn new(
        words: u32,
        actors: u32,
        named: Vec<(u32, Word<P>)>,
        rows: Vec<Vec<Item<P>>>,
    ) -> Programme<P>
        requires layout { is_layout P ≡ true }
        requires programme { let plan : ProgrammeModel P = record {
          words = words;
          actors = actors;
          named = named.items;
          rows = map (λ row. row.items) rows.items;
        } in IsProgramme plan }
        ensures { result ≡ record {
          words = words;
          actors = actors;
          named = named.entry.items;
          rows = map (λ row. row.items) rows.entry.items;
        } }
    {
        Programme {
            words,
            actors,
            named,
            rows,
        }
    }

    /// Returns the number of words.
    pub fn words(&self) -> u32
        ensures words { result ≡ self.now.words }
        ensures range { IsNumber 65536 result }
        ensures layout { is_layout P ≡ true }
    {
        self.words
    }

    /// Returns the number of actors.
    pub fn actors(&self) -> u32
        ensures actors { result ≡ self.now.actors }
        ensures range { IsNumber 64 result }
    {
        self.actors
    }

    /// Returns item `k` of an actor in the order of the file, counted from 0.
    pub fn item(&self, actor: u32, k: usize) -> Option<Item<P>>
        requires { IsNumber self.now.actors actor }
        ensures item { result ≡ item_of self.now.rows actor k }
        ensures within { IfSome result (IsItem self.now.words) }
        ensures next { IsSome result → k + 1 < 2 ^ 64 }
    {
        find_item(&self.rows, actor, k)
    }

    /// Returns the vertices that have a word at the start, with that word.
    pub(crate) fn named(&self) -> &[(u32, Word<P>)]
        ensures named { result.now ≡ self.now.named }
        ensures vertices { All (λ x. IsNumber self.now.words x.0) result.now }
    {
        &self.named
    }

    /// Returns the items of each actor, in order.
    pub(crate) fn rows(&self) -> &[Vec<Item<P>>]
        ensures rows { map (λ row. row.items) result.now ≡ self.now.rows }
        ensures programme { IsProgramme self.now }
    {
        &self.rows
    }
}

fn find_item<const P: u32>(rows: &[Vec<Item<P>>], actor: u32, k: usize) -> Option<Item<P>>
    requires { 1 ≤ actor }
    ensures item { result ≡ item_of (map (λ row. row.items) rows.now) actor k }
    ensures next { IsSome result → k + 1 < 2 ^ 64 }
{
    let row = rows.get((actor - 1) as usize)?;
    row.get(k).copied()
}
