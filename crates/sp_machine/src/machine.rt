//! The machine: the words, and the progress of each actor.
ghost use Rattle.std.specs.Prelude.{◌≡◌, length, vec_len, true, replicate, All, IfOk};
ghost use Rattle.sp_word.specs.Word.{Unreached, is_layout};
ghost use Rattle.sp_paths.specs.Paths.{word_at};
ghost use Rattle.sp_machine.specs.Programme.{IsNumber, named_words};
ghost use Rattle.sp_machine.specs.Run.{opening_machine};
ghost use Rattle.sp_machine.specs.Step.{fresh_actor, vertex_at, next_vertex, words_after, machine_after};

use crate::actor::Actor;
use crate::effect::{Effect, Ended, effect_of};
use crate::programme::Programme;
use crate::turn::{At, Turn, place_of, turn_of};
use sp_word::Word;
use std::alloc::{AllocError, Global};
use std::marker::Model;

/// The words, and the progress of each actor through its items.
#[derive(Drop)]
pub struct Machine<'a, const P: u32> {
    programme: &'a Programme<P>,
    words: Vec<Word<P>>,
    actors: Vec<Actor<P>>,
    last: Effect<P>,
}

impl<'a, const P: u32> Model for Machine<'a, P> {
    ghost use Rattle.std.specs.Prelude.{◌≡◌, true};
    ghost use Rattle.sp_word.specs.Word.{is_layout};
    ghost use Rattle.sp_machine.specs.Step.{Machine as State};

    ghost Value = { State P };

    ghost use Rattle.sp_machine.specs.MachineView.{state_of, IsMachine};

    ghost view = { λ m. state_of m };

    ghost invariant = { λ m. IsMachine m.programme.now (state_of m) };
}

impl<const P: u32> Programme<P> {
    /// Makes the machine before its first step. It fails if there is no memory for the words and the actors.
    pub fn machine(&self, alloc: Global) -> Result<Machine<'_, P>, AllocError>
        ensures { IfOk result (λ machine. machine ≡ opening_machine self.now) }
    {
        let mut words = unreached_words(alloc, self.words())?;
        name_words(&mut words, self.named());
        let actors = fresh_actors(alloc, self.actors())?;
        Ok(Machine {
            programme: self,
            words,
            actors,
            last: Effect::none(),
        })
    }
}

fn unreached_words<const P: u32>(alloc: Global, count: u32) -> Result<Vec<Word<P>>, AllocError>
    requires { is_layout P ≡ true }
    ensures { IfOk result (λ words. words.items ≡ replicate count Unreached) }
{
    vec![in alloc; Word::unreached(); count as usize]
}

fn fresh_actors<const P: u32>(alloc: Global, count: u32) -> Result<Vec<Actor<P>>, AllocError>
    ensures { IfOk result (λ actors. actors.items ≡ replicate count fresh_actor) }
{
    vec![in alloc; Actor::fresh(); count as usize]
}

// Gives the named vertices their words.
fn name_words<const P: u32>(words: &mut Vec<Word<P>>, named: &[(u32, Word<P>)])
    requires { All (λ x. IsNumber (vec_len words.old) x.0) named.now }
    ensures words { words.new.items ≡ named_words words.old.items named.now }
    ensures length { length words.new.items ≡ length words.old.items }
{
    for (vertex, word) in named {
        words[(*vertex - 1) as usize] = *word;
    }
}

impl<'a, const P: u32> Machine<'a, P> {
    /// Returns the effect of the last step, or none before the first step.
    pub fn last(&self) -> Effect<P>
        ensures { result ≡ self.now.last }
    {
        self.last
    }

    /// Returns the call that the last step ended, if it ended one.
    pub fn ended(&self) -> Option<Ended<P>>
        ensures { result ≡ self.now.last.ended }
    {
        self.last.ended
    }

    /// Returns the words, that of vertex `v` at `v - 1`.
    pub fn words(&self) -> &[Word<P>]
        ensures { result.now ≡ self.now.words }
    {
        &self.words
    }

    /// Returns the words, and ends the machine.
    pub fn into_words(self) -> Vec<Word<P>>
        ensures { result.items ≡ self.entry.words }
    {
        self.words
    }

    /// Returns the vertex whose word the actor's next step looks at, or 0 if the actor has no further item.
    pub fn next_vertex(&self, actor: u32) -> u32
        requires { IsNumber (length self.now.actors) actor }
        ensures { result ≡ next_vertex self.now actor }
    {
        let index = (actor - 1) as usize;
        let state = self.actors[index];
        let item = self.programme.item(actor, state.next);
        let item = item.as_ref();
        place_of(item, state.loaded).vertex()
    }

    /// Makes one step of an actor, by the cases of a step. A step of an actor without a further item changes only
    /// `last`.
    pub fn step(&mut self, actor: u32)
        requires { IsNumber (length self.old.actors) actor }
        ensures { self.new ≡ machine_after self.old actor }
    {
        let index = (actor - 1) as usize;
        let state = self.actors[index];
        let item = self.programme.item(actor, state.next);
        let item = item.as_ref();
        let place = place_of(item, state.loaded);
        let found = word_found(&self.words, place.vertex());
        let turn = turn_of(&place, state.held, found);
        let last = effect_of(actor, item, &state, turn, found);
        self.actors[index] = state.after(turn, found);
        store_win(&mut self.words, &place, turn);
        self.last = last;
    }
}

fn word_found<const P: u32>(words: &[Word<P>], vertex: u32) -> Word<P>
    requires { is_layout P ≡ true }
    ensures { result ≡ word_at words.now vertex }
{
    match words.get(vertex.saturating_sub(1) as usize) {
        Some(word) => *word,
        None => Word::unreached(),
    }
}

// Stores the offer of a win.
fn store_win<const P: u32>(words: &mut Vec<Word<P>>, place: &At<P>, turn: Turn)
    requires { turn ≡ Turn.Wins → IsNumber (vec_len words.old) (vertex_at place.now) }
    ensures { words.new.items ≡ words_after words.old.items place.now turn }
{
    match *place {
        At::Offering { vertex, word } if turn == Turn::Wins => {
            words[(vertex - 1) as usize] = word;
        }
        _ => {}
    }
}
