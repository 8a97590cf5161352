//! The steps of a run, as a picture shows them.
ghost use Rattle.std.specs.Prelude.{◌≡◌, All, IfOk, IsTrue, is_some, ◌↔◌};
ghost use Rattle.sp_machine.specs.Programme.{IsNumber};
ghost use Rattle.sp_machine.specs.Run.{opening_machine};
ghost use Rattle.sp_picture.specs.Marks.{marks_from, offered_by};

use sp_machine::{Call, Effect, Ended, ExchangeOutcome, Programme};
use sp_word::Word;
use std::alloc::{AllocError, Global};

/// A step of a run.
#[derive(Clone, Copy, Debug, PartialEq, Eq)]
pub struct StepMark<const P: u32> {
    /// The actor that made the step.
    pub actor: u32,
    /// The vertex whose word it looked at, or 0 if the actor had no call left.
    pub vertex: u32,
    /// What it did.
    pub effect: Effect<P>,
}

/// The kind of a step.
#[derive(Clone, Copy, Debug, PartialEq, Eq)]
pub enum Deed {
    /// The actor had no call left.
    Rest,
    /// A load of a word.
    Load,
    /// An exchange that was won: its offer was stored.
    Won,
    /// An exchange that was lost.
    Lost,
}

impl<const P: u32> StepMark<P> {
    ghost use Rattle.sp_picture.specs.Marks.{deed_of, stored_by, IsStoreTo};

    /// Returns the kind of the step.
    pub fn deed(&self) -> Deed
        ensures { result ≡ deed_of self.now }
    {
        match self.effect.exchange {
            Some(ExchangeOutcome::Won) => Deed::Won,
            Some(ExchangeOutcome::Lost) => Deed::Lost,
            None if self.vertex == 0 => Deed::Rest,
            None => Deed::Load,
        }
    }

    /// Returns whether a call took effect at the step, and so ended with it.
    pub fn acts(&self) -> bool
        ensures { result ≡ is_some self.now.effect.ended }
    {
        self.effect.ended.is_some()
    }

    /// Returns whether the step stored to the word of the vertex.
    pub fn is_store_to(&self, vertex: u32) -> bool
        ensures { IsTrue result ↔ IsStoreTo vertex self.now }
    {
        self.vertex == vertex && self.deed() == Deed::Won
    }

    /// Returns the word that the step stored, if it won an exchange.
    pub fn stored(&self) -> Option<Word<P>>
        ensures { result ≡ stored_by self.now }
    {
        if self.deed() != Deed::Won {
            return None;
        }
        match &self.effect.ended {
            Some(ended) => offered(ended),
            None => None,
        }
    }
}

// Returns the word that the call offered, if it is an offer.
fn offered<const P: u32>(ended: &Ended<P>) -> Option<Word<P>>
    ensures { result ≡ offered_by ended.now.call }
{
    match ended.call {
        Call::Offer { word, .. } => Some(word),
        Call::Read { .. } => None,
    }
}

// Returns the steps of a run, with one step of each of these actors in turn.
pub(crate) fn marks_of<const P: u32>(
    alloc: Global,
    programme: &Programme<P>,
    steps: &[u32],
) -> Result<Vec<StepMark<P>>, AllocError>
    requires { All (IsNumber programme.now.actors) steps.now }
    ensures { IfOk result
        (λ marks. marks.items ≡ marks_from (opening_machine programme.now) steps.now) }
{
    let mut machine = programme.machine(alloc)?;
    let mut marks = Vec::new(alloc);
    for actor in steps {
        let actor = *actor;
        let vertex = machine.next_vertex(actor);
        machine.step(actor);
        marks.push(StepMark {
            actor,
            vertex,
            effect: machine.last(),
        })?;
    }
    Ok(marks)
}
