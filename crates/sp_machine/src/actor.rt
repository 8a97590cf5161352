//! The progress of an actor.
ghost use Rattle.std.specs.Prelude.{◌≡◌, ◌+◌, ◌<◌, ◌^◌, true};
ghost use Rattle.sp_machine.specs.Step.{ends_item, fresh_actor, actor_after};

use crate::turn::Turn;
use sp_word::Word;

/// The progress of an actor through its items.
#[derive(Clone, Copy, Debug, PartialEq, Eq)]
pub struct Actor<const P: u32> {
    /// The item at which the actor is, counted from 0.
    pub next: usize,
    /// Within a relaxation whose tail was read, the distance found.
    pub loaded: Option<u64>,
    /// The word that the actor saw at its offer and holds.
    pub held: Option<Word<P>>,
}

impl<const P: u32> Actor<P> {
    /// Returns an actor before the load of its first item.
    pub(crate) fn fresh() -> Actor<P>
        ensures { result ≡ fresh_actor }
    {
        Actor {
            next: 0,
            loaded: None,
            held: None,
        }
    }

    /// Returns the actor after a step that found this word.
    pub(crate) fn after(self, turn: Turn, found: Word<P>) -> Actor<P>
        requires { ends_item turn ≡ true → self.next + 1 < 2 ^ 64 }
        ensures { result ≡ actor_after self.entry turn found.entry }
    {
        match turn {
            Turn::Rests => self,
            Turn::Holds | Turn::LosesAndHolds => Actor {
                held: Some(found),
                ..self
            },
            Turn::GoesOn => Actor {
                next: self.next,
                loaded: found.dist(),
                held: None,
            },
            Turn::Keeps | Turn::Wins | Turn::LosesAndKeeps | Turn::EndsRead | Turn::EndsLoad =>
                Actor {
                    next: self.next + 1,
                    loaded: None,
                    held: None,
                },
        }
    }
}
