//! The load and the store to which a lost exchange is tied.
ghost use Rattle.std.specs.Prelude.{◌≡◌, ◌<◌, length, map, All, IfOk};
ghost use Rattle.sp_picture.specs.Marks.{IsStoreTo};
ghost use Rattle.sp_picture.specs.Ties.{IsLast, IsTie, lost_from};

use crate::marks::{Deed, StepMark};
use std::alloc::{AllocError, Global};

/// The load and the store to which a lost exchange is tied. All three are given by the indices of their steps, counted
/// from 0.
#[derive(Clone, Copy, Debug, PartialEq, Eq)]
pub struct Tie {
    /// The index of the lost exchange.
    pub lost: usize,
    /// The index of its actor's step before it, a load of the word that it expected.
    pub load: Option<usize>,
    /// The index of the last store to its word before it, which beat it.
    pub store: Option<usize>,
}

// Returns the last of these steps that the actor made.
fn last_step<const P: u32>(marks: &[StepMark<P>], actor: u32) -> Option<usize>
    ensures { IsLast (λ mark. mark.actor ≡ actor) marks.now result }
{
    let mut last = None;
    for (place, mark) in marks.iter().enumerate() {
        if mark.actor == actor {
            last = Some(place);
        }
    }
    last
}

// Returns the last of these steps that stored to the word of the vertex.
fn last_store<const P: u32>(marks: &[StepMark<P>], vertex: u32) -> Option<usize>
    ensures { IsLast (IsStoreTo vertex) marks.now result }
{
    let mut last = None;
    for (place, mark) in marks.iter().enumerate() {
        if mark.is_store_to(vertex) {
            last = Some(place);
        }
    }
    last
}

// Returns the tie of the exchange at this index.
fn tie_at<const P: u32>(marks: &[StepMark<P>], lost: usize) -> Tie
    requires { lost < length marks.now }
    ensures lost { result.lost ≡ lost }
    ensures tie { IsTie marks.now result }
{
    let mark = marks[lost];
    let before = &marks[..lost];
    Tie {
        lost,
        load: last_step(before, mark.actor),
        store: last_store(before, mark.vertex),
    }
}

// Returns the ties of the lost exchanges among these steps, in their order.
pub(crate) fn ties_of<const P: u32>(
    alloc: Global,
    marks: &[StepMark<P>],
) -> Result<Vec<Tie>, AllocError>
    ensures lost { IfOk result (λ ties. map (λ tie. tie.lost) ties.items ≡ lost_from 0 marks.now) }
    ensures each { IfOk result (λ ties. All (IsTie marks.now) ties.items) }
{
    let mut ties = Vec::new(alloc);
    for (place, mark) in marks.iter().enumerate() {
        if mark.deed() == Deed::Lost {
            ties.push(tie_at(marks, place))?;
        }
    }
    Ok(ties)
}
