//! The contents of a picture of a run.
ghost use Rattle.std.specs.Prelude.{◌≡◌, ◌<◌, ◌↔◌, length, map, All, IfOk, IsErrOf};
ghost use Rattle.sp_machine.specs.Programme.{IsNumber};
ghost use Rattle.sp_machine.specs.Run.{opening_machine, run_of};
ghost use Rattle.sp_picture.specs.declared.faults.NoPicture.TheVariants.{TooManySteps};
ghost use Rattle.sp_picture.specs.Marks.{marks_from};
ghost use Rattle.sp_picture.specs.Ties.{IsTie, lost_from};

use crate::faults::NoPicture;
use crate::marks::{StepMark, marks_of};
use crate::ties::{Tie, ties_of};
use sp_machine::{Finished, Programme, replay};
use std::alloc::Global;

/// The greatest number of steps that a picture shows.
pub const MOST_STEPS: usize = 60;

/// The contents of a picture of a run.
#[derive(Drop)]
pub struct Drawing<const P: u32> {
    /// A bar for each finished call, by rising last step.
    pub bars: Vec<Finished<P>>,
    /// A mark for each step.
    pub marks: Vec<StepMark<P>>,
    /// A tie for each lost exchange, in the order of steps.
    pub ties: Vec<Tie>,
}

/// Draws the programme's run, with one step of each of these actors in turn.
pub fn draw_run<const P: u32>(
    alloc: Global,
    programme: &Programme<P>,
    steps: &[u32],
) -> Result<Drawing<P>, NoPicture>
    requires { All (IsNumber programme.now.actors) steps.now }
    ensures bars { IfOk result
        (λ drawing. drawing.bars.items ≡ (run_of programme.now steps.now).log.calls) }
    ensures marks { IfOk result (λ drawing. drawing.marks.items
        ≡ marks_from (opening_machine programme.now) steps.now) }
    ensures lost { IfOk result (λ drawing. map (λ tie. tie.lost) drawing.ties.items
        ≡ lost_from 0 drawing.marks.items) }
    ensures tied { IfOk result
        (λ drawing. All (IsTie drawing.marks.items) drawing.ties.items) }
    ensures many { IsErrOf result TooManySteps ↔ (MOST_STEPS < length steps.now) }
{
    if MOST_STEPS < steps.len() {
        return Err(NoPicture::TooManySteps);
    }
    let report = replay(alloc, programme, steps)?;
    let marks = marks_of(alloc, programme, steps)?;
    let ties = ties_of(alloc, &marks)?;
    Ok(Drawing {
        bars: report.calls,
        marks,
        ties,
    })
}
