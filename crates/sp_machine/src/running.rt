//! Runs a programme with given steps.
ghost use Rattle.std.specs.Prelude.{All, IfOk};
ghost use Rattle.sp_machine.specs.Programme.{IsNumber};
ghost use Rattle.sp_machine.specs.ReportOf.{IsReportOf, IsOfLinearRun, IsTreeIfClosed, HasFewLosses};

use crate::closing::{is_closed, set_of};
use crate::log::Log;
use crate::programme::Programme;
use crate::report::Report;
use std::alloc::{AllocError, Global};

/// Runs the programme, with one step of each of these actors in turn, and reports what it did.
///
/// Every run is linear, and with K actors it loses at most K - 1 exchanges for each that it wins. A closed run of
/// relaxations and reads ends in the shortest-path tree from the vertex at which it opens. The call fails only if an
/// allocation fails.
pub fn replay<const P: u32>(
    alloc: Global,
    programme: &Programme<P>,
    schedule: &[u32],
) -> Result<Report<P>, AllocError>
    requires { All (IsNumber programme.now.actors) schedule.now }
    ensures report { IfOk result (IsReportOf programme.now schedule.now) }
    ensures linear { IfOk result (IsOfLinearRun programme.now) }
    ensures tree { IfOk result (IsTreeIfClosed programme.now) }
    ensures losses { IfOk result (HasFewLosses programme.now) }
{
    let mut machine = programme.machine(alloc)?;
    let mut log = Log::new(alloc, programme.actors())?;
    for actor in schedule {
        machine.step(*actor);
        log.take(*actor, &machine.last())?;
    }
    let done = set_of(alloc, &log.relaxed)?;
    let closed = is_closed(programme.rows(), machine.words(), &done);
    Ok(Report {
        calls: log.calls,
        words: machine.into_words(),
        wins: log.wins,
        losses: log.losses,
        closed,
    })
}
