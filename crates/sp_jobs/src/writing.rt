//! Writes answers in their order, and counts them.
ghost use Rattle.std.specs.Prelude.{◌≡◌};
ghost use Rattle.sp_jobs.specs.Steps.{AreFew, IsGroupWritten, Fits, none, sum_of};

use crate::answers::{BatchError, Summary};
use crate::question::Question;
use sp_device::Write;
use sp_word::Workers;
use std::alloc::Global;
use std::thread::Threads;

/// Returns the summary of no sources.
pub(crate) fn nothing() -> Summary
    ensures { result ≡ none }
{
    Summary {
        sources: 0,
        too_far: 0,
        bytes: 0,
    }
}

/// Returns the summary of some sources and the ones after them, from the summary of each.
pub(crate) fn sum(first: Summary, second: Summary) -> Summary
    requires { Fits first second }
    ensures { result ≡ sum_of first second }
{
    Summary {
        sources: first.sources + second.sources,
        too_far: first.too_far + second.too_far,
        bytes: first.bytes + second.bytes,
    }
}

/// Writes the answers for some sources in their order, each with this many workers, and counts them.
pub(crate) fn write_group<Q: Question, R: Threads + Sync, W: Write>(
    rt: &R,
    alloc: Global,
    question: &Q,
    workers: Workers,
    group: &[Q::Found],
    out: &mut W,
) -> Result<Summary, BatchError>
    requires { AreFew Q.told (Q.answers question.now) group.now }
    ensures { IsGroupWritten Q.told W.Write group.now out.old result out.new }
{
    let mut summary = nothing();
    for found in group {
        let one = question.write_by(rt, alloc, workers, found, out)?;
        summary = sum(summary, one);
    }
    Ok(summary)
}
