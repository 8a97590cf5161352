//! The log of a run's steps so far.
ghost use Rattle.std.specs.Prelude.{◌≡◌, ◌+◌, ◌^◌, ◌<◌, ◌≤◌, IfOk, OnOk, vec_len, replicate, None};
ghost use Rattle.std.specs.Option.{option_copied};
ghost use Rattle.sp_machine.specs.Programme.{IsNumber};
ghost use Rattle.sp_machine.specs.Run.{with_call, with_relaxation, win, loss};

use crate::effect::{Effect, Ended, ExchangeOutcome, Relaxation};
use crate::report::Finished;
use std::alloc::{AllocError, Global};

/// What is known about the steps so far.
#[derive(Drop)]
pub(crate) struct Log<const P: u32> {
    /// The number of steps.
    pub steps: u64,
    /// For each actor, the first step that it made since its last call ended.
    pub begun: Vec<Option<u64>>,
    /// The calls that ended.
    pub calls: Vec<Finished<P>>,
    /// The relaxations that were finished.
    pub relaxed: Vec<Relaxation>,
    /// The number of exchanges that were won.
    pub wins: u64,
    /// The number of exchanges that were lost.
    pub losses: u64,
    ghost counted: { wins + losses ≤ steps },
}

impl<const P: u32> Log<P> {
    ghost use Rattle.sp_machine.specs.LogView.{log_of};
    ghost use Rattle.sp_machine.specs.Run.{empty_log, log_after};

    /// Makes the log before the first step.
    pub(crate) fn new(alloc: Global, actors: u32) -> Result<Log<P>, AllocError>
        ensures { IfOk result (λ log. log_of log ≡ empty_log actors) }
    {
        Ok(Log {
            steps: 0,
            begun: none_begun(alloc, actors)?,
            calls: Vec::new(alloc),
            relaxed: Vec::new(alloc),
            wins: 0,
            losses: 0,
        })
    }

    /// Records the next step, which the actor made and which had this effect.
    pub(crate) fn take(&mut self, actor: u32, effect: &Effect<P>) -> Result<(), AllocError>
        requires actor { IsNumber (vec_len self.old.begun) actor }
        requires steps { self.old.steps + 1 < 2 ^ 64 }
        ensures { OnOk result (log_of self.new ≡ log_after (log_of self.old) actor effect.now) }
    {
        let place = (actor - 1) as usize;
        let step = self.steps + 1;
        let first = self.begun[place].unwrap_or(step);
        push_relaxation(&mut self.relaxed, effect.relaxed)?;
        push_call(&mut self.calls, effect.ended.as_ref(), first, step)?;
        self.begun[place] = if effect.ended.is_some() {
            None
        } else {
            Some(first)
        };
        self.wins += wins_of(effect.exchange);
        self.losses += losses_of(effect.exchange);
        self.steps = step;
        Ok(())
    }
}

fn none_begun(alloc: Global, actors: u32) -> Result<Vec<Option<u64>>, AllocError>
    ensures { IfOk result (λ begun. begun.items ≡ replicate actors None) }
{
    vec![in alloc; None; actors as usize]
}

fn push_relaxation(
    relaxed: &mut Vec<Relaxation>,
    finished: Option<Relaxation>,
) -> Result<(), AllocError>
    ensures { OnOk result (relaxed.new.items ≡ with_relaxation relaxed.old.items finished) }
{
    if let Some(relaxation) = finished {
        relaxed.push(relaxation)?;
    }
    Ok(())
}

fn push_call<const P: u32>(
    calls: &mut Vec<Finished<P>>,
    ended: Option<&Ended<P>>,
    first: u64,
    last: u64,
) -> Result<(), AllocError>
    ensures { OnOk result (calls.new.items
        ≡ with_call calls.old.items (option_copied ended.entry) first last) }
{
    if let Some(ended) = ended {
        calls.push(Finished {
            ended: *ended,
            first,
            last,
        })?;
    }
    Ok(())
}

fn wins_of(exchange: Option<ExchangeOutcome>) -> u64
    ensures { result ≡ win exchange }
{
    match exchange {
        Some(ExchangeOutcome::Won) => 1,
        _ => 0,
    }
}

fn losses_of(exchange: Option<ExchangeOutcome>) -> u64
    ensures { result ≡ loss exchange }
{
    match exchange {
        Some(ExchangeOutcome::Lost) => 1,
        _ => 0,
    }
}
