//! A team as an engine.
ghost use Rattle.std.specs.Prelude.{ℕ, ◌≡◌, ◌≤◌, true, IfOk, IfErr};
ghost use Rattle.sp_word.specs.Word.{is_layout, max_pred};
ghost use Rattle.sp_answer.specs.Run.{IsAsked, AreRunWords, IsRunRefusal};
ghost use denote.Param.Send.{IsSync};

use crate::run_words::words_of_run;
use crate::source::useful_team;
use sp_answer::{Engine, RunError, RunRequest, RunWords};
use sp_graph::Graph;
use sp_word::{Alone, Meter, Team, ThreadsAndSleep, Workers};
use std::alloc::Global;
use std::marker::Sync;
use std::sync::Wait;
use std::thread::Threads;

/// A handle that makes runs, as `words_of_run` does: [`Alone`], whose thread waits for no other, or a reference to a runtime
/// whose threads may wait for one another.
pub trait RunsTeams<const P: u32>: ThreadsAndSleep {
    /// Several threads at once may use what the handle is made of, as they may a runtime that is `Sync`.
    ghost is_shared: { Type 0 };

    /// Runs from the sources, as far as is asked, by exactly as many threads as the team has workers.
    fn run(
        &self,
        alloc: Global,
        graph: &Graph,
        team: &Team<P>,
        meter: &Meter,
        run: RunRequest,
    ) -> Result<RunWords<P>, RunError>
        requires shared { is_shared }
        requires layout { is_layout P ≡ true }
        requires n { graph.now.n ≤ max_pred P }
        requires asked { IsAsked P graph.now.n run.until }
        ensures words { IfOk result (λ made. AreRunWords P graph.now
            run.entry.sources.now run.entry.until made.words.items made.far) }
        ensures refused { IfErr result (IsRunRefusal graph.now run.entry.sources.now) };
}

impl<const P: u32, R: Threads + Wait + Sync> RunsTeams<P> for &R {
    ghost is_shared = { IsSync R.row };

    fn run(
        &self,
        alloc: Global,
        graph: &Graph,
        team: &Team<P>,
        meter: &Meter,
        run: RunRequest,
    ) -> Result<RunWords<P>, RunError> {
        words_of_run(*self, alloc, graph, *team, meter, run)
    }
}

impl<const P: u32, R: Threads + Sync> RunsTeams<P> for Alone<R> {
    ghost is_shared = { IsSync R.row };

    fn run(
        &self,
        alloc: Global,
        graph: &Graph,
        team: &Team<P>,
        meter: &Meter,
        run: RunRequest,
    ) -> Result<RunWords<P>, RunError> {
        words_of_run(self, alloc, graph, *team, meter, run)
    }
}

/// A team that answers runs, with its handle: no more of its workers run than there is work for in the graph, and they count on
/// the meter the vertices that they relax.
#[derive(Drop)]
pub struct ByTeam<'a, C, const P: u32> {
    /// The handle.
    pub rt: &'a C,
    /// The width of a bucket and the number of workers.
    pub team: Team<P>,
    /// The meter.
    pub meter: &'a Meter,
}

/// An engine that has workers.
pub trait TeamEngine<const P: u32>: Engine<P> {
    /// The number of workers.
    ghost worker_count: { Self → ℕ };

    /// Returns the number of workers.
    fn workers(&self) -> Workers
        ensures { result ≡ worker_count self.now };

    /// Returns the same engine with this number of workers.
    fn by(&self, workers: Workers) -> Self
        ensures count { worker_count result ≡ workers }
        ensures can_run { Self.can_run self.now → Self.can_run result };
}

impl<C: RunsTeams<P>, const P: u32> Engine<P> for ByTeam<'_, C, P> {
    ghost can_run = { λ _. C.is_shared };

    fn run(&self, alloc: Global, graph: &Graph, run: RunRequest) -> Result<RunWords<P>, RunError> {
        let team = useful_team(self.rt, graph.n(), &self.team);
        self.rt.run(alloc, graph, &team, self.meter, run)
    }
}

impl<C: RunsTeams<P>, const P: u32> TeamEngine<P> for ByTeam<'_, C, P> {
    ghost worker_count = { λ it. it.team.workers };

    fn workers(&self) -> Workers {
        self.team.workers
    }

    fn by(&self, workers: Workers) -> Self {
        ByTeam {
            rt: self.rt,
            team: Team {
                workers,
                ..self.team
            },
            meter: self.meter,
        }
    }
}
