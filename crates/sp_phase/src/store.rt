//! What a run works on: rows, the table of words, and the table of claims.
ghost use Rattle.std.specs.Prelude.{◌≡◌, ◌<◌, ◌≤◌, [], true, length, vec_len, All, IfOk, IfErr};
ghost use Rattle.sp_word.specs.Word.{Pair, is_layout, max_pred};
ghost use Rattle.sp_paths.specs.Paths.{IsVertex, IsArc};
ghost use Rattle.sp_offer.specs.Story.{empty_story, known_table, IsCopy};
ghost use Rattle.sp_phase.specs.Stage.{IsUnstored, IsStage, IsOf, Learns, law_of};
ghost use Rattle.sp_phase.specs.Rounds.{IsDue, IsRoundOf};

use sp_answer::RunError;
use sp_graph::{Graph, Rows};
use sp_offer::{Caller, OfferTable};
use sp_paths::Arc;
use sp_rounds::{
    ClaimTable, Claimer, Gate, Round, RoundOut, Task, Walks, run_round, walks_allow_arcs,
};
use sp_word::{Delta, Word, Workers};
use std::alloc::{AllocError, Global};
use std::marker::Model;
use std::thread::Threads;

/// What a round needs: its number, by which tasks are claimed, its workers, and the caller and the claimer of its leader.
#[derive(Drop)]
pub struct RoundTeam {
    pub alloc: Global,
    pub number: u64,
    pub workers: Workers,
    pub caller: Caller,
    pub claimer: Claimer,
}

/// The tables of a run from one source of a graph: its rows, split at `delta`, and a word and a claim for each vertex.
/// Callers of its table may read and offer while a run continues.
///
/// Contracts see the graph, the source, `delta`, which tables these are, and the number of tasks from which a round is
/// shared.
#[derive(Drop)]
pub struct Store<'g, const P: u32> {
    graph: &'g Graph,
    delta: Delta<P>,
    source: u32,
    rows: Rows,
    table: OfferTable<Walks<'g>, P>,
    claims: ClaimTable,
    shared_from: usize,
}

impl<'g, const P: u32> Model for Store<'g, P> {
    ghost use Rattle.sp_phase.specs.Stage.{Stage, IsStage, AreOfStage};

    ghost Value = { Stage };

    ghost view = { λ s. record {
      graph = s.graph.now;
      source = s.source;
      delta = s.delta;
      table = s.table.id;
      claims = s.claims;
      shared_from = s.shared_from;
    } };

    ghost invariant = { λ s. let st : Stage = record {
      graph = s.graph.now;
      source = s.source;
      delta = s.delta;
      table = s.table.id;
      claims = s.claims;
      shared_from = s.shared_from;
    }
        in IsStage P st
        × AreOfStage st s.rows s.table.law s.table.vertices s.claims.words };
}

impl<'g, const P: u32> Store<'g, P> {
    /// Makes the tables for a run from `source`, with their first caller and their first claimer. Every round is
    /// shared.
    pub fn new(
        alloc: Global,
        graph: &'g Graph,
        delta: Delta<P>,
        source: u32,
    ) -> Result<(Store<'g, P>, Caller, Claimer), RunError>
        requires layout { is_layout P ≡ true }
        requires n { graph.now.n ≤ max_pred P }
        ensures store { IfOk result (λ made. IsOf graph.entry.now delta.entry source made.0) }
        ensures range { IfOk result (λ made. IsStage P made.0) }
        ensures shared_from { IfOk result (λ made. made.0.shared_from ≡ 0) }
        ensures caller { IfOk result
            (λ made. (made.1.table ≡ made.0.table) × (made.1.story ≡ empty_story)) }
        ensures claimer { IfOk result
            (λ made. (made.2.table ≡ made.0.claims) × (made.2.grants ≡ [])) }
        ensures refused { IfErr result (IsUnstored graph.entry.now source) }
    {
        if !graph.has_vertex(source) {
            return Err(RunError::NoSuchVertex);
        }
        Store::make(alloc, graph, delta, source).map_err(|_| RunError::Memory)
    }

    // Makes the tables for a source that is a vertex.
    fn make(
        alloc: Global,
        graph: &'g Graph,
        delta: Delta<P>,
        source: u32,
    ) -> Result<(Store<'g, P>, Caller, Claimer), AllocError>
        requires layout { is_layout P ≡ true }
        requires n { graph.now.n ≤ max_pred P }
        requires source { IsVertex graph.now.n source }
        ensures store { IfOk result (λ made. IsOf graph.entry.now delta.entry source made.0) }
        ensures range { IfOk result (λ made. IsStage P made.0) }
        ensures shared_from { IfOk result (λ made. made.0.shared_from ≡ 0) }
        ensures caller { IfOk result
            (λ made. (made.1.table ≡ made.0.table) × (made.1.story ≡ empty_story)) }
        ensures claimer { IfOk result
            (λ made. (made.2.table ≡ made.0.claims) × (made.2.grants ≡ [])) }
    {
        let n = graph.n();
        let rows = Rows::split(alloc, graph, delta.get())?;
        let (table, caller) = OfferTable::new(alloc, n, Walks::new(graph, source))?;
        let (claims, claimer) = ClaimTable::new(alloc, n)?;
        let store = Store {
            graph,
            delta,
            source,
            rows,
            table,
            claims,
            shared_from: 0,
        };
        Ok((store, caller, claimer))
    }

    /// Returns the same tables, except that the leader alone runs a round of fewer than `tasks` tasks: for a short round,
    /// starting threads takes longer than the round.
    pub fn sharing_from(self, tasks: usize) -> Store<'g, P>
        ensures { result ≡ record self.entry { shared_from = tasks } }
    {
        Store {
            shared_from: tasks,
            ..self
        }
    }

    /// Returns the number of vertices.
    pub fn n(&self) -> u32
        ensures n { result ≡ self.now.graph.n }
        ensures stage { IsStage P self.now }
    {
        self.graph.n()
    }

    /// Returns the source.
    pub fn source(&self) -> u32
        ensures { result ≡ self.now.source }
    {
        self.source
    }

    /// Returns the width of a bucket.
    pub fn delta(&self) -> Delta<P>
        ensures { result ≡ self.now.delta }
    {
        self.delta
    }

    /// Returns the graph.
    pub fn graph(&self) -> &'g Graph
        ensures { result.now ≡ self.now.graph }
    {
        self.graph
    }

    /// Returns all arcs.
    pub fn arcs(&self) -> &[Arc]
        ensures arcs { result.now ≡ self.now.graph.arcs }
        ensures fine { All (IsArc self.now.graph.n) result.now }
    {
        self.graph.arcs()
    }

    /// Returns the table. Callers that were split from the first one may read it and offer it lawful pairs.
    pub fn table(&self) -> &OfferTable<Walks<'g>, P>
        ensures table { result.now.id ≡ self.now.table }
        ensures vertices { result.now.vertices ≡ self.now.graph.n }
        ensures law { result.now.law ≡ record { graph = self.now.graph; source = self.now.source } }
    {
        &self.table
    }

    /// Reads the word of a vertex.
    pub fn read(&self, caller: &mut Caller, vertex: u32) -> Word<P>
        requires vertex { IsVertex self.now.graph.n vertex }
        requires caller { caller.old.table ≡ self.now.table }
        ensures caller { Learns P self.now caller.old caller.new }
        ensures word { known_table caller.new.story vertex ≡ result }
    {
        self.table.read(caller, vertex)
    }

    /// Offers the source its pair.
    pub fn open(&self, caller: &mut Caller)
        requires { caller.old.table ≡ self.now.table }
        ensures caller { Learns P self.now caller.old caller.new }
        ensures source { known_table caller.new.story self.now.source ≡ Pair 0 0 }
    {
        let source = self.source;
        self.table.offer(caller, source, Word::pack(0, 0));
    }

    /// Copies all words.
    pub fn copy_words(&self, caller: &mut Caller, words: &mut Vec<Word<P>>)
        requires caller { caller.old.table ≡ self.now.table }
        requires room { vec_len words.old ≡ self.now.graph.n }
        ensures caller { Learns P self.now caller.old caller.new }
        ensures length { vec_len words.new ≡ vec_len words.old }
        ensures copy { IsCopy
            (law_of P self.now) words.new.items caller.old.story caller.new.story }
    {
        self.table.copy_words(caller, words);
    }

    // Returns how many of the workers share a round of `tasks` tasks.
    fn workers_for(&self, tasks: usize, workers: Workers) -> Workers
        ensures { tasks < self.now.shared_from → result ≡ 1 }
    {
        if tasks < self.shared_from {
            Workers::one()
        } else {
            workers
        }
    }

    /// Runs a round of tasks. The leader runs a short round alone. If the round fails, the team is spent.
    pub fn relax_tasks<R: Threads + Sync, G: Gate + Sync>(
        &self,
        rt: &R,
        gate: &G,
        tasks: &[Task],
        team: RoundTeam,
    ) -> Result<RoundOut, AllocError>
        requires caller { team.caller.table ≡ self.now.table }
        requires claimer { team.claimer.table ≡ self.now.claims }
        requires tasks { All (IsDue P self.now) tasks.now }
        ensures done { IfOk result (λ out.
            IsRoundOf P self.now tasks.now team.caller out.caller out.found.items) }
        ensures claimer { IfOk result (λ o. o.claimer.table ≡ team.claimer.table) }
        ensures alone { IfOk result (λ o. length tasks.now < self.now.shared_from → o.started ≡ 1) }
    {
        walks_allow_arcs();
        let round = Round {
            table: &self.table,
            claims: &self.claims,
            rows: &self.rows,
            tasks,
            number: team.number,
            workers: self.workers_for(tasks.len(), team.workers),
        };
        match run_round(rt, team.alloc, &round, team.caller, team.claimer, gate) {
            Ok(out) => Ok(out),
            Err(_) => Err(AllocError),
        }
    }
}
