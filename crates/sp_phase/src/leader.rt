//! The leader of a run.
ghost use Rattle.std.specs.Prelude.{◌≡◌, ◌≤◌, IfOk, IfSome};
ghost use Rattle.sp_paths.specs.Paths.{IsVertex};
ghost use Rattle.sp_offer.specs.Story.{known_table};
ghost use Rattle.sp_rounds.specs.Content.{IsLowest};
ghost use Rattle.sp_phase.specs.Stage.{IsStage};
ghost use Rattle.sp_phase.specs.Lead.{lead_without_memory, Reads};

use crate::marks::LeaderMarks;
use crate::store::Store;
use sp_offer::Caller;
use sp_rounds::{Buckets, Claimer, Entry};
use sp_word::{Word, Workers};
use std::alloc::{AllocError, Global};
use std::marker::Model;

/// Upper bound on the rounds of a run, and on its buckets; never reached in practice. A run that took more would fail as if
/// memory had been refused.
pub(crate) const MOST_ROUNDS: u64 = 1 << 60;

/// The leader of a run over a store. It makes tasks, lets workers run them round after round, and looks at copies of
/// all words.
///
/// Contracts see the store's stage, the caller, what is recorded about the vertices, the queued entries, and the copy.
#[derive(Drop)]
pub(crate) struct Leader<'a, 'g, const P: u32> {
    pub(crate) alloc: Global,
    pub(crate) store: &'a Store<'g, P>,
    /// The greatest number of workers of a round.
    pub(crate) workers: Workers,
    pub(crate) caller: Caller,
    pub(crate) claimer: Claimer,
    pub(crate) marks: LeaderMarks,
    pub(crate) buckets: Buckets,
    /// Room for a copy of all words.
    pub(crate) words: Vec<Word<P>>,
    /// How many buckets have come back.
    pub(crate) came_back: u64,
}

impl<'a, 'g, const P: u32> Model for Leader<'a, 'g, P> {
    ghost use Rattle.sp_phase.specs.Lead.{Lead, lead_of};

    ghost Value = { Lead };

    ghost use Rattle.std.specs.Prelude.{◌≡◌};
    ghost use Rattle.sp_phase.specs.Running.{Leads};

    ghost view = { λ l. lead_of l.store.now l.caller l.marks l.buckets l.words.items };

    ghost invariant = { λ l. (l.claimer.table ≡ l.store.now.claims)
        × Leads P l.store.now (lead_of l.store.now l.caller l.marks l.buckets l.words.items) };
}

impl<'a, 'g, const P: u32> Leader<'a, 'g, P> {
    /// Makes the leader of a new run, without other workers: the source has its pair, and is queued.
    pub(crate) fn new(
        alloc: Global,
        store: &'a Store<'g, P>,
        mut caller: Caller,
        claimer: Claimer,
    ) -> Result<Leader<'a, 'g, P>, AllocError>
        requires caller { caller.table ≡ store.now.table }
        requires claimer { claimer.table ≡ store.now.claims }
        ensures stage { IfOk result (λ leader. leader.stage ≡ store.entry.now) }
        ensures range { IfOk result (λ leader. IsStage P leader.stage) }
    {
        let n = store.n();
        let mut buckets = Buckets::with_longest(
            alloc,
            store.delta().get(),
            u64::from(store.graph().longest()),
        )?;
        buckets.put(Entry {
            vertex: store.source(),
            dist: 0,
        })?;
        let marks = LeaderMarks::new(alloc, n)?;
        let words = vec![in alloc; Word::unreached(); n as usize]?;
        store.open(&mut caller);
        Ok(Leader {
            alloc,
            store,
            workers: Workers::one(),
            caller,
            claimer,
            marks,
            buckets,
            words,
            came_back: 0,
        })
    }

    /// Returns the same leader with this number of workers.
    pub(crate) fn with_workers(self, workers: Workers) -> Leader<'a, 'g, P>
        ensures { result ≡ self.entry }
    {
        Leader { workers, ..self }
    }

    /// Returns the lowest bucket with an entry.
    pub(crate) fn lowest(&self) -> Option<u64>
        ensures { IfSome result (IsLowest self.now.buckets) }
    {
        self.buckets.lowest()
    }

    /// Reads the word of a vertex.
    pub(crate) fn read(&mut self, vertex: u32) -> Word<P>
        requires { IsVertex self.old.stage.graph.n vertex }
        ensures reads { Reads P self.old self.new }
        ensures word { known_table self.new.caller.story vertex ≡ result }
    {
        self.store.read(&mut self.caller, vertex)
    }

    /// Begins the next round.
    pub(crate) fn begin_round(&mut self)
        ensures { self.new ≡ self.old }
    {
        self.marks.begin_round();
    }

    /// Counts a bucket that has come back.
    pub(crate) fn count_came_back(&mut self)
        ensures { self.new ≡ self.old }
    {
        self.came_back = self.came_back.saturating_add(1);
    }

    /// Returns the vertices that are remembered.
    pub(crate) fn recall(&mut self) -> Vec<u32>
        ensures vertices { result.items ≡ self.old.marks.remembered }
        ensures marks { self.new ≡ lead_without_memory self.old }
    {
        self.marks.recall(self.alloc)
    }
}
