//! A run by a team, from one source or several.
//!
//! The team lowers the words in any order. The result of the run depends only on a copy of the words.
ghost use Rattle.std.specs.Prelude.{◌≡◌, ◌≤◌, true, All, IfOk};
ghost use Rattle.sp_word.specs.Word.{is_layout, max_dist, max_pred};
ghost use Rattle.sp_paths.specs.Paths.{IsVertex, word_at};
ghost use Rattle.sp_judge.specs.Marked.{AreTrueMarks};
ghost use Rattle.sp_run.specs.RunFromAny.{TakesWalks, KnowsOwn, IsOfWalks};

use crate::walks_from_any::WalksFromAny;
use sp_graph::Graph;
use sp_offer::{Caller, OfferTable};
use sp_team::{Relaxed, Search, relax_all};
use sp_word::{Meter, Team, ThreadsAndSleep, Word};
use std::alloc::{AllocError, Global};
use std::marker::Model;

/// A run from sources of a graph, by a team. Contracts see the graph and the sources.
#[derive(Drop)]
pub(crate) struct RunFromAny<'g, const P: u32> {
    pub(crate) alloc: Global,
    pub(crate) graph: &'g Graph,
    pub(crate) sources: &'g [u32],
    pub(crate) team: Team<P>,
    // where the team counts the vertices that it relaxes
    pub(crate) meter: &'g Meter,
}

impl<'g, const P: u32> Model for RunFromAny<'g, P> {
    ghost use Rattle.sp_run.specs.Sources.{WalkSources};
    ghost use Rattle.sp_run.specs.RunFromAny.{IsPlace};

    ghost Value = { WalkSources };

    ghost view = { λ r. record { graph = r.graph.now; sources = r.sources.now } };

    ghost invariant = { λ r. IsPlace P
        (record { graph = r.graph.now; sources = r.sources.now }) };
}

// Offers each of the sources its own pair.
fn offer_sources<'g, const P: u32>(
    table: &OfferTable<WalksFromAny<'g>, P>,
    sources: &[u32],
    caller: &mut Caller,
)
    requires layout { is_layout P ≡ true }
    requires law { table.now.law.sources ≡ sources.now }
    requires vertices { All (IsVertex table.now.vertices) sources.now }
    requires caller { caller.old.table ≡ table.now.id }
    ensures caller { caller.new.table ≡ caller.old.table }
    ensures own { KnowsOwn sources.entry.now caller.new }
{
    for source in sources {
        table.offer(caller, *source, Word::pack(0, 0));
    }
}

impl<'g, const P: u32> RunFromAny<'g, P> {
    /// Makes a run from vertices of the graph.
    pub(crate) fn new(
        alloc: Global,
        graph: &'g Graph,
        sources: &'g [u32],
        team: Team<P>,
        meter: &'g Meter,
    ) -> RunFromAny<'g, P>
        requires layout { is_layout P ≡ true }
        requires most { graph.now.n ≤ max_pred P }
        requires vertices { All (IsVertex graph.now.n) sources.now }
        ensures graph { result.graph ≡ graph.entry.now }
        ensures sources { result.sources ≡ sources.entry.now }
    {
        let _ = graph.n();
        RunFromAny {
            alloc,
            graph,
            sources,
            team,
            meter,
        }
    }

    /// Makes the table of the run, in which each source has its pair.
    pub(crate) fn open(&self) -> Result<(OfferTable<WalksFromAny<'g>, P>, Caller), AllocError>
        ensures table { IfOk result (λ made. TakesWalks self.now made.0.law made.0.vertices) }
        ensures caller { IfOk result (λ made. made.1.table ≡ made.0.id) }
        ensures own { IfOk result (λ made. KnowsOwn self.now.sources made.1) }
    {
        let walks = WalksFromAny::new(self.graph, self.sources);
        let (table, mut caller) = OfferTable::new(self.alloc, self.graph.n(), walks)?;
        offer_sources(&table, self.sources, &mut caller);
        Ok((table, caller))
    }

    /// Lets the team relax the arcs that the queue asks for, as far as the targets and the limit require. Returns a copy of all
    /// words, in which the marks are true.
    pub(crate) fn lower<C: ThreadsAndSleep>(
        &self,
        rt: &C,
        table: &OfferTable<WalksFromAny<'g>, P>,
        search: &Search<P>,
        caller: Caller,
    ) -> Result<(Vec<Word<P>>, Relaxed), AllocError>
        requires table { TakesWalks self.now table.now.law table.now.vertices }
        requires caller { caller.table ≡ table.now.id }
        requires own { KnowsOwn self.now.sources caller }
        ensures copy { IfOk result (λ made. IsOfWalks P self.now made.0.items) }
        ensures caller { IfOk result (λ made. made.1.caller.table ≡ table.entry.now.id) }
        ensures own { IfOk result (λ made. KnowsOwn self.now.sources made.1.caller) }
        ensures marks { IfOk result (λ made. AreTrueMarks (max_dist P) self.now.graph
            (word_at made.0.items) made.1.marks.items) }
    {
        let Relaxed {
            mut caller,
            lost,
            marks,
        } = relax_all(rt, self.alloc, self.graph, table, search, caller);
        let words = table.list_words(self.alloc, &mut caller)?;
        let done = Relaxed {
            caller,
            lost,
            marks,
        };
        Ok((words, done))
    }
}
