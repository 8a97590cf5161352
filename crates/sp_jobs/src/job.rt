//! A job: how it gets its graph from a file, and what each of its runs needs.
ghost use Rattle.std.specs.Prelude.{◌≡◌, ℕ, true, List, Some, IfOk, IfErr, MatchResult};
ghost use Rattle.std.specs.List.Sorted.{IsPermutation};
ghost use Rattle.sp_word.specs.Word.{is_layout};
ghost use Rattle.sp_paths.specs.Bags.{AreSame};
ghost use Rattle.sp_dimacs.specs.Graph.{IsNetworkUpTo, graph_of};
ghost use Rattle.sp_network.specs.Network.{directed, most_of};
ghost use Rattle.sp_jobs.specs.Listing.{HasLeft, IsNumbered, IsReadBy, MayRefuse, AreRefused, asked_in};
ghost use Rattle.sp_jobs.specs.Network.{IsGraphRefused, MayReadGraph, SpellsGraph};
ghost use Rattle.sp_jobs.specs.Width.{width_among};
ghost use Rattle.sp_jobs.specs.Answered.{AreRead, IsFileFault, IsGraphFault, IsListFault};

use crate::answers::BatchError;
use crate::listing::{Listed, Listing};
use crate::progress::{Listener, Progress};
use crate::settings::Settings;
use sp_device::Peeked;
use sp_dimacs::Read;
use sp_graph::Graph;
use sp_network::{Network, read_network};
use sp_run::{ByTeam, RunsTeams};
use sp_word::{Meter, ThreadsAndSleep};
use std::alloc::{AllocError, Global};
use std::marker::Sync;
use std::thread::Threads;

// From this many searches of all vertices on, a graph keeps its rows in places too. Making them takes less time than the second
// search saves.
const MANY: usize = 2;

impl<const P: u32, L: Listener> Settings<'_, P, L> {
    /// Reads the graph of a job from a file, with one thread per worker. Each job gets its graph by this call, and
    /// then, once it has tested its numbers, by `build`.
    pub fn read_graph<R: ThreadsAndSleep, G: Read>(
        &self,
        rt: &R,
        alloc: Global,
        gr: &mut Peeked<G>,
    ) -> Result<Network, BatchError>
        requires { is_layout P ≡ true }
        ensures exact { (text : List ℕ) → ⟦<Peeked<G> as Read>⟧.left gr.old ≡ Some text
            → MatchResult result
            (λ file. SpellsGraph P self.now.direction text
            (directed self.now.direction (graph_of file)))
            (IsGraphFault (IsGraphRefused P self.now.direction text
            ⟦<Peeked<G> as Read>⟧ gr.new)) }
        ensures found { IfOk result (λ file. (text : List ℕ)
            × SpellsGraph P self.now.direction text
            (directed self.now.direction (graph_of file))) }
        ensures network { IfOk result (IsNetworkUpTo P (most_of self.now.direction)) }
        ensures may_fail { IfErr result
            (IsGraphFault (MayReadGraph (⟦<Peeked<G> as Read>⟧.failing gr.old))) }
    {
        match read_network::<P, R, G>(rt, alloc, gr, self.workers, self.direction) {
            Ok(file) => Ok(file),
            Err(error) => Err(BatchError::Gr(error)),
        }
    }

    /// Reads the graph of a job, and then the list of its sources.
    pub fn read<'s, R: ThreadsAndSleep, G: Read, S: Read + Drop>(
        &self,
        rt: &R,
        alloc: Global,
        gr: &mut Peeked<G>,
        sources: Listing<'s, S>,
    ) -> Result<(Network, Listed<'s>), BatchError>
        requires layout { is_layout P ≡ true }
        requires sources { IsNumbered sources }
        ensures exact { (gr_text ss_text : List ℕ)
            → ⟦<Peeked<G> as Read>⟧.left gr.old ≡ Some gr_text
            → HasLeft S.Read sources.entry ss_text
            → MatchResult result
            (AreRead P self.now.direction gr_text (asked_in sources.entry ss_text))
            (IsFileFault (IsGraphRefused P self.now.direction gr_text
            ⟦<Peeked<G> as Read>⟧ gr.new)
            (IsListFault P self.now.direction gr_text
            (AreRefused P (asked_in sources.entry ss_text)))) }
        ensures found { IfOk result (λ files. (gr_text ss_text : List ℕ)
            × AreRead P self.now.direction gr_text (asked_in sources.entry ss_text) files) }
        ensures network { IfOk result
            (λ files. IsNetworkUpTo P (most_of self.now.direction) files.0) }
        ensures numbered { IfOk result (λ files. IsReadBy P files.1) }
        ensures may_fail { IfErr result
            (IsFileFault (MayReadGraph (⟦<Peeked<G> as Read>⟧.failing gr.old))
            (MayRefuse S.Read sources.entry)) }
    {
        let file = self.read_graph::<R, G>(rt, alloc, gr)?;
        match sources.read::<P>(alloc) {
            Ok(listed) => Ok((file, listed)),
            Err(error) => Err(BatchError::Ss(error)),
        }
    }

    /// Builds the graph of a file that was read, with its arcs in the requested direction and with one thread per
    /// worker, and reports it to the listener.
    pub fn build<R: Threads + Sync>(
        &self,
        rt: &R,
        alloc: Global,
        file: Network,
    ) -> Result<Graph, AllocError>
        requires { IsNetworkUpTo P (most_of self.now.direction) file }
        ensures n { IfOk result (λ graph. graph.n ≡ file.n) }
        ensures each { IfOk result (λ graph. IsPermutation
            (directed self.now.direction (graph_of file)).arcs graph.arcs) }
        ensures arcs { IfOk result
            (λ graph. AreSame graph (directed self.now.direction (graph_of file))) }
    {
        let made = self.direction.apply(rt, file, self.workers)?;
        let graph = made.build(rt, alloc, self.workers)?;
        self.listener.hear(Progress::Graph {
            vertices: graph.n(),
            arcs: graph.m(),
        });
        Ok(graph)
    }

    // Does the same for this many searches of all vertices.
    pub(crate) fn build_for<R: Threads + Sync>(
        &self,
        rt: &R,
        alloc: Global,
        file: Network,
        searches: usize,
    ) -> Result<Graph, AllocError>
        requires { IsNetworkUpTo P (most_of self.now.direction) file }
        ensures n { IfOk result (λ graph. graph.n ≡ file.n) }
        ensures each { IfOk result (λ graph. IsPermutation
            (directed self.now.direction (graph_of file)).arcs graph.arcs) }
        ensures arcs { IfOk result
            (λ graph. AreSame graph (directed self.now.direction (graph_of file))) }
    {
        let graph = self.build(rt, alloc, file)?;
        if searches < MANY {
            return Ok(graph);
        }
        Ok(graph.with_places(alloc))
    }

    /// Returns the job in a graph. Its runs count on the listener's meter, or on the other one if the listener has
    /// none.
    pub fn job<'a, C: RunsTeams<P>>(
        &'a self,
        rt: &'a C,
        graph: &'a Graph,
        uncounted: &'a Meter,
    ) -> Job<'a, ByTeam<'a, C, P>>
        requires { is_layout P ≡ true }
        ensures graph { result.graph.now ≡ graph.now }
        ensures delta { result.engine.team.delta ≡ width_among graph.now.arcs self.now.width }
        ensures workers { result.engine.team.workers ≡ self.now.workers }
    {
        Job {
            graph,
            engine: ByTeam {
                rt,
                team: self.team_for(graph),
                meter: self.listener.meter().unwrap_or(uncounted),
            },
        }
    }
}

/// A job whose graph has been read: the graph, and what each of its runs needs.
#[derive(Drop)]
pub struct Job<'a, E> {
    /// The graph that the runs search.
    pub graph: &'a Graph,
    /// The engine of the runs: a team with the width of a bucket that `Settings::team_for` chose for this graph, and its
    /// meter.
    pub engine: E,
}
