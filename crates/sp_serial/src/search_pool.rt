//! Searches that take time only for the vertices that they touch, in buffers that are kept for the next search.
ghost use Rattle.std.specs.Prelude.{◌≡◌, ◌≤◌, true, All, Some, IfSome};
ghost use Rattle.sp_word.specs.Word.{is_layout, max_dist, max_pred};
ghost use Rattle.sp_paths.specs.Paths.{IsVertex};
ghost use Rattle.sp_answer.specs.Within.{IsTreeWithin};
ghost use Rattle.sp_answer.specs.Nearest.{IsForestAnswer};
ghost use Rattle.sp_answer.specs.Run.{AreAnswersBy};

use crate::misses::Misses;
use crate::search_buffers::SearchBuffers;
use crate::shelf::{OwnShelf, SharedShelf, Shelf};
use crate::spare_buffers::SpareBuffers;
use sp_answer::{Forest, TargetAnswer, Tree};
use sp_graph::Graph;
use std::alloc::Global;

// A search gives up when it has relaxed one in this many vertices, since another run is then better, ..
const SHARE: u32 = 64;

// .. but not before it has relaxed this many, which takes no longer than a run takes to begin.
const LEAST: u32 = 1024;

/// A pool of buffers for searches. The words of a search that found its answer are kept on a shelf for the next one.
#[derive(Drop)]
pub struct SearchPoolOn<S, const P: u32> {
    shelf: S,
    misses: Misses,
}

/// A pool of buffers for searches, shared by several threads. The words of a search that found its answer are kept for the next
/// search of any thread. No thread waits for another.
pub type SearchPool<const P: u32> = SearchPoolOn<SharedShelf<P>, P>;

/// A pool for the searches of a single thread: the same as `SearchPool` for several threads, but without a lock. The words of a
/// search are kept for the next one.
pub type OwnSearchPool<const P: u32> = SearchPoolOn<OwnShelf<P>, P>;

// Returns how many vertices a search may relax before it gives up.
fn most_of(graph: &Graph) -> usize {
    (graph.n() / SHARE).max(LEAST) as usize
}

impl<const P: u32> SearchPoolOn<SharedShelf<P>, P> {
    /// Returns a pool for `most` threads. It takes no memory for words yet. If there is no memory for the places, no words are
    /// kept.
    pub fn new(alloc: Global, most: usize) -> SearchPool<P> {
        SearchPoolOn {
            shelf: SharedShelf::new(alloc, most),
            misses: Misses::new(),
        }
    }
}

impl<const P: u32> SearchPoolOn<OwnShelf<P>, P> {
    /// Returns a pool without words. It takes no memory before the first search.
    pub fn new() -> OwnSearchPool<P> {
        SearchPoolOn {
            shelf: OwnShelf::new(),
            misses: Misses::new(),
        }
    }
}

impl<S: Shelf<P>, const P: u32> SearchPoolOn<S, P> {
    // Records whether a search found its answer, and keeps its words if it did.
    fn close(&self, room: SearchBuffers<P>, found: bool) {
        if found {
            self.misses.hit();
            self.shelf.put(SpareBuffers::of_room(room));
        } else {
            self.misses.miss();
        }
    }

    // Returns buffers with the kept words, or new ones, unless this source skips the search.
    fn open<'g>(&self, alloc: Global, graph: &'g Graph) -> Option<SearchBuffers<'g, P>>
        requires layout { is_layout P ≡ true }
        requires n { graph.now.n ≤ max_pred P }
        ensures { IfSome result (λ room. room ≡ graph.entry.now) }
    {
        if self.misses.rests() {
            return None;
        }
        if let Some(spare) = self.shelf.take() {
            if let Some(room) = spare.to_room(alloc, graph) {
                return Some(room);
            }
        }
        SearchBuffers::new(alloc, graph).ok()
    }

    /// Returns the answers for targets near their source, as `SearchBuffers::find` does. If the targets aren't near, or if an
    /// allocation fails, nothing is kept of the search, so that another run has as much memory as before. After several
    /// searches that gave up, some sources skip the search.
    pub fn find<A: TargetAnswer<P>>(
        &self,
        alloc: Global,
        graph: &Graph,
        source: u32,
        targets: &[u32],
    ) -> Option<Vec<A>>
        requires layout { is_layout P ≡ true }
        requires n { graph.now.n ≤ max_pred P }
        requires source { IsVertex graph.now.n source }
        requires targets { All (IsVertex graph.now.n) targets.now }
        ensures answers { IfSome result
            (λ answers. AreAnswersBy (A.is_answer graph.now source) targets.now answers.items) }
    {
        let mut room = self.open(alloc, graph)?;
        let found = room.find(source, targets, most_of(graph)).unwrap_or(None);
        self.close(room, found.is_some());
        found
    }

    /// Returns the part of the tree within a distance of its source, as `SearchBuffers::part` does, if it is small. If it
    /// isn't, or if an allocation fails, nothing is kept of the search. After several searches that gave up, some sources skip
    /// the search.
    pub fn part(&self, alloc: Global, graph: &Graph, source: u32, limit: u64) -> Option<Tree<P>>
        requires layout { is_layout P ≡ true }
        requires n { graph.now.n ≤ max_pred P }
        requires source { IsVertex graph.now.n source }
        requires limit { limit ≤ max_dist P }
        ensures { IfSome result (IsTreeWithin graph.now source limit) }
    {
        let mut room = self.open(alloc, graph)?;
        let found = room.part(source, limit, most_of(graph)).unwrap_or(None);
        self.close(room, found.is_some());
        found
    }

    /// Returns the part of the forest of the sources within a distance, as `SearchBuffers::forest` does, if it is small. If it
    /// isn't, if there are no sources, or if an allocation fails, nothing is kept of the search. If there are more sources than
    /// a search may relax vertices, there is no search at all, so that naming a source repeatedly costs no memory.
    pub fn forest(
        &self,
        alloc: Global,
        graph: &Graph,
        sources: &[u32],
        limit: u64,
    ) -> Option<Forest<P>>
        requires layout { is_layout P ≡ true }
        requires n { graph.now.n ≤ max_pred P }
        requires sources { All (IsVertex graph.now.n) sources.now }
        requires limit { limit ≤ max_dist P }
        ensures { IfSome result (IsForestAnswer P graph.now sources.now (Some limit)) }
    {
        if sources.len() > most_of(graph) {
            return None;
        }
        let mut room = self.open(alloc, graph)?;
        let found = room.forest(sources, limit, most_of(graph)).unwrap_or(None);
        self.close(room, found.is_some());
        found
    }
}
