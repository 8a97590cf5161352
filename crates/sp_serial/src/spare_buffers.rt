//! Words that are kept for another search.
ghost use Rattle.std.specs.Prelude.{◌≡◌, ◌≤◌, IfSome};
ghost use Rattle.sp_word.specs.Word.{max_pred};

use crate::search_buffers::SearchBuffers;
use crate::tracked_words::TrackedWords;
use sp_graph::Graph;
use std::alloc::Global;
use std::marker::Model;

/// The words of buffers that are no longer in use, all unreached. They don't refer to a graph, so that threads can pass
/// them to one another. They become buffers again for any graph with the same number of vertices, which takes no time.
///
/// Contracts see the number of words.
#[derive(Drop)]
pub struct SpareBuffers<const P: u32> {
    tracked: TrackedWords<P>,
}

impl<const P: u32> Model for SpareBuffers<P> {
    ghost use Rattle.std.specs.Prelude.{ℕ, vec_len};
    ghost use Rattle.sp_serial.specs.TrackedWords.{AreSpare};

    ghost Value = { ℕ };

    ghost view = { λ s. vec_len s.tracked.words };

    ghost invariant = { λ s. AreSpare P s.tracked.words.items };
}

impl<const P: u32> SpareBuffers<P> {
    /// Returns the words of buffers that are no longer used.
    pub(crate) fn of_room(room: SearchBuffers<P>) -> SpareBuffers<P>
        ensures { result ≡ room.entry.n }
    {
        let SearchBuffers { tracked, .. } = room;
        SpareBuffers { tracked }
    }

    /// Makes buffers of the words, if the graph has as many vertices.
    pub(crate) fn to_room<'g>(self, alloc: Global, graph: &'g Graph) -> Option<SearchBuffers<'g, P>>
        requires { graph.now.n ≤ max_pred P }
        ensures graph { IfSome result (λ room. room ≡ graph.entry.now) }
        ensures size { IfSome result (λ _. graph.entry.now.n ≡ self.entry) }
    {
        let SpareBuffers { tracked } = self;
        if tracked.words.len() != graph.n() as usize {
            return None;
        }
        Some(SearchBuffers {
            alloc,
            graph,
            tracked,
        })
    }
}
