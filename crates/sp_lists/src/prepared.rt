//! The layout of words that is used for a graph.
ghost use Rattle.std.specs.Prelude.{◌≡◌, ◌≤◌, true};
ghost use Rattle.sp_word.specs.Word.{is_layout, max_dist, max_pred};
ghost use Rattle.sp_lists.specs.Limits.{IsCount, pred_bits, reach};

use crate::search_pools::AnySearchPool;
use sp_graph::Graph;
use sp_serial::OwnSearchPool;

/// A graph about which questions are asked, and buffers for the searches in it.
#[derive(Clone, Copy)]
pub struct Prepared<'a> {
    pub graph: &'a Graph,
    pub pool: &'a AnySearchPool,
}

/// A graph, and buffers for the searches in it, in words with P bits of predecessor.
#[derive(Clone, Copy)]
pub(crate) struct PreparedLayout<'a, const P: u32> {
    pub graph: &'a Graph,
    pub pool: &'a OwnSearchPool<P>,
}

/// Calls a function for the layout with the greatest distances that can name the vertices of a graph.
macro_rules! by_layout {
    ($prepared:ident, $at:ident => $call:expr) => {{
        let graph = $prepared.graph;
        let n = graph.n();
        if n <= 1_048_574 {
            let $at = $crate::prepared::PreparedLayout {
                graph,
                pool: &$prepared.pool.of20,
            };
            $call
        } else if n <= 16_777_214 {
            let $at = $crate::prepared::PreparedLayout {
                graph,
                pool: &$prepared.pool.of24,
            };
            $call
        } else if n <= 268_435_454 {
            let $at = $crate::prepared::PreparedLayout {
                graph,
                pool: &$prepared.pool.of28,
            };
            $call
        } else {
            let $at = $crate::prepared::PreparedLayout {
                graph,
                pool: &$prepared.pool.of32,
            };
            $call
        }
    }};
}

pub(crate) use by_layout;

/// States what is true of the layout that is used for a graph.
pub(crate) fn fitting<const P: u32>(graph: &Graph)
    requires bits { P ≡ pred_bits graph.now.n }
    requires n { IsCount graph.now.n }
    ensures layout { is_layout P ≡ true }
    ensures n { graph.now.n ≤ max_pred P }
    ensures reach { max_dist P ≡ reach graph.now.n }
{}

impl Prepared<'_> {
    /// Returns the number of vertices.
    pub fn n(self) -> u32
        ensures { result ≡ self.entry.graph.now.n }
    {
        self.graph.n()
    }
}
