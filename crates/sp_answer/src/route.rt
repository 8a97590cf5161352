//! Routes read off words, and the answer for a target with its route.
ghost use Rattle.std.specs.Prelude.{IfOk};
ghost use Rattle.sp_paths.specs.Paths.{IsVertex};
ghost use Rattle.sp_paths.specs.Routes.{IsRoute, LeadBack};

use crate::place::place_of;
use sp_graph::Graph;
use sp_word::Word;
use std::alloc::{AllocError, Global};

/// The answer for a target of a source, with the route to it.
#[derive(Debug, Drop, PartialEq, Eq)]
pub enum RouteAnswer {
    /// The target's least length, and the vertices of the route to it: the source comes first and the target last. If they are
    /// the same, it is one vertex.
    Found { dist: u64, route: Vec<u32> },
    /// The target has no least length that fits a word, and this is the smallest vertex that is too far.
    TooFar(u32),
    /// No walk leads to the target.
    NoWalk,
}

/// Returns the route from the source to the target: the vertices on the shortest path that takes, read from the target backwards,
/// the smallest vertex each time. The source comes first and the target last; it is one vertex if they are the same.
///
/// It takes as many steps as the route has vertices, and reads no other words.
pub fn route_of<const P: u32>(
    alloc: Global,
    graph: &Graph,
    words: &[Word<P>],
    source: u32,
    target: u32,
) -> Result<Vec<u32>, AllocError>
    requires source { IsVertex graph.now.n source }
    requires target { IsVertex graph.now.n target }
    requires words { LeadBack graph.now source target words.now }
    ensures { IfOk result (λ route. IsRoute graph.now source target route.items) }
{
    let _ = graph.n();
    let mut route = Vec::new(alloc);
    let mut at = place_of(words, target);
    'steps: while at.vertex != source {
        route.push(at.vertex)?;
        at = place_of(words, at.pred);
    }
    route.push(source)?;
    route.reverse();
    route.shrink_to_fit();
    Ok(route)
}
