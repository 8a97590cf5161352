//! The arguments that calls refuse.
ghost use Rattle.std.specs.Prelude.{◌↔◌, IsTrue, IfSome, IfNone};
ghost use Rattle.spt_c.specs.Asked.{asked, HasRoom, IsRefused, IsGood};

use crate::arcs::{SptArc, first_bad};
use sp_lists::{Outcome, first_non_vertex, fits, is_count, reach};

// Returns whether a graph can have `n` vertices, and whether there are `blocks` blocks of `n` places each.
fn has_room(n: u32, blocks: usize, places: usize) -> bool
    ensures { IsTrue result ↔ HasRoom n blocks places }
{
    is_count(n) && fits(blocks, n as usize, places)
}

/// Returns the first that is wrong of the size, the delta, the sources and the arcs, if any. Both slices have `places`
/// places.
pub(crate) fn refusal(
    arcs: &[SptArc],
    n: u32,
    sources: &[u32],
    delta: u64,
    places: usize,
) -> Option<Outcome>
    ensures refused { IfSome result (IsRefused (asked arcs.now n sources.now delta) places) }
    ensures good { IfNone result (IsGood (asked arcs.now n sources.now delta) places) }
{
    if !has_room(n, sources.len(), places) {
        return Some(Outcome::BadSize);
    }
    if delta > reach(n) {
        return Some(Outcome::BadDelta);
    }
    if let Some(place) = first_non_vertex(n, sources) {
        return Some(Outcome::NoSuchVertex(place));
    }
    if let Some(place) = first_bad(n, arcs) {
        return Some(Outcome::BadArc(place));
    }
    None
}
