//! Making graphs that are kept between calls.
ghost use Rattle.std.specs.Prelude.{◌≡◌, IfOk, IfErr, None, Some};
ghost use Rattle.spt_c.specs.Place.{kept, held_by, IsInUse, IsFree, IsSame};
ghost use Rattle.spt_c.specs.Kept.{made_of, IsMade, IsShared};
ghost use Rattle.spt_c.specs.declared.making.KeepOutcome.TheVariants.{Kept, Memory, InUse};
ghost use Rattle.spt_c.specs.Owners.{held};

use crate::answers::SptAnswer;
use crate::arcs::{SptArc, first_bad, graph_of};
use crate::place::{KeptGraph, Taken};
use crate::shared::HeldGraph;
use sp_lists::{Outcome, is_count};
use std::alloc::{AllocError, Global};

/// The result of keeping a graph.
#[derive(Clone, Copy, Debug, PartialEq, Eq)]
pub(crate) enum KeepOutcome {
    /// The graph is kept.
    Kept,
    /// The number of vertices is 0 or too large.
    BadSize,
    /// The arc at this index is invalid.
    BadArc(usize),
    /// An allocation failed.
    Memory,
    /// The place keeps no graph from which another one could be made.
    NoGraph,
    /// Another call uses a place.
    InUse,
}

impl KeepOutcome {
    /// Returns the result in the form for C.
    pub(crate) fn answer(self) -> SptAnswer
        ensures { result ≡ made_of self }
    {
        match self {
            KeepOutcome::Kept => SptAnswer::of(Outcome::Done),
            KeepOutcome::BadSize => SptAnswer::of(Outcome::BadSize),
            KeepOutcome::BadArc(place) => SptAnswer::of(Outcome::BadArc(place)),
            KeepOutcome::Memory => SptAnswer::of(Outcome::Memory),
            KeepOutcome::NoGraph => SptAnswer::of(Outcome::NoGraph),
            KeepOutcome::InUse => SptAnswer::in_use(),
        }
    }
}

/// Tests the size and the arcs of a graph, and keeps it, in place of what was kept.
pub(crate) fn make(alloc: Global, arcs: &[SptArc], n: u32, graph: &mut KeptGraph) -> KeepOutcome
    ensures in_use { IsInUse graph.old → (result ≡ InUse) × (graph.new ≡ graph.old) }
    ensures made { IsFree graph.old
        → IsMade n arcs.now (kept graph.old) (kept graph.new) result }
    ensures free { IsFree graph.old → IsFree graph.new }
{
    match graph.begin(alloc) {
        Ok(before) => make_in(alloc, arcs, n, graph, before),
        Err(_) => KeepOutcome::InUse,
    }
}

// Does the same in a place that this call has taken, which kept `before`, and gives the place back.
fn make_in(
    alloc: Global,
    arcs: &[SptArc],
    n: u32,
    graph: &mut KeptGraph,
    before: Option<HeldGraph>,
) -> KeepOutcome
    requires { IsInUse graph.old }
    ensures made { IsMade n arcs.now (held_by before) (kept graph.new) result }
    ensures free { IsFree graph.new }
{
    if !is_count(n) {
        graph.end(before);
        return KeepOutcome::BadSize;
    }
    if let Some(place) = first_bad(n, arcs) {
        graph.end(before);
        return KeepOutcome::BadArc(place);
    }
    match graph_of(alloc, n, arcs) {
        Ok(made) => match graph.end_with(alloc, made, before) {
            Ok(()) => KeepOutcome::Kept,
            Err(_) => KeepOutcome::Memory,
        },
        Err(_) => {
            graph.end(before);
            KeepOutcome::Memory
        }
    }
}

/// Keeps the same graph in a second place as well, in place of what that place kept.
pub(crate) fn share(alloc: Global, from: &mut KeptGraph, to: &mut KeptGraph) -> KeepOutcome
    ensures in_use_from { IsInUse from.old → (result ≡ InUse) × IsSame to.old to.new }
    ensures in_use_to { IsInUse to.old → (result ≡ InUse) × IsSame to.old to.new }
    ensures to { IsFree from.old → IsFree to.old
        → IsShared (kept from.old) (kept to.old) (kept to.new) result }
    ensures free { IsFree to.old → IsFree to.new }
    ensures same { IsSame from.old from.new }
{
    match to.begin(alloc) {
        Ok(before) => match from.take(alloc) {
            Taken::Graph(held) => {
                let another = held.another(alloc);
                from.end(Some(held));
                share_in(to, another, before)
            }
            Taken::Nothing => {
                to.end(None);
                drop(before);
                KeepOutcome::Kept
            }
            Taken::InUse => {
                to.end(before);
                KeepOutcome::InUse
            }
        },
        Err(_) => KeepOutcome::InUse,
    }
}

// Gives a place back with another owner of a graph, or, if there was no memory for that, with what it kept before.
fn share_in(
    to: &mut KeptGraph,
    another: Result<HeldGraph, AllocError>,
    before: Option<HeldGraph>,
) -> KeepOutcome
    requires { IsInUse to.old }
    ensures kept { IfOk another (λ other. (result ≡ Kept) × (kept to.new ≡ Some (held other))) }
    ensures memory { IfErr another (λ _. (result ≡ Memory) × (kept to.new ≡ held_by before)) }
    ensures free { IsFree to.new }
{
    match another {
        Ok(other) => {
            to.end(Some(other));
            drop(before);
            KeepOutcome::Kept
        }
        Err(_) => {
            to.end(before);
            KeepOutcome::Memory
        }
    }
}

/// Keeps no graph any more. The graph is freed if this was its last owner. Returns the status.
pub(crate) fn clear(alloc: Global, graph: &mut KeptGraph) -> u32
    ensures in_use { IsInUse graph.old → (result ≡ 12) × (graph.new ≡ graph.old) }
    ensures free { IsFree graph.old → (result ≡ 0) × (kept graph.new ≡ None) × IsFree graph.new }
{
    match graph.begin(alloc) {
        Ok(before) => {
            graph.end(None);
            drop(before);
            0
        }
        Err(_) => 12,
    }
}
