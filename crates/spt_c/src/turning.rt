//! The graph of a place, with its arcs turned round or leading both ways, in another place.
ghost use Rattle.std.specs.Prelude.{◌≡◌, Some};
ghost use Rattle.sp_network.specs.Turned.{IsTurned, IsBothWays};
ghost use Rattle.spt_c.specs.Place.{kept, held_by, IsInUse, IsFree, IsSame};
ghost use Rattle.spt_c.specs.Turning.{IsMadeFrom};
ghost use Rattle.spt_c.specs.declared.making.KeepOutcome.TheVariants.{InUse};

use crate::kept::of_two;
use crate::making::KeepOutcome;
use crate::place::{KeptGraph, Taken};
use crate::shared::HeldGraph;
use sp_graph::Graph;
use sp_network::{both_ways_alone, turned_alone};
use std::alloc::Global;

// Keeps a graph with its arcs turned round in a place that this call has taken, which kept `before`, and gives the place
// back.
fn turned_in(
    alloc: Global,
    from: &Graph,
    graph: &mut KeptGraph,
    before: Option<HeldGraph>,
) -> KeepOutcome
    requires { IsInUse graph.old }
    ensures made { IsMadeFrom IsTurned (Some from.now) (held_by before) (kept graph.new) result }
    ensures free { IsFree graph.new }
{
    match turned_alone(alloc, from) {
        Ok(made) => match graph.end_with(alloc, made, before) {
            Ok(()) => KeepOutcome::Kept,
            Err(_) => KeepOutcome::Memory,
        },
        Err(_) => {
            graph.end(before);
            KeepOutcome::Memory
        }
    }
}

// Keeps a graph with its arcs leading both ways in a place that this call has taken, which kept `before`, and gives the
// place back.
fn both_ways_in(
    alloc: Global,
    from: &Graph,
    graph: &mut KeptGraph,
    before: Option<HeldGraph>,
) -> KeepOutcome
    requires { IsInUse graph.old }
    ensures made { IsMadeFrom IsBothWays (Some from.now) (held_by before) (kept graph.new) result }
    ensures free { IsFree graph.new }
{
    match both_ways_alone(alloc, from) {
        Ok(made) => match graph.end_with(alloc, made, before) {
            Ok(()) => KeepOutcome::Kept,
            Err(_) => KeepOutcome::Memory,
        },
        Err(_) => {
            graph.end(before);
            KeepOutcome::Memory
        }
    }
}

/// Keeps the graph of the second place in the first one, with its arcs turned round, in place of what was kept.
pub(crate) fn keep_turned(alloc: Global, graph: &mut KeptGraph, from: &mut KeptGraph) -> KeepOutcome
    ensures in_use { IsInUse graph.old → (result ≡ InUse) × IsSame graph.old graph.new }
    ensures in_use_from { IsInUse from.old → (result ≡ InUse) × IsSame graph.old graph.new }
    ensures made { IsFree graph.old → IsFree from.old
        → IsMadeFrom IsTurned (kept from.old) (kept graph.old) (kept graph.new) result }
    ensures free { IsFree graph.old → IsFree graph.new }
    ensures same { IsSame from.old from.new }
{
    of_two!(alloc, graph, from, held, before => turned_in(alloc, held.graph(), graph, before))
}

/// Keeps the graph of the second place in the first one, with its arcs leading both ways, in place of what was kept.
pub(crate) fn keep_both_ways(
    alloc: Global,
    graph: &mut KeptGraph,
    from: &mut KeptGraph,
) -> KeepOutcome
    ensures in_use { IsInUse graph.old → (result ≡ InUse) × IsSame graph.old graph.new }
    ensures in_use_from { IsInUse from.old → (result ≡ InUse) × IsSame graph.old graph.new }
    ensures made { IsFree graph.old → IsFree from.old
        → IsMadeFrom IsBothWays (kept from.old) (kept graph.old) (kept graph.new) result }
    ensures free { IsFree graph.old → IsFree graph.new }
    ensures same { IsSame from.old from.new }
{
    of_two!(alloc, graph, from, held, before => both_ways_in(alloc, held.graph(), graph, before))
}
