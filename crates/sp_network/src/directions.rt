//! The direction of a graph's arcs, relative to its file.
ghost use Rattle.std.specs.Prelude.{◌≡◌, ℕ, IfOk};
ghost use Rattle.sp_dimacs.specs.Graph.{IsNetwork, IsNetworkUpTo, graph_of};
ghost use Rattle.sp_network.specs.Network.{directed, directed_arcs, most_of};

use crate::arcs::{insert_turned, turn_by};
use crate::network::Network;
use sp_dimacs::{MOST_ARCS, MOST_ARCS_BOTH_WAYS};
use sp_paths::Arc;
use sp_word::Workers;
use std::alloc::AllocError;
use std::marker::Sync;
use std::thread::Threads;

/// The direction of a graph's arcs, relative to its file.
#[derive(Clone, Copy, Debug, PartialEq, Eq)]
pub enum Direction {
    /// From tail to head.
    AsGiven,
    /// From head to tail: a walk from a vertex is one towards it in the graph of the file.
    Towards,
    /// From tail to head, and back: each arc of the file gives two arcs, one after the other. A loop appears twice.
    BothWays,
}

impl Direction {
    /// Returns how many arcs a text may announce, in either form.
    pub fn most_arcs(self) -> u32
        ensures { result ≡ most_of self }
    {
        match self {
            Direction::AsGiven | Direction::Towards => MOST_ARCS as u32,
            Direction::BothWays => MOST_ARCS_BOTH_WAYS as u32,
        }
    }

    // Leads arcs in this direction, in place.
    pub(crate) fn lead<R: Threads + Sync>(
        self,
        rt: &R,
        arcs: &mut Vec<Arc>,
        workers: Workers,
    ) -> Result<(), AllocError>
        ensures { IfOk result (λ _. arcs.new.items ≡ directed_arcs self arcs.old.items) }
    {
        match self {
            Direction::AsGiven => {}
            Direction::Towards => turn_by(rt, arcs, workers),
            Direction::BothWays => insert_turned(arcs)?,
        }
        Ok(())
    }

    /// Returns the network with its arcs in this direction. Arcs are turned in place, with at most one thread for each worker,
    /// and nothing is known of their rows afterwards. The call fails only if the arcs lead both ways and there is no memory for
    /// twice as many.
    pub fn apply<R: Threads + Sync>(
        self,
        rt: &R,
        network: Network,
        workers: Workers,
    ) -> Result<Network, AllocError>
        ensures directed { IfOk result
            (λ made. graph_of made ≡ directed self (graph_of network)) }
        ensures network { (P : ℕ) → IsNetworkUpTo P (most_of self) network
            → IfOk result (IsNetwork P) }
    {
        match self {
            Direction::AsGiven => Ok(network),
            Direction::Towards | Direction::BothWays => network.lead(rt, self, workers),
        }
    }
}
