//! The goal of a team's search, and how far a worker must go to reach it.
ghost use Rattle.std.specs.Prelude.{◌≡◌};
ghost use Rattle.sp_offer.specs.Order.{lawful};
ghost use Rattle.sp_team.specs.Law.{IsReady};
ghost use Rattle.sp_team.specs.Later.{IsLater};

use crate::entries::read_dist;
use crate::schedule::GLANCE;
use sp_graph::Graph;
use sp_offer::{Caller, Lawful, OfferTable};
use sp_word::{Meter, Team};

/// The goal of a search, and the team that performs it.
#[derive(Drop)]
pub struct Search<'q, const P: u32> {
    /// The number of workers and the width of their buckets.
    pub team: Team<P>,
    /// The vertices whose arcs are relaxed first.
    pub queue: &'q [u32],
    /// The vertices whose words are wanted; empty if all are.
    pub targets: &'q [u32],
    /// The greatest distance wanted: entries beyond it are dropped. `u64::MAX` if there is no limit.
    pub limit: u64,
    /// Where the workers count the vertices that they relax.
    pub meter: &'q Meter,
}

/// How far a worker must go: to the limit, or to the farthest target once all targets are reached, if that is nearer. Because
/// distances only fall, the horizon is too far at first and never too near.
#[derive(Clone, Copy)]
pub(crate) struct Horizon {
    // the greatest distance of an entry that may affect the targets' words
    end: u64,
    // the number of targets checked since the first, all of them reached
    seen: usize,
    // the greatest distance of those targets
    farthest: u64,
}

impl Horizon {
    /// Makes the horizon before any target is checked: it is the limit.
    pub(crate) fn new(limit: u64) -> Horizon {
        Horizon {
            end: limit,
            seen: 0,
            farthest: 0,
        }
    }

    /// Whether an entry at this distance is within the horizon.
    pub(crate) fn reaches(&self, dist: u64) -> bool {
        dist <= self.end
    }

    // Once all targets are reached, moves the horizon to the farthest target, if that is nearer, and starts checking again from
    // the first target.
    fn close_in(&mut self) {
        self.end = self.end.min(self.farthest);
        self.seen = 0;
        self.farthest = 0;
    }

    /// Checks some more targets.
    pub(crate) fn look<L: Lawful, const P: u32>(
        &mut self,
        graph: &Graph,
        table: &OfferTable<L, P>,
        targets: &[u32],
        caller: &mut Caller,
    )
        requires ready { IsReady P
            (lawful P (L.allows table.now.law)) table.now.vertices graph.now }
        requires caller { caller.old.table ≡ table.now.id }
        ensures { IsLater (lawful P (L.allows table.now.law)) caller.old caller.new }
    {
        for _ in 0..targets.len().min(GLANCE) {
            let Some(target) = targets.get(self.seen) else {
                return self.close_in();
            };
            if !graph.has_vertex(*target) {
                return;
            }
            let Some(dist) = read_dist(table, *target, caller) else {
                return;
            };
            self.farthest = self.farthest.max(dist);
            self.seen += 1;
        }
    }
}
