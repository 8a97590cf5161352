//! Tasks, and the parts that a round borrows.

use crate::table::ClaimTable;
use sp_graph::Rows;
use sp_offer::{Lawful, OfferTable};
use sp_word::Workers;

/// Which arcs of a vertex a task relaxes.
#[derive(Clone, Copy, Debug, PartialEq, Eq)]
pub enum TaskKind {
    /// The arcs whose length is at most the width of a bucket.
    Light,
    /// The longer arcs.
    Heavy,
}

/// A task relaxes the arcs of one kind that leave a vertex, at a given distance: it offers to the head of each arc the
/// sum of the distance and the arc's length, with the vertex as predecessor. A sum above the greatest distance isn't
/// offered.
#[derive(Clone, Copy, Debug, PartialEq, Eq)]
pub struct Task {
    pub vertex: u32,
    pub dist: u64,
    pub kind: TaskKind,
}

/// The parts that a round borrows, with its number, by which tasks are claimed, and the number of workers that may
/// share it.
#[derive(Drop)]
pub struct Round<'a, L: Lawful, const P: u32> {
    pub table: &'a OfferTable<L, P>,
    pub claims: &'a ClaimTable,
    pub rows: &'a Rows,
    pub tasks: &'a [Task],
    pub number: u64,
    pub workers: Workers,
}
