//! The trees of several sources of a graph.
ghost use Rattle.std.specs.Prelude.{◌≡◌, ◌≤◌, ◌+◌, ◌*◌, length, All};
ghost use Rattle.sp_paths.specs.Paths.{IsVertex};
ghost use Rattle.sp_lists.specs.Limits.{IsCount, pred_bits, reach};
ghost use Rattle.sp_lists.specs.Blocks.{slices, IsSolvedAt, AreSolved};

use crate::cells::put_words;
use crate::found_words::find_words;
use crate::outcomes::{BatchOutcome, Outcome};
use crate::prepared::{Prepared, PreparedLayout, by_layout, fitting};
use sp_serial::RunError;
use std::alloc::Global;

// A source, and the index from which its tree is written.
#[derive(Clone, Copy)]
struct TreePlace {
    source: u32,
    low: usize,
}

// Writes the tree of a source.
fn tree_by<const P: u32>(
    alloc: Global,
    at: PreparedLayout<P>,
    block: TreePlace,
    dist: &mut [u64],
    pred: &mut [u32],
) -> Outcome
    requires bits { P ≡ pred_bits at.graph.now.n }
    requires n { IsCount at.graph.now.n }
    requires vertex { IsVertex at.graph.now.n block.source }
    requires dist { block.low + at.graph.now.n ≤ length dist.old }
    requires pred { block.low + at.graph.now.n ≤ length pred.old }
    ensures { IsSolvedAt (reach at.entry.graph.now.n) at.entry.graph.now block.source block.low
        (slices dist.old pred.old) (slices dist.new pred.new) result }
{
    let TreePlace { source, low } = block;
    fitting::<P>(at.graph);
    match find_words::<P>(alloc, at.graph, &[source], None) {
        Ok(words) => {
            put_words(words.as_slice(), low, dist, pred);
            Outcome::Done
        }
        Err(RunError::TooFar(vertex)) => Outcome::TooFar(vertex),
        Err(RunError::NoSuchVertex) => unreachable!(),
        Err(RunError::Memory) => Outcome::Memory,
    }
}

// Writes the tree of a source, in the layout with the greatest distances that can name the vertices.
fn solve_at(
    alloc: Global,
    prepared: Prepared,
    block: TreePlace,
    dist: &mut [u64],
    pred: &mut [u32],
) -> Outcome
    requires n { IsCount prepared.graph.now.n }
    requires vertex { IsVertex prepared.graph.now.n block.source }
    requires dist { block.low + prepared.graph.now.n ≤ length dist.old }
    requires pred { block.low + prepared.graph.now.n ≤ length pred.old }
    ensures { IsSolvedAt (reach prepared.entry.graph.now.n) prepared.entry.graph.now
        block.source block.low
        (slices dist.old pred.old) (slices dist.new pred.new) result }
{
    by_layout!(prepared, at => tree_by(alloc, at, block, dist, pred))
}

/// Writes one tree after another, up to the first source that has none.
pub fn write_trees(
    alloc: Global,
    prepared: Prepared,
    sources: &[u32],
    dist: &mut [u64],
    pred: &mut [u32],
) -> BatchOutcome
    requires n { IsCount prepared.graph.now.n }
    requires vertices { All (IsVertex prepared.graph.now.n) sources.now }
    requires dist { length sources.now * prepared.graph.now.n ≤ length dist.old }
    requires pred { length sources.now * prepared.graph.now.n ≤ length pred.old }
    ensures { AreSolved (reach prepared.entry.graph.now.n) prepared.entry.graph.now sources.now
        (slices dist.old pred.old) (slices dist.new pred.new) result }
{
    let n = prepared.n() as usize;
    let mut low: usize = 0;
    for place in 0..sources.len() {
        let block = TreePlace {
            source: sources[place],
            low,
        };
        match solve_at(alloc, prepared, block, dist, pred) {
            Outcome::Done => {}
            told => return BatchOutcome { done: place, told },
        }
        low += n;
    }
    BatchOutcome {
        done: sources.len(),
        told: Outcome::Done,
    }
}
