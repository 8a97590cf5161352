//! The part of a tree within a distance: a place for each vertex, or a list of just the vertices in the part.
ghost use Rattle.std.specs.Prelude.{◌≡◌, ◌≤◌, length, IfOk};
ghost use Rattle.sp_paths.specs.Paths.{IsVertex};
ghost use Rattle.sp_answer.specs.Within.{IsTreeWithin};
ghost use Rattle.sp_lists.specs.Limits.{IsCount, pred_bits, reach};
ghost use Rattle.sp_lists.specs.Blocks.{slices};
ghost use Rattle.sp_lists.specs.PartQuestion.{IsPartIn, IsPartOf};
ghost use Rattle.sp_lists.specs.Listed.{listing, HasRows, KeepsListingFrom, IsListIn, IsListOf};

use crate::cells::{cell_of, put_cells};
use crate::outcomes::{ListingOutcome, Outcome};
use crate::prepared::{Prepared, PreparedLayout, by_layout, fitting};
use crate::queries::Query;
use sp_answer::Tree;
use sp_serial::{ByCaller, part_near};
use sp_word::Word;
use std::alloc::{AllocError, Global};

/// What is asked for: the part of the tree from a source within the limit. A delta above the greatest distance is refused; any
/// other is ignored.
#[derive(Clone, Copy)]
pub struct PartQuestion {
    pub source: u32,
    pub limit: u64,
    pub delta: u64,
}

// Returns the part of a tree, found by a search near the source or by a run.
fn find_part<const P: u32>(
    alloc: Global,
    at: PreparedLayout<P>,
    part: PartQuestion,
) -> Result<Tree<P>, AllocError>
    requires bits { P ≡ pred_bits at.graph.now.n }
    requires n { IsCount at.graph.now.n }
    requires vertex { IsVertex at.graph.now.n part.source }
    requires limit { part.limit ≤ reach at.graph.now.n }
    ensures { IfOk result (IsTreeWithin at.entry.graph.now part.source part.limit) }
{
    let PreparedLayout { graph, pool } = at;
    fitting::<P>(graph);
    part_near(&ByCaller, pool, alloc, graph, part.source, part.limit)
}

// Writes the part of a tree.
fn part_by<const P: u32>(
    alloc: Global,
    at: PreparedLayout<P>,
    part: PartQuestion,
    dist: &mut [u64],
    pred: &mut [u32],
) -> Outcome
    requires bits { P ≡ pred_bits at.graph.now.n }
    requires n { IsCount at.graph.now.n }
    requires vertex { IsVertex at.graph.now.n part.source }
    requires limit { part.limit ≤ reach at.graph.now.n }
    requires dist { at.graph.now.n ≤ length dist.old }
    requires pred { at.graph.now.n ≤ length pred.old }
    ensures { IsPartIn at.entry.graph.now part.source part.limit
        (slices dist.old pred.old) (slices dist.new pred.new) result }
{
    match find_part(alloc, at, part) {
        Ok(tree) => {
            put_cells(&tree, dist, pred);
            Outcome::Done
        }
        Err(_) => Outcome::Memory,
    }
}

/// Checks what is asked, and writes the part to the front of the lists; or returns why not, and writes nothing.
pub fn write_part(
    alloc: Global,
    prepared: Prepared,
    part: PartQuestion,
    dist: &mut [u64],
    pred: &mut [u32],
) -> Outcome
    ensures { IsPartOf prepared.entry.graph.now part.source part.limit part.delta
        (slices dist.old pred.old) (slices dist.new pred.new) result }
{
    let sources = [part.source];
    let query = Query {
        sources: &sources,
        targets: &[],
        delta: part.delta,
        limit: Some(part.limit),
        rows: 1,
        columns: prepared.n() as usize,
    };
    if let Some(told) = query.refusal(prepared.n(), dist.len().min(pred.len())) {
        return told;
    }
    by_layout!(prepared, at => part_by(alloc, at, part, dist, pred))
}

// Writes the rows, each with its vertex, its distance and its predecessor.
fn put_rows<const P: u32>(
    rows: &[(u32, Word<P>)],
    vertex: &mut [u32],
    dist: &mut [u64],
    pred: &mut [u32],
)
    requires vertex { length rows.now ≤ length vertex.old }
    requires dist { length rows.now ≤ length dist.old }
    requires pred { length rows.now ≤ length pred.old }
    ensures rows { HasRows rows.now (listing vertex.new dist.new pred.new) }
    ensures others { KeepsListingFrom (length rows.now)
        (listing vertex.old dist.old pred.old) (listing vertex.new dist.new pred.new) }
{
    for place in 0..rows.len() {
        let row = rows[place];
        let cell = cell_of(row.1);
        vertex[place] = row.0;
        dist[place] = cell.dist;
        pred[place] = cell.pred;
    }
}

// Writes the list of a part, if there are places for it.
fn list_by<const P: u32>(
    alloc: Global,
    at: PreparedLayout<P>,
    part: PartQuestion,
    vertex: &mut [u32],
    dist: &mut [u64],
    pred: &mut [u32],
) -> ListingOutcome
    requires bits { P ≡ pred_bits at.graph.now.n }
    requires n { IsCount at.graph.now.n }
    requires source { IsVertex at.graph.now.n part.source }
    requires limit { part.limit ≤ reach at.graph.now.n }
    ensures { IsListIn at.entry.graph.now part.source part.limit
        (listing vertex.old dist.old pred.old) (listing vertex.new dist.new pred.new) result }
{
    let Ok(tree) = find_part(alloc, at, part) else {
        return ListingOutcome::none(Outcome::Memory);
    };
    let rows = tree.rows();
    let count = rows.len();
    if count > vertex.len().min(dist.len()).min(pred.len()) {
        return ListingOutcome {
            told: Outcome::BadSize,
            count,
        };
    }
    put_rows(rows, vertex, dist, pred);
    ListingOutcome {
        told: Outcome::Done,
        count,
    }
}

/// Checks what is asked, and writes the vertices of the part to the front of the lists, by rising number; or returns why not, and
/// writes nothing. If the lists have fewer places than the part has vertices, it returns the number of these vertices.
pub fn list_part(
    alloc: Global,
    prepared: Prepared,
    part: PartQuestion,
    vertex: &mut [u32],
    dist: &mut [u64],
    pred: &mut [u32],
) -> ListingOutcome
    ensures { IsListOf prepared.entry.graph.now part.source part.limit part.delta
        (listing vertex.old dist.old pred.old) (listing vertex.new dist.new pred.new) result }
{
    let sources = [part.source];
    let query = Query {
        sources: &sources,
        targets: &[],
        delta: part.delta,
        limit: Some(part.limit),
        rows: 0,
        columns: 0,
    };
    if let Some(told) = query.refusal(prepared.n(), 0) {
        return ListingOutcome::none(told);
    }
    by_layout!(prepared, at => list_by(alloc, at, part, vertex, dist, pred))
}
