//! The forest of several sources.
ghost use Rattle.std.specs.Prelude.{◌≡◌, ◌≤◌, Some, length, true, All, IfOk, IfErr, IfSome};
ghost use Rattle.sp_word.specs.Word.{is_layout, max_dist, max_pred};
ghost use Rattle.sp_paths.specs.Paths.{IsVertex, word_at};
ghost use Rattle.sp_answer.specs.ForestTable.{table_of};
ghost use Rattle.sp_answer.specs.Nearest.{IsForestAnswer, IsRefusal};
ghost use Rattle.sp_lists.specs.Limits.{IsCount, pred_bits};
ghost use Rattle.sp_lists.specs.Query.{IsLimit};
ghost use Rattle.sp_lists.specs.Blocks.{slices, AreCells};
ghost use Rattle.sp_lists.specs.Matrix.{KeepsListFrom};
ghost use Rattle.sp_lists.specs.ForestQuestion.{lists, KeepsListsFrom, IsRootPut, AreNoRoots, ArePutRoots, HoldsRoots, AreRooted, IsForestIn, IsForestOf};

use crate::cells::{cell_of, put_unreached};
use crate::found_words::find_words;
use crate::outcomes::Outcome;
use crate::prepared::{Prepared, PreparedLayout, by_layout, fitting};
use crate::queries::Query;
use sp_answer::{Forest, roots_of};
use sp_graph::Graph;
use sp_serial::RunError;
use sp_word::Word;
use std::alloc::Global;

/// What is asked for: the forest of the sources, within the limit if there is one. Delta is checked and otherwise ignored.
#[derive(Clone, Copy)]
pub struct ForestQuestion<'a> {
    pub sources: &'a [u32],
    pub limit: Option<u64>,
    pub delta: u64,
}

// The words of the vertices of a forest, and their roots.
#[derive(Drop)]
struct Rooted<const P: u32> {
    words: Vec<Word<P>>,
    roots: Vec<u32>,
}

// Returns the number that is written for the root of a word.
fn root_cell<const P: u32>(word: Word<P>, root: u32) -> u32
    ensures { IsRootPut word.entry (Some root) result }
{
    if word.is_unreached() { 0 } else { root }
}

// Writes that `n` vertices have no root.
fn put_no_roots(n: u32, root: &mut [u32])
    requires { n ≤ length root.old }
    ensures cells { AreNoRoots n root.new }
    ensures others { KeepsListFrom n root.old root.new }
{
    for place in 0..n as usize {
        root[place] = 0;
    }
}

// Writes the words and the roots of the vertices: those of vertex `v` at index `v - 1`.
fn put_forest<const P: u32>(
    forest: &Forest<P>,
    dist: &mut [u64],
    pred: &mut [u32],
    root: &mut [u32],
)
    requires dist { forest.now.n ≤ length dist.old }
    requires pred { forest.now.n ≤ length pred.old }
    requires root { forest.now.n ≤ length root.old }
    ensures cells { AreCells 0 forest.now.n (table_of forest.now) (slices dist.new pred.new) }
    ensures roots { ArePutRoots forest.now.n forest.now root.new }
    ensures others { KeepsListsFrom forest.now.n
        (lists dist.old pred.old root.old) (lists dist.new pred.new root.new) }
{
    let n = forest.n();
    put_unreached(n, dist, pred);
    put_no_roots(n, root);
    let rows = forest.rows();
    let mut left = rows.len();
    'rows: while left > 0 {
        left -= 1;
        let row = rows[left];
        let cell = cell_of(row.1);
        let place = (row.0 - 1) as usize;
        dist[place] = cell.dist;
        pred[place] = cell.pred;
        root[place] = root_cell(row.1, row.2);
    }
}

// Writes the words and the roots of the vertices: those of vertex `v` at index `v - 1`.
fn put_rooted<const P: u32>(
    words: &[Word<P>],
    roots: &[u32],
    dist: &mut [u64],
    pred: &mut [u32],
    root: &mut [u32],
)
    requires size { length roots.now ≡ length words.now }
    requires dist { length words.now ≤ length dist.old }
    requires pred { length words.now ≤ length pred.old }
    requires root { length words.now ≤ length root.old }
    ensures cells { AreCells 0 (length words.now) (word_at words.now) (slices dist.new pred.new) }
    ensures roots { HoldsRoots roots.now root.new }
    ensures others { KeepsListsFrom (length words.now)
        (lists dist.old pred.old root.old) (lists dist.new pred.new root.new) }
{
    for place in 0..words.len() {
        let cell = cell_of(words[place]);
        dist[place] = cell.dist;
        pred[place] = cell.pred;
        root[place] = roots[place];
    }
}

// Returns the part of the forest, if there is a limit and a search near the sources finds it.
fn near_forest<const P: u32>(
    alloc: Global,
    at: PreparedLayout<P>,
    near: ForestQuestion,
) -> Option<Forest<P>>
    requires bits { P ≡ pred_bits at.graph.now.n }
    requires n { IsCount at.graph.now.n }
    requires vertices { All (IsVertex at.graph.now.n) near.sources.now }
    requires limit { IsLimit at.graph.now.n near.limit }
    ensures { IfSome result
        (IsForestAnswer P at.entry.graph.now near.entry.sources.now near.entry.limit) }
{
    let PreparedLayout { graph, pool } = at;
    fitting::<P>(graph);
    match near.limit {
        Some(limit) => pool.forest(alloc, graph, near.sources, limit),
        None => None,
    }
}

// Returns the forest, found by a run.
fn run_forest<const P: u32>(
    alloc: Global,
    graph: &Graph,
    near: ForestQuestion,
) -> Result<Rooted<P>, RunError>
    requires layout { is_layout P ≡ true }
    requires n { graph.now.n ≤ max_pred P }
    requires vertices { All (IsVertex graph.now.n) near.sources.now }
    requires limit { IfSome near.limit (λ limit. limit ≤ max_dist P) }
    ensures forest { IfOk result (λ made. AreRooted P graph.now
        near.entry.sources.now near.entry.limit made.words.items made.roots.items) }
    ensures refused { IfErr result
        (IsRefusal P graph.now near.entry.sources.now near.entry.limit) }
{
    let _ = graph.n();
    let words = find_words::<P>(alloc, graph, near.sources, near.limit)?;
    match roots_of(alloc, words.as_slice()) {
        Ok(roots) => Ok(Rooted { words, roots }),
        Err(_) => Err(RunError::Memory),
    }
}

// Writes the forest.
fn forest_by<const P: u32>(
    alloc: Global,
    at: PreparedLayout<P>,
    near: ForestQuestion,
    dist: &mut [u64],
    pred: &mut [u32],
    root: &mut [u32],
) -> Outcome
    requires bits { P ≡ pred_bits at.graph.now.n }
    requires n { IsCount at.graph.now.n }
    requires vertices { All (IsVertex at.graph.now.n) near.sources.now }
    requires limit { IsLimit at.graph.now.n near.limit }
    requires dist { at.graph.now.n ≤ length dist.old }
    requires pred { at.graph.now.n ≤ length pred.old }
    requires root { at.graph.now.n ≤ length root.old }
    ensures { IsForestIn (pred_bits at.entry.graph.now.n) at.entry.graph.now
        near.entry.sources.now near.entry.limit
        (lists dist.old pred.old root.old) (lists dist.new pred.new root.new) result }
{
    if let Some(forest) = near_forest(alloc, at, near) {
        put_forest(&forest, dist, pred, root);
        return Outcome::Done;
    }
    fitting::<P>(at.graph);
    match run_forest::<P>(alloc, at.graph, near) {
        Ok(made) => {
            put_rooted(&made.words, &made.roots, dist, pred, root);
            Outcome::Done
        }
        Err(RunError::TooFar(vertex)) => Outcome::TooFar(vertex),
        Err(RunError::NoSuchVertex) => unreachable!(),
        Err(RunError::Memory) => Outcome::Memory,
    }
}

/// Checks what is asked, and writes the forest to the front of the lists; or returns why not, and writes nothing.
pub fn write_forest(
    alloc: Global,
    prepared: Prepared,
    near: ForestQuestion,
    dist: &mut [u64],
    pred: &mut [u32],
    root: &mut [u32],
) -> Outcome
    ensures { IsForestOf prepared.entry.graph.now
        near.entry.sources.now near.entry.limit near.entry.delta
        (lists dist.old pred.old root.old) (lists dist.new pred.new root.new) result }
{
    let query = Query {
        sources: near.sources,
        targets: &[],
        delta: near.delta,
        limit: near.limit,
        rows: 1,
        columns: prepared.n() as usize,
    };
    let places = dist.len().min(pred.len()).min(root.len());
    if let Some(told) = query.refusal(prepared.n(), places) {
        return told;
    }
    by_layout!(prepared, at => forest_by(alloc, at, near, dist, pred, root))
}
