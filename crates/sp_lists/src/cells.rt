//! Words in the slices of a caller.
ghost use Rattle.std.specs.Prelude.{◌≡◌, ◌≤◌, ◌+◌, length};
ghost use Rattle.sp_word.specs.Word.{Unreached};
ghost use Rattle.sp_paths.specs.Paths.{word_at};
ghost use Rattle.sp_answer.specs.Table.{table_of};
ghost use Rattle.sp_lists.specs.Blocks.{slices, IsCell, AreCells, KeepsFrom, KeepsOthers};

use sp_answer::Tree;
use sp_word::Word;

/// What the caller gets for a vertex: its distance and its predecessor, or the greatest number and 0 if no walk leads to it.
#[derive(Clone, Copy, Debug, PartialEq, Eq)]
pub struct Cell {
    pub dist: u64,
    pub pred: u32,
}

impl Cell {
    /// Returns the cell of a vertex to which no walk leads.
    pub(crate) fn unreached() -> Cell
        ensures { result ≡ record { dist = 18446744073709551615; pred = 0 } }
    {
        Cell {
            dist: u64::MAX,
            pred: 0,
        }
    }
}

/// Returns the cell of a word.
pub(crate) fn cell_of<const P: u32>(word: Word<P>) -> Cell
    ensures { IsCell word.entry result.dist result.pred }
{
    match (word.dist(), word.pred()) {
        (Some(dist), Some(pred)) => Cell { dist, pred },
        _ => Cell::unreached(),
    }
}

/// Writes words: that of vertex `v` at index `low + v - 1`.
pub(crate) fn put_words<const P: u32>(
    words: &[Word<P>],
    low: usize,
    dist: &mut [u64],
    pred: &mut [u32],
)
    requires dist { low + length words.now ≤ length dist.old }
    requires pred { low + length words.now ≤ length pred.old }
    ensures cells { AreCells low (length words.now) (word_at words.now)
        (slices dist.new pred.new) }
    ensures others { KeepsOthers low (length words.now)
        (slices dist.old pred.old) (slices dist.new pred.new) }
{
    for place in 0..words.len() {
        let cell = cell_of(words[place]);
        dist[low + place] = cell.dist;
        pred[low + place] = cell.pred;
    }
}

/// Writes that `n` vertices are unreached: vertex `v` at index `v - 1`.
pub(crate) fn put_unreached(n: u32, dist: &mut [u64], pred: &mut [u32])
    requires dist { n ≤ length dist.old }
    requires pred { n ≤ length pred.old }
    ensures cells { AreCells 0 n (λ v. Unreached) (slices dist.new pred.new) }
    ensures others { KeepsFrom n (slices dist.old pred.old) (slices dist.new pred.new) }
{
    let none = Cell::unreached();
    for place in 0..n as usize {
        dist[place] = none.dist;
        pred[place] = none.pred;
    }
}

/// Writes the words of the vertices of a tree: that of vertex `v` at index `v - 1`.
pub(crate) fn put_cells<const P: u32>(tree: &Tree<P>, dist: &mut [u64], pred: &mut [u32])
    requires dist { tree.now.n ≤ length dist.old }
    requires pred { tree.now.n ≤ length pred.old }
    ensures cells { AreCells 0 tree.now.n (table_of tree.now) (slices dist.new pred.new) }
    ensures others { KeepsFrom tree.now.n (slices dist.old pred.old) (slices dist.new pred.new) }
{
    put_unreached(tree.n(), dist, pred);
    let rows = tree.rows();
    let mut left = rows.len();
    'rows: while left > 0 {
        left -= 1;
        let row = rows[left];
        let cell = cell_of(row.1);
        let place = (row.0 - 1) as usize;
        dist[place] = cell.dist;
        pred[place] = cell.pred;
    }
}
