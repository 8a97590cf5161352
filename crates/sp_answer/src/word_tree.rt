//! Trees as words: the word of each vertex, and no rows.
ghost use Rattle.std.specs.Prelude.{◌≡◌, ◌-◌, ◌≤◌, ℕ, length, true, All, Some, IfOk, slice_get};
ghost use Rattle.sp_word.specs.Word.{is_layout, max_pred};
ghost use Rattle.sp_answer.specs.Table.{IsTable, HasPredWithin, rows_from, table_of, tree_of};

use crate::rows::{count_reached, rows_of};
use crate::tree::Tree;
use sp_word::Word;
use std::alloc::{AllocError, Global};
use std::marker::Model;

/// A tree of shortest paths as a run leaves it: the source, and the word of each vertex. It is the same table as a `Tree`, but
/// has no list of rows, which takes time and memory to make.
#[derive(Drop)]
pub struct WordTree<const P: u32> {
    source: u32,
    words: Vec<Word<P>>,
    // the number of reached vertices
    reached: usize,
}

impl<const P: u32> Model for WordTree<P> {
    ghost use Rattle.sp_answer.specs.Table.{TreeTable, IsCounted, tree_of};

    ghost Value = { TreeTable };

    ghost view = { λ t. tree_of t.source t.words.items };

    ghost invariant = { λ t. IsCounted P t.source t.words.items t.reached };
}

impl<const P: u32> WordTree<P> {
    /// Returns the tree of a source in which the vertices have these words. It takes no memory.
    pub fn of_words(source: u32, words: Vec<Word<P>>) -> WordTree<P>
        requires layout { is_layout P ≡ true }
        requires least { 1 ≤ length words.items }
        requires most { length words.items ≤ max_pred P }
        requires source_least { 1 ≤ source }
        requires source_most { source ≤ length words.items }
        requires preds { All (HasPredWithin (length words.items)) words.items }
        ensures tree { result ≡ tree_of source words.entry.items }
        ensures words { (v : ℕ) → 1 ≤ v → v ≤ result.n
            → slice_get words.entry.items (v - 1) ≡ Some (table_of result v) }
    {
        let reached = count_reached(&words);
        WordTree {
            source,
            words,
            reached,
        }
    }

    /// Returns the number of vertices.
    pub fn n(&self) -> u32
        ensures n { result ≡ self.now.n }
        ensures table { IsTable P self.now }
    {
        self.words.len() as u32
    }

    /// Returns the source.
    pub fn source(&self) -> u32
        ensures source { result ≡ self.now.source }
        ensures table { IsTable P self.now }
    {
        self.source
    }

    /// Returns the number of reached vertices, which is the number of rows.
    pub fn reached(&self) -> usize
        ensures reached { result ≡ length self.now.rows }
    {
        self.reached
    }

    /// Returns the words of the vertices from 1 on.
    pub fn words(&self) -> &[Word<P>]
        ensures rows { rows_from 1 result.now ≡ self.now.rows }
        ensures n { length result.now ≡ self.now.n }
        ensures table { IsTable P self.now }
    {
        &self.words
    }
    /// Returns the same tree with its rows. It allocates once, for all of them, and takes linear time.
    pub fn to_tree(&self, alloc: Global) -> Result<Tree<P>, AllocError>
        ensures { IfOk result (λ tree. tree ≡ self.now) }
    {
        Ok(Tree {
            n: self.n(),
            source: self.source(),
            rows: rows_of(alloc, &self.words)?,
        })
    }
}
