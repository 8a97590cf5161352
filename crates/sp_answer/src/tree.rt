//! Trees as tables of rows.
ghost use Rattle.std.specs.Prelude.{◌≡◌, ◌+◌, ◌-◌, ◌<◌, ◌≤◌, ◌∷◌, [], ◌++◌, ℕ, List, length, map, true, All, IfOk, Some, MatchOption, slice_get};
ghost use Rattle.sp_word.specs.Word.{Pair, Unreached, is_layout, max_dist, max_pred};
ghost use Rattle.sp_answer.specs.Table.{TreeTable, IsTable, AreRows, HasPredWithin, last_vertex, table_of, tree_of, with_row};
ghost use Rattle.sp_answer.specs.Within.{up_to};

use crate::rows::{rows_of, rows_within};
use sp_word::Word;
use std::alloc::{AllocError, Global};
use std::marker::Model;

/// A tree of shortest paths: the number of vertices, the source, and a row for each vertex that is reached.
#[derive(Drop)]
pub struct Tree<const P: u32> {
    pub(crate) n: u32,
    pub(crate) source: u32,
    pub(crate) rows: Vec<(u32, Word<P>)>,
}

impl<const P: u32> Model for Tree<P> {
    ghost Value = { TreeTable };

    ghost view = { λ t. record { n = t.n; source = t.source; rows = t.rows.items } };

    ghost invariant = { λ t. IsTable P
        (record { n = t.n; source = t.source; rows = t.rows.items }) };
}

impl<const P: u32> Tree<P> {
    /// Returns the tree of a source in which the vertices have these words.
    ///
    /// It allocates once, for all rows, and takes linear time.
    pub fn of_words(alloc: Global, source: u32, words: &[Word<P>]) -> Result<Tree<P>, AllocError>
        requires layout { is_layout P ≡ true }
        requires least { 1 ≤ length words.now }
        requires most { length words.now ≤ max_pred P }
        requires source_least { 1 ≤ source }
        requires source_most { source ≤ length words.now }
        requires preds { All (HasPredWithin (length words.now)) words.now }
        ensures tree { IfOk result (λ t. t ≡ tree_of source words.now) }
        ensures words { IfOk result
            (λ t. (v : ℕ) → 1 ≤ v → v ≤ t.n → slice_get words.now (v - 1) ≡ Some (table_of t v)) }
    {
        Ok(Tree {
            n: words.len() as u32,
            source,
            rows: rows_of(alloc, words)?,
        })
    }

    /// Returns the part within a limit of the tree of a source in which the vertices have these words: a vertex with a greater
    /// distance has no row.
    ///
    /// It takes linear time, and reads the words once if few vertices are within the limit.
    pub fn of_words_within(
        alloc: Global,
        source: u32,
        words: &[Word<P>],
        limit: u64,
    ) -> Result<Tree<P>, AllocError>
        requires layout { is_layout P ≡ true }
        requires least { 1 ≤ length words.now }
        requires most { length words.now ≤ max_pred P }
        requires source_least { 1 ≤ source }
        requires source_most { source ≤ length words.now }
        requires preds { All (HasPredWithin (length words.now)) words.now }
        ensures tree { IfOk result (λ t. t ≡ tree_of source (map (up_to limit) words.now)) }
        ensures words { IfOk result (λ t. (v : ℕ) → 1 ≤ v → v ≤ t.n
            → slice_get (map (up_to limit) words.now) (v - 1) ≡ Some (table_of t v)) }
    {
        Ok(Tree {
            n: words.len() as u32,
            source,
            rows: rows_within(alloc, words, limit)?,
        })
    }

    /// Returns a tree that has no rows yet.
    pub fn bare(alloc: Global, n: u32, source: u32) -> Tree<P>
        requires layout { is_layout P ≡ true }
        requires least { 1 ≤ n }
        requires most { n ≤ max_pred P }
        requires source_least { 1 ≤ source }
        requires source_most { source ≤ n }
        ensures tree { result ≡ record { n = n; source = source; rows = [] } }
        ensures table { IsTable P result }
    {
        Tree {
            n,
            source,
            rows: Vec::new(alloc),
        }
    }

    /// Appends a row. Its vertex has a greater number than the vertices of the other rows.
    pub fn push_row(&mut self, vertex: u32, dist: u64, pred: u32) -> Result<(), AllocError>
        requires above { last_vertex self.old.rows < vertex }
        requires most { vertex ≤ self.old.n }
        requires dist { dist ≤ max_dist P }
        requires pred { pred ≤ self.old.n }
        ensures tree { IfOk result (λ u. self.new ≡ with_row self.old vertex dist pred) }
        ensures table { IfOk result (λ u. IsTable P self.new) }
    {
        self.rows.push((vertex, Word::pack(dist, pred)))?;
        Ok(())
    }

    /// Returns the vertex of the last row, or 0 if there are no rows.
    pub fn last(&self) -> u32
        ensures { result ≡ last_vertex self.now.rows }
    {
        match self.rows.last() {
            Some(row) => row.0,
            None => 0,
        }
    }

    /// Returns the number of vertices.
    pub fn n(&self) -> u32
        ensures n { result ≡ self.now.n }
        ensures table { IsTable P self.now }
    {
        self.n
    }

    /// Returns the source.
    pub fn source(&self) -> u32
        ensures source { result ≡ self.now.source }
        ensures table { IsTable P self.now }
    {
        self.source
    }

    /// Returns the reached vertices, by rising number, with their words.
    pub fn rows(&self) -> &[(u32, Word<P>)]
        ensures rows { result.now ≡ self.now.rows }
        ensures table { IsTable P self.now }
    {
        &self.rows
    }

    // Returns the word of a vertex, if it has a row.
    fn word_of_row(&self, vertex: u32) -> Option<Word<P>>
        ensures { MatchOption result (table_of self.now vertex ≡ Unreached)
            (λ word. table_of self.now vertex ≡ word) }
    {
        match self.rows.binary_search_by_key(
            &vertex,
            |row: &(u32, Word<P>)| -> u32
                ensures { result ≡ row.now.0 }
            { row.0 },
        ) {
            Ok(place) => Some(self.rows[place].1),
            Err(_) => None,
        }
    }

    /// Returns the word of a vertex.
    pub fn word(&self, vertex: u32) -> Word<P>
        requires least { 1 ≤ vertex }
        requires most { vertex ≤ self.now.n }
        ensures { result ≡ table_of self.now vertex }
    {
        // The proof below needs what the fields say about the layout of the words.
        let _ = &self.n;
        match self.word_of_row(vertex) {
            Some(word) => word,
            None => Word::unreached(),
        }
    }
}
