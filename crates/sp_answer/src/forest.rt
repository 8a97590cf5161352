//! Forests as tables of rows.
ghost use Rattle.std.specs.Prelude.{◌≡◌, ◌<◌, ◌≤◌, [], length, true, None, Some, IfOk, MatchOption};
ghost use Rattle.sp_word.specs.Word.{is_layout, max_dist, max_pred};
ghost use Rattle.sp_paths.specs.Paths.{IsVertex, word_at};
ghost use Rattle.sp_paths.specs.Roots.{FallsBack};
ghost use Rattle.sp_answer.specs.ForestTable.{IsForestTable, last_vertex, row_in, root_of, table_of, with_row};
ghost use Rattle.sp_answer.specs.Rooted.{HoldsWords, HoldsRoots};

use crate::rooting::roots_of;
use crate::rows::rooted_rows_of;
use sp_word::Word;
use std::alloc::{AllocError, Global};
use std::marker::Model;

/// A forest of shortest paths from several sources: the number of vertices, and a row for each vertex that is reached.
#[derive(Drop)]
pub struct Forest<const P: u32> {
    n: u32,
    // Each reached vertex with its word and its root.
    rows: Vec<(u32, Word<P>, u32)>,
}

impl<const P: u32> Model for Forest<P> {
    ghost use Rattle.sp_answer.specs.ForestTable.{ForestTable, IsForestTable};

    ghost Value = { ForestTable };

    ghost view = { λ f. record { n = f.n; rows = f.rows.items } };

    ghost invariant = { λ f. IsForestTable P (record { n = f.n; rows = f.rows.items }) };
}

impl<const P: u32> Forest<P> {
    /// Returns the forest in which the vertices have these words. Their chains of predecessors must end.
    pub fn of_words(alloc: Global, words: &[Word<P>]) -> Result<Forest<P>, AllocError>
        requires layout { is_layout P ≡ true }
        requires most { length words.now ≤ max_pred P }
        requires falls { FallsBack (length words.now) (word_at words.now) }
        ensures n { IfOk result (λ forest. forest.n ≡ length words.now) }
        ensures words { IfOk result (HoldsWords words.now) }
        ensures roots { IfOk result (HoldsRoots words.now) }
    {
        let roots = roots_of(alloc, words)?;
        let rows = rooted_rows_of(alloc, words, roots.as_slice())?;
        Ok(Forest {
            n: words.len() as u32,
            rows,
        })
    }

    /// Returns a forest that has no rows yet.
    pub fn bare(alloc: Global, n: u32) -> Forest<P>
        requires layout { is_layout P ≡ true }
        requires most { n ≤ max_pred P }
        ensures forest { result ≡ record { n = n; rows = [] } }
        ensures table { IsForestTable P result }
    {
        Forest {
            n,
            rows: Vec::new(alloc),
        }
    }

    /// Appends a row. Its vertex has a greater number than the vertices of the other rows.
    pub fn push_row(
        &mut self,
        vertex: u32,
        dist: u64,
        pred: u32,
        root: u32,
    ) -> Result<(), AllocError>
        requires above { last_vertex self.old.rows < vertex }
        requires most { vertex ≤ self.old.n }
        requires dist { dist ≤ max_dist P }
        requires pred { pred ≤ self.old.n }
        requires root { IsVertex self.old.n root }
        ensures forest { IfOk result (λ u. self.new ≡ with_row self.old vertex dist pred root) }
        ensures table { IfOk result (λ u. IsForestTable P self.new) }
    {
        self.rows.push((vertex, Word::pack(dist, pred), root))?;
        Ok(())
    }

    /// Returns the vertex of the last row, or 0 if there are no rows.
    pub fn last(&self) -> u32
        ensures { result ≡ last_vertex self.now.rows }
    {
        match self.rows.last() {
            Some(row) => row.0,
            None => 0,
        }
    }

    /// Returns the number of vertices.
    pub fn n(&self) -> u32
        ensures n { result ≡ self.now.n }
        ensures table { IsForestTable P self.now }
    {
        self.n
    }

    /// Returns the reached vertices, by rising number, each with its word and its root.
    pub fn rows(&self) -> &[(u32, Word<P>, u32)]
        ensures rows { result.now ≡ self.now.rows }
        ensures table { IsForestTable P self.now }
    {
        &self.rows
    }

    // Returns the row of a vertex, if it has one.
    fn row(&self, vertex: u32) -> Option<(u32, Word<P>, u32)>
        ensures { MatchOption result (row_in self.now.rows vertex ≡ None)
            (λ row. row_in self.now.rows vertex ≡ Some row) }
    {
        match self.rows.binary_search_by_key(
            &vertex,
            |row: &(u32, Word<P>, u32)| -> u32
                ensures { result ≡ row.now.0 }
            { row.0 },
        ) {
            Ok(place) => Some(self.rows[place]),
            Err(_) => None,
        }
    }

    /// Returns the word of a vertex: its least distance from any of the sources, and the smallest vertex before it on a walk of
    /// that length.
    pub fn word(&self, vertex: u32) -> Word<P>
        requires { IsVertex self.now.n vertex }
        ensures { result ≡ table_of self.now vertex }
    {
        // The proof below needs what the fields say about the layout of the words.
        let _ = &self.n;
        match self.row(vertex) {
            Some(row) => row.1,
            None => Word::unreached(),
        }
    }

    /// Returns the root of a vertex: the source at which its chain of predecessors begins. An unreached vertex has none.
    pub fn root(&self, vertex: u32) -> Option<u32>
        requires { IsVertex self.now.n vertex }
        ensures { result ≡ root_of self.now vertex }
    {
        match self.row(vertex) {
            Some(row) => Some(row.2),
            None => None,
        }
    }
}
