//! Graphs by rows.
ghost use Rattle.std.specs.Prelude.{◌≡◌, ◌≤◌, ◌<◌, ◌^◌, ◌↔◌, length, All, IfOk, IfSome, IsTrue};
ghost use Rattle.std.specs.List.Sorted.{IsPermutation};
ghost use Rattle.sp_paths.specs.Paths.{IsVertex, IsArc, IsGraph};
ghost use Rattle.sp_paths.specs.Rows.{row_of};
ghost use Rattle.sp_graph.specs.Order.{IsInOrder};
ghost use Rattle.sp_graph.specs.Longest.{IsLongest};
ghost use Rattle.sp_graph.specs.Mean.{mean_length};
ghost use Rattle.sp_graph.specs.Index.{IsRowAt};
ghost use Rattle.sp_graph.specs.RowEnds.{AreRowEnds};
ghost use Rattle.sp_graph.specs.Placed.{arcs_in};

use crate::lengths::Lengths;
use crate::nearness::lead_far;
use crate::ordering::put_in_order;
use crate::place::{Few, Place};
use crate::places::{few_of, place_rows};
use crate::sharing::put_in_order_by;
use sp_paths::Arc;
use sp_word::Workers;
use std::alloc::{AllocError, Global};
use std::marker::Model;
use std::thread::Threads;

/// A graph with its arcs sorted by tail, then by head, then by length, so that the arcs that leave a vertex are one
/// slice, its row. Parallel arcs and loops are kept, each as often as it was given.
///
/// Contracts see the number of vertices and the sorted arcs.
#[derive(Drop)]
pub struct Graph {
    n: u32,
    // The arcs, sorted.
    arcs: Vec<Arc>,
    // The row of vertex v ends at the index `ends[v]`, where the next row begins.
    ends: Vec<u32>,
    lengths: Lengths,
    // The arcs of each vertex that has at most four, side by side, if the graph was asked to keep them so.
    places: Option<Vec<Place>>,
}

/// The row ends and the lengths of sorted arcs, from which `Graph::from_rows` makes a graph.
#[derive(Drop)]
pub struct RowEnds {
    /// The row of vertex `v` ends at the index `ends[v]`, where the next row begins; row 0, which belongs to no vertex, ends at
    /// 0.
    pub ends: Vec<u32>,
    /// The greatest length of an arc, and the sum of all lengths.
    pub lengths: Lengths,
}

impl Model for Graph {
    ghost use Rattle.sp_paths.specs.Paths.{Graph as Network};

    ghost Value = { Network };

    ghost use Rattle.sp_graph.specs.GraphView.{graph_of, IsStored};

    ghost view = { graph_of };

    ghost invariant = { IsStored };
}

impl Graph {
    /// Builds the graph of `n` vertices with these arcs, each as often as it is given, from a copy of them. `from_arcs` does the
    /// same without a copy.
    pub fn build(alloc: Global, n: u32, arcs: &[Arc]) -> Result<Graph, AllocError>
        requires some { 1 ≤ n }
        requires arcs { All (IsArc n) arcs.now }
        ensures n { IfOk result (λ graph. graph.n ≡ n) }
        ensures arcs { IfOk result (λ graph. IsPermutation arcs.now graph.arcs) }
        ensures order { IfOk result (λ graph. IsInOrder graph.arcs) }
    {
        let arcs = arcs.to_vec(alloc)?;
        Graph::from_arcs(alloc, n, arcs)
    }

    /// Builds the graph of `n` vertices with these arcs, each as often as it is given.
    ///
    /// Arcs that come by rising tail stay where they are. Others are sorted within their list, one range of tails after the
    /// other, through a copy of the range's arcs. This takes linear time, except that sorting a row of `l` arcs that is out of
    /// order takes `l log l`, and sorting all `m` arcs takes `m log m` if there is no memory for the copy of a range. The call
    /// fails if there is no memory for `n + 1` indices and some for the ranges, or if there are 2^32 arcs or more.
    #[tactic(auto, using(std::proofs::lemmas::List::Sorted::length_permutation))]
    pub fn from_arcs(alloc: Global, n: u32, arcs: Vec<Arc>) -> Result<Graph, AllocError>
        requires some { 1 ≤ n }
        requires arcs { All (IsArc n) arcs.items }
        ensures n { IfOk result (λ graph. graph.n ≡ n) }
        ensures arcs { IfOk result (λ graph. IsPermutation arcs.items graph.arcs) }
        ensures order { IfOk result (λ graph. IsInOrder graph.arcs) }
    {
        if arcs.len() > u32::MAX as usize {
            return Err(AllocError);
        }
        let all = put_in_order(alloc, n, arcs)?;
        Ok(Graph {
            n,
            arcs: all.arcs,
            ends: all.ends,
            lengths: all.lengths,
            places: None,
        })
    }

    /// Builds the same graph as `from_arcs`, on as many threads as there are workers, or on fewer if there are fewer processors
    /// or few arcs. It fails whenever `from_arcs` does.
    #[tactic(auto, using(std::proofs::lemmas::List::Sorted::length_permutation))]
    pub fn from_arcs_by<R: Threads + Sync>(
        rt: &R,
        alloc: Global,
        n: u32,
        arcs: Vec<Arc>,
        workers: Workers,
    ) -> Result<Graph, AllocError>
        requires some { 1 ≤ n }
        requires arcs { All (IsArc n) arcs.items }
        ensures n { IfOk result (λ graph. graph.n ≡ n) }
        ensures arcs { IfOk result (λ graph. IsPermutation arcs.items graph.arcs) }
        ensures order { IfOk result (λ graph. IsInOrder graph.arcs) }
    {
        if arcs.len() > u32::MAX as usize {
            return Err(AllocError);
        }
        let all = put_in_order_by(rt, alloc, n, arcs, workers)?;
        Ok(Graph {
            n,
            arcs: all.arcs,
            ends: all.ends,
            lengths: all.lengths,
            places: None,
        })
    }

    /// Returns the graph of `n` vertices with these arcs, which are sorted already, and with the given ends of their rows. It
    /// copies nothing, reads no arc and allocates no memory.
    pub fn from_rows(n: u32, arcs: Vec<Arc>, rows: RowEnds) -> Graph
        requires some { 1 ≤ n }
        requires few { length arcs.items < 2 ^ 32 }
        requires arcs { All (IsArc n) arcs.items }
        requires rows { AreRowEnds n arcs.items rows }
        ensures n { result.n ≡ n }
        ensures arcs { result.arcs ≡ arcs.items }
    {
        let RowEnds { ends, lengths } = rows;
        Graph {
            n,
            arcs,
            ends,
            lengths,
            places: None,
        }
    }

    /// Returns the same graph, which also keeps the arcs of each vertex that has at most four of them in four places side by
    /// side. These take 32 bytes a vertex. Searches then find a vertex's arcs sooner, which pays from the second search on. If
    /// there is no memory for the places, the graph stays as it is.
    pub fn with_places(self, alloc: Global) -> Graph
        ensures { result ≡ self }
    {
        let places = match place_rows(alloc, &self) {
            Ok(places) => Some(places),
            Err(AllocError) => None,
        };
        let Graph {
            n,
            arcs,
            ends,
            lengths,
            ..
        } = self;
        Graph {
            n,
            arcs,
            ends,
            lengths,
            places,
        }
    }

    /// Returns the number of vertices. They are numbered from 1.
    pub fn n(&self) -> u32
        ensures n { result ≡ self.now.n }
        ensures some { 1 ≤ self.now.n }
        ensures graph { IsGraph self.now }
    {
        self.n
    }

    /// Returns whether the graph has this vertex: whether the number is at least 1 and at most `n`.
    pub fn has_vertex(&self, vertex: u32) -> bool
        ensures { IsTrue result ↔ IsVertex self.now.n vertex }
    {
        1 <= vertex && vertex <= self.n
    }

    /// Returns the number of arcs.
    pub fn m(&self) -> usize
        ensures { result ≡ length self.now.arcs }
    {
        self.arcs.len()
    }

    /// Returns the greatest length of an arc, or 0 if there is no arc.
    pub fn longest(&self) -> u32
        ensures { IsLongest self.now.arcs result }
    {
        self.lengths.longest
    }

    /// Returns the mean length of an arc: the sum of all lengths divided by their number, rounded down; or 1 if there is no arc.
    /// It takes constant time, since the sum is known.
    pub fn mean_length(&self) -> u64
        ensures mean { result ≡ mean_length self.now.arcs }
        ensures some { 1 ≤ result }
    {
        self.lengths.mean(self.arcs.len())
    }

    /// Returns whether many arcs lead far away from their tails, so that reading the data of one vertex after the other misses
    /// the caches. It samples some arcs. The contract promises nothing about the result, which affects only the running time.
    pub fn has_far_heads(&self) -> bool {
        lead_far(&self.arcs)
    }

    /// Returns all arcs, sorted.
    pub fn arcs(&self) -> &[Arc]
        ensures arcs { result.now ≡ self.now.arcs }
        ensures graph { IsGraph self.now }
        ensures order { IsInOrder self.now.arcs }
    {
        self.arcs.as_slice()
    }

    /// Returns the sorted arcs, in the graph's own list. It copies nothing.
    pub fn into_arcs(self) -> Vec<Arc>
        ensures { result.items ≡ self.arcs }
    {
        let Graph { arcs, .. } = self;
        arcs
    }

    /// Returns the arcs that leave `v`, by rising head, then by rising length. It takes two look-ups.
    pub fn row(&self, v: u32) -> &[Arc]
        requires { IsVertex self.now.n v }
        ensures row { result.now ≡ row_of self.now.arcs v }
        ensures arcs { All (IsArc self.now.n) result.now }
    {
        let (low, high) = self.bounds(v);
        &self.arcs[low..high]
    }

    /// Returns whether the graph keeps rows in places. The contract promises nothing about the result, which affects only the
    /// running time.
    pub fn has_places(&self) -> bool {
        self.places.is_some()
    }

    /// Returns whether an arc leaves `v`. It takes one look-up if the graph keeps rows in places, and two if it doesn't.
    pub fn has_arcs(&self, v: u32) -> bool
        requires { IsVertex self.now.n v }
        ensures { IsTrue result ↔ 0 < length (row_of self.now.arcs v) }
    {
        match &self.places {
            Some(places) => few_of(places, v).first.head != 0,
            None => !self.row(v).is_empty(),
        }
    }

    /// Returns the places of `v`, if they hold all arcs that leave it, and there is one. It takes one look-up.
    pub fn few(&self, v: u32) -> Option<Few>
        requires { IsVertex self.now.n v }
        ensures row { IfSome result (λ few. arcs_in v few ≡ row_of self.now.arcs v) }
        ensures some { IfSome result (λ few. 1 ≤ few.first.len) }
        ensures arcs { IfSome result (λ few. All (IsArc self.now.n) (arcs_in v few)) }
    {
        let Some(places) = &self.places else {
            return None;
        };
        let few = few_of(places, v);
        if few.first.len == 0 {
            return None;
        }
        Some(few)
    }

    // Returns where the row of `v` begins and ends in the list of arcs.
    fn bounds(&self, v: u32) -> (usize, usize)
        requires { IsVertex self.now.n v }
        ensures { IsRowAt self.now v result.0 result.1 }
    {
        let (low, high) = (self.ends[(v - 1) as usize], self.ends[v as usize]);
        (low as usize, high as usize)
    }
}
