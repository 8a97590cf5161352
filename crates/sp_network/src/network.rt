//! The network spelled by a graph's file, with the ends of its rows if the file's form gives them.
ghost use Rattle.std.specs.Prelude.{◌≡◌, ◌<◌, ◌≤◌, ◌^◌, length, All, IfOk};
ghost use Rattle.std.specs.List.Sorted.{IsPermutation};
ghost use Rattle.sp_paths.specs.Paths.{IsArc};
ghost use Rattle.sp_graph.specs.Order.{IsInOrder};
ghost use Rattle.sp_graph.specs.RowEnds.{AreRowEnds};
ghost use Rattle.sp_dimacs.specs.Graph.{graph_of};
ghost use Rattle.sp_network.specs.Network.{directed};
ghost use Rattle.sp_network.specs.NetworkView.{spelled_by};

use crate::directions::Direction;
use sp_dimacs::GrFile;
use sp_graph::{Graph, RowEnds};
use sp_packed::PackedFile;
use sp_word::Workers;
use std::alloc::{AllocError, Global};
use std::marker::{Model, Sync};
use std::thread::Threads;

/// The network of a graph's file, and where the rows of its arcs end, if the file gives that.
///
/// Contracts see the number of vertices and the arcs.
#[derive(Drop)]
pub struct Network {
    file: GrFile,
    rows: Option<RowEnds>,
}

impl Model for Network {
    ghost use Rattle.sp_dimacs.specs.declared.graphs.GrFile.{GrFile as Spelled};

    ghost Value = { Spelled };

    ghost use Rattle.sp_network.specs.NetworkView.{file_of, KnowsRows};

    ghost view = { file_of };

    ghost invariant = { KnowsRows };
}

impl Network {
    /// Returns the network spelled by lines. Nothing is known of its rows.
    pub fn of_lines(file: GrFile) -> Network
        ensures { result ≡ file }
    {
        Network { file, rows: None }
    }

    /// Returns the network spelled by words.
    pub fn of_words(file: PackedFile) -> Network
        requires { AreRowEnds file.n file.arcs.items file.rows }
        ensures { result ≡ spelled_by file }
    {
        Network {
            file: GrFile {
                n: file.n,
                arcs: file.arcs,
            },
            rows: Some(file.rows),
        }
    }

    /// Returns the number of vertices.
    pub fn n(&self) -> u32
        ensures { result ≡ self.now.n }
    {
        self.file.n
    }

    /// Returns whether the ends of the rows are known, so that `build` takes no time. The contract promises nothing about the
    /// result, which affects only the time.
    pub fn knows_rows(&self) -> bool {
        self.rows.is_some()
    }

    /// Returns only the number of vertices and the arcs.
    pub fn into_file(self) -> GrFile
        ensures { result ≡ self }
    {
        let Network { file, rows: _ } = self;
        file
    }

    // Returns the network with its arcs led in this direction, in place. Nothing is known of their rows.
    pub(crate) fn lead<R: Threads + Sync>(
        self,
        rt: &R,
        direction: Direction,
        workers: Workers,
    ) -> Result<Network, AllocError>
        ensures { IfOk result (λ made. graph_of made ≡ directed direction (graph_of self)) }
    {
        let mut network = self;
        network.rows = None;
        direction.lead(rt, &mut network.file.arcs, workers)?;
        Ok(network)
    }

    /// Builds the graph of the network, as `Graph::from_arcs_by` does. If its rows are known, it copies nothing, looks at no arc
    /// and allocates no memory.
    pub fn build<R: Threads + Sync>(
        self,
        rt: &R,
        alloc: Global,
        workers: Workers,
    ) -> Result<Graph, AllocError>
        requires some { 1 ≤ self.n }
        requires few { length self.arcs.items < 2 ^ 32 }
        requires arcs { All (IsArc self.n) self.arcs.items }
        ensures n { IfOk result (λ graph. graph.n ≡ self.n) }
        ensures arcs { IfOk result (λ graph. IsPermutation self.arcs.items graph.arcs) }
        ensures order { IfOk result (λ graph. IsInOrder graph.arcs) }
    {
        let Network { file, rows } = self;
        match rows {
            Some(rows) => Ok(Graph::from_rows(file.n, file.arcs, rows)),
            None => Graph::from_arcs_by(rt, alloc, file.n, file.arcs, workers),
        }
    }
}
