//! Rows with light arcs before heavy ones.
ghost use Rattle.std.specs.Prelude.{◌≡◌, ◌≤◌, ◌++◌, length, slice_range, All, IfOk, OnOk};
ghost use Rattle.sp_paths.specs.Paths.{IsVertex, IsArc, IsGraph};
ghost use Rattle.sp_paths.specs.Rows.{light_of, heavy_of};
ghost use Rattle.sp_graph.specs.RowsValue.{light_among, heavy_among, light_then_heavy};

use crate::graph::Graph;
use sp_paths::Arc;
use std::alloc::{AllocError, Global};
use std::marker::Model;

// Where the light arcs of a row begin in the list of all arcs, and where its heavy arcs begin.
#[derive(Clone, Copy)]
struct Cut {
    light: usize,
    heavy: usize,
}

/// The rows of a graph, each with its light arcs, of length at most `delta`, before its heavy arcs. (Meyer and Sanders,
/// "Delta-stepping: a parallelizable shortest path algorithm", Journal of Algorithms 49 (2003), section 2.)
///
/// Contracts see the graph and `delta`.
#[derive(Drop)]
pub struct Rows {
    n: u32,
    delta: u64,
    // The rows by vertex, each with light arcs before heavy ones, both in the order of the row.
    arcs: Vec<Arc>,
    // The cut of vertex v is at v - 1; the last cut is the end of the last row.
    cuts: Vec<Cut>,
}

impl Model for Rows {
    ghost use Rattle.sp_graph.specs.RowsValue.{Split};

    ghost Value = { Split };

    ghost use Rattle.sp_graph.specs.RowsView.{split_of, IsKept};

    ghost view = { split_of };

    ghost invariant = { IsKept };
}

impl Rows {
    /// Splits the rows of `graph` at `delta`. It takes linear time, and fails if there is no memory for a copy of the
    /// arcs and for `n + 1` cuts.
    pub fn split(alloc: Global, graph: &Graph, delta: u64) -> Result<Rows, AllocError>
        ensures graph { IfOk result (λ rows. rows.graph ≡ graph.now) }
        ensures delta { IfOk result (λ rows. rows.delta ≡ delta) }
    {
        let n = graph.n();
        let mut arcs = Vec::with_capacity(alloc, graph.arcs().len())?;
        let mut cuts = Vec::with_capacity(alloc, n as usize + 1)?;
        for index in 0..n {
            let cut = push_row(&mut arcs, graph.row(index + 1), delta)?;
            cuts.push(cut)?;
        }
        let end = arcs.len();
        cuts.push(Cut {
            light: end,
            heavy: end,
        })?;
        Ok(Rows {
            n,
            delta,
            arcs,
            cuts,
        })
    }

    /// Returns the number of vertices.
    pub fn n(&self) -> u32
        ensures n { result ≡ self.now.graph.n }
        ensures some { 1 ≤ self.now.graph.n }
        ensures graph { IsGraph self.now.graph }
    {
        self.n
    }

    /// Returns the greatest length of a light arc.
    pub fn delta(&self) -> u64
        ensures { result ≡ self.now.delta }
    {
        self.delta
    }

    /// Returns the arcs of length at most `delta` that leave `v`, in the order of its row.
    pub fn light(&self, v: u32) -> &[Arc]
        requires { IsVertex self.now.graph.n v }
        ensures row { result.now ≡ light_of self.now.graph.arcs self.now.delta v }
        ensures arcs { All (IsArc self.now.graph.n) result.now }
    {
        self.parts(v).0
    }

    /// Returns the arcs of length above `delta` that leave `v`, in the order of its row.
    pub fn heavy(&self, v: u32) -> &[Arc]
        requires { IsVertex self.now.graph.n v }
        ensures row { result.now ≡ heavy_of self.now.graph.arcs self.now.delta v }
        ensures arcs { All (IsArc self.now.graph.n) result.now }
    {
        self.parts(v).1
    }

    // Returns the light arcs of `v` and its heavy arcs.
    fn parts(&self, v: u32) -> (&[Arc], &[Arc])
        requires { IsVertex self.now.graph.n v }
        ensures light { result.0.now ≡ light_of self.now.graph.arcs self.now.delta v }
        ensures heavy { result.1.now ≡ heavy_of self.now.graph.arcs self.now.delta v }
        ensures light_arcs { All (IsArc self.now.graph.n) result.0.now }
        ensures heavy_arcs { All (IsArc self.now.graph.n) result.1.now }
    {
        let cut = self.cuts[(v - 1) as usize];
        let end = self.cuts[v as usize].light;
        let light = part(&self.arcs, cut.light, cut.heavy);
        let heavy = part(&self.arcs, cut.heavy, end);
        (light, heavy)
    }
}

// Returns the arcs from `low` up to, not including, `high`.
fn part(arcs: &[Arc], low: usize, high: usize) -> &[Arc]
    requires rising { low ≤ high }
    requires within { high ≤ length arcs.now }
    ensures { result.now ≡ slice_range arcs.now low high }
{
    &arcs[low..high]
}

// Appends a row with its light arcs before its heavy arcs, and returns where the two begin.
fn push_row(arcs: &mut Vec<Arc>, row: &[Arc], delta: u64) -> Result<Cut, AllocError>
    ensures row { OnOk result (arcs.new.items ≡ arcs.old.items ++ light_then_heavy delta row.now) }
    ensures light { IfOk result (λ cut. cut.light ≡ length arcs.old.items) }
    ensures heavy { IfOk result (λ cut.
        cut.heavy ≡ length (arcs.old.items ++ light_among delta row.now)) }
{
    let light = arcs.len();
    push_light(arcs, row, delta)?;
    let heavy = arcs.len();
    push_heavy(arcs, row, delta)?;
    Ok(Cut { light, heavy })
}

fn push_light(arcs: &mut Vec<Arc>, row: &[Arc], delta: u64) -> Result<(), AllocError>
    ensures { OnOk result (arcs.new.items ≡ arcs.old.items ++ light_among delta row.now) }
{
    for arc in row {
        if arc.len as u64 <= delta {
            arcs.push(*arc)?;
        }
    }
    Ok(())
}

fn push_heavy(arcs: &mut Vec<Arc>, row: &[Arc], delta: u64) -> Result<(), AllocError>
    ensures { OnOk result (arcs.new.items ≡ arcs.old.items ++ heavy_among delta row.now) }
{
    for arc in row {
        if delta < arc.len as u64 {
            arcs.push(*arc)?;
        }
    }
    Ok(())
}
