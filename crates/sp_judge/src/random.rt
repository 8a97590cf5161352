//! Random graphs, for comparing other engines with the plain program.
ghost use Rattle.std.specs.Prelude.{◌≡◌, ◌<◌, ◌≤◌, All, IfOk};
ghost use Rattle.sp_paths.specs.Paths.{IsVertex, IsArc};

use sp_graph::Graph;
use sp_paths::Arc;
use std::alloc::{AllocError, Global};

// The greatest number of vertices of a random graph.
const MOST_VERTICES: u32 = 2000;

// The greatest number of arcs of a dense graph.
const MOST_ARCS: u32 = 40_000;

/// A sequence of pseudo-random numbers: the upper bits of a linear congruential generator with D. Knuth's multiplier.
#[derive(Drop)]
pub struct Random {
    state: u64,
}

impl Random {
    /// Returns the sequence for `seed`. The same seed gives the same sequence.
    pub fn new(seed: u64) -> Random {
        Random { state: seed }
    }

    /// Returns the next number, from 0 up to, not including, `bound`.
    pub fn below(&mut self, bound: u32) -> u32
        requires { 0 < bound }
        ensures { result < bound }
    {
        self.state = self
            .state
            .wrapping_mul(6_364_136_223_846_793_005)
            .wrapping_add(1_442_695_040_888_963_407);
        ((self.state >> 32) as u32) % bound
    }

    /// Returns the next number, from 1 to `n`.
    pub fn up_to(&mut self, n: u32) -> u32
        requires { 1 ≤ n }
        ensures { IsVertex n result }
    {
        self.below(n) + 1
    }
}

/// The kinds of random graphs.
#[derive(Clone, Copy, Debug, PartialEq, Eq)]
pub enum GraphKind {
    /// Each vertex has two arcs on average.
    Sparse,
    /// Each vertex has arcs to half of the others, up to 40,000 arcs in all.
    Dense,
    /// Arcs are short, so that many walks have the same length.
    Ties,
    /// There are loops and parallel arcs.
    Parallel,
    /// The graph has parts that no arc joins.
    Parts,
    /// Long arcs join near vertices, so that distant vertices may be too far.
    Long,
}

// The parameters by which a graph is made.
#[derive(Clone, Copy)]
struct Shape {
    n: u32,
    arcs: u32,
    // The greatest length of an arc.
    longest: u32,
    // A head is one of this many vertices from the tail on, wrapping round from the last vertex to the first ..
    reach: u32,
    // .. unless it is in another part than the tail; each part has this many vertices.
    part: u32,
    ghost vertices: { (1 ≤ n) × (n ≤ 2000) },
    ghost lengths: { 1 ≤ longest },
    ghost heads: { 1 ≤ reach },
    ghost heads_are_vertices: { reach ≤ n },
    ghost parts: { 1 ≤ part },
}

// Returns the parameters of a graph of `n` vertices of this kind.
fn shape_of(kind: GraphKind, n: u32) -> Shape
    requires { (1 ≤ n) × (n ≤ 2000) }
    ensures { result.n ≡ n }
{
    let (arcs, longest, reach, part) = match kind {
        GraphKind::Sparse => (2 * n, 1000, n, n),
        GraphKind::Dense => ((n * n / 2).min(MOST_ARCS), 1000, n, n),
        GraphKind::Ties => (4 * n, 3, n, n),
        GraphKind::Parallel => (8 * n, 100, n.min(3), n),
        GraphKind::Parts => (3 * n, 1000, n, n / 4 + 1),
        GraphKind::Long => (4 * n, u32::MAX, n.min(5), n),
    };
    Shape {
        n,
        arcs,
        longest,
        reach,
        part,
    }
}

// Returns a random arc of such a graph.
fn random_arc(random: &mut Random, shape: Shape) -> Arc
    ensures { IsArc shape.n result }
{
    let tail = random.up_to(shape.n);
    let round = (tail - 1 + random.below(shape.reach)) % shape.n + 1;
    let is_near = (tail - 1) / shape.part == (round - 1) / shape.part;
    Arc {
        tail,
        head: if is_near { round } else { tail },
        len: random.up_to(shape.longest),
    }
}

// Returns all arcs of such a graph.
fn random_arcs(alloc: Global, random: &mut Random, shape: Shape) -> Result<Vec<Arc>, AllocError>
    ensures { IfOk result (λ arcs. All (IsArc shape.n) arcs.items) }
{
    let mut arcs = Vec::new(alloc);
    for _ in 0..shape.arcs {
        arcs.push(random_arc(random, shape))?;
    }
    Ok(arcs)
}

/// Returns a random graph of this kind with the given number of vertices.
pub fn random_graph(
    alloc: Global,
    random: &mut Random,
    kind: GraphKind,
    n: u32,
) -> Result<Graph, AllocError>
    requires { (1 ≤ n) × (n ≤ 2000) }
    ensures { IfOk result (λ graph. graph.n ≡ n) }
{
    let shape = shape_of(kind, n);
    let arcs = random_arcs(alloc, random, shape)?;
    Graph::from_arcs(alloc, n, arcs)
}
