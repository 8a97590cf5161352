//! The answers to questions about a graph.
ghost use Rattle.std.specs.Prelude.{◌≡◌};

/// How a call ends. `BadArc`, `Wrong` and `NoGraph` are for callers that take arcs, check a tree or keep a graph.
#[derive(Clone, Copy, Debug, PartialEq, Eq)]
pub enum Outcome {
    /// Everything that was asked for is written.
    Done,
    /// The number of vertices is 0 or too great, or a slice has fewer than one place for each vertex of each source.
    BadSize,
    /// The width of a bucket is greater than the greatest distance.
    BadDelta,
    /// The arc at this index is invalid.
    BadArc(usize),
    /// The source at this index isn't a vertex.
    NoSuchVertex(usize),
    /// The least length of this vertex is above the greatest distance.
    TooFar(u32),
    /// An allocation failed.
    Memory,
    /// The slices hold a different tree, from this vertex on.
    Wrong(u32),
    /// The place keeps no graph.
    NoGraph,
    /// The limit is greater than the greatest distance.
    BadLimit,
}

/// How many sources have their trees, and why no more have.
#[derive(Clone, Copy, Debug, PartialEq, Eq)]
pub struct BatchOutcome {
    pub done: usize,
    pub told: Outcome,
}

impl BatchOutcome {
    /// Returns this reason, with no source done.
    pub fn none(told: Outcome) -> BatchOutcome
        ensures { result ≡ record { told = told; done = 0 } }
    {
        BatchOutcome { done: 0, told }
    }
}

/// How a call that lists a part ends, and the number of vertices listed. If the part isn't listed, the number is 0, unless there
/// are too few places: then it is the number of places needed.
#[derive(Clone, Copy, Debug, PartialEq, Eq)]
pub struct ListingOutcome {
    pub told: Outcome,
    pub count: usize,
}

impl ListingOutcome {
    /// Returns this reason, with no part listed.
    pub fn none(told: Outcome) -> ListingOutcome
        ensures { result ≡ record { told = told; count = 0 } }
    {
        ListingOutcome { told, count: 0 }
    }
}
