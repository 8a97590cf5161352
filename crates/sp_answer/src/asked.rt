//! What is asked of a run.
ghost use Rattle.std.specs.Prelude.{◌≡◌, All, Any, MatchBool};
ghost use Rattle.sp_paths.specs.Paths.{IsVertex};
ghost use Rattle.sp_answer.specs.Run.{until_of};

use sp_graph::Graph;

/// How far a run goes.
#[derive(Clone, Copy)]
pub enum Until<'t> {
    /// Until all words are final.
    All,
    /// Until the words up to this distance are final.
    Limit(u64),
    /// Until the words of these targets are final.
    Targets(&'t [u32]),
}

/// What is asked of a run: the sources, in any order, and how far it goes.
#[derive(Clone, Copy)]
pub struct RunRequest<'s> {
    pub sources: &'s [u32],
    pub until: Until<'s>,
}

impl<'t> Until<'t> {
    /// Returns how far a run goes for this limit: without one, until all words are final.
    pub fn up_to(limit: Option<u64>) -> Until<'t>
        ensures { result ≡ until_of limit }
    {
        match limit {
            Some(limit) => Until::Limit(limit),
            None => Until::All,
        }
    }

    /// Returns the targets that are asked for, if there are any. They only guide the schedule of a run, so the contract promises
    /// nothing about them.
    pub fn targets(self) -> &'t [u32] {
        match self {
            Until::Targets(targets) => targets,
            _ => &[],
        }
    }

    /// Returns the greatest distance that is asked for. The contract promises nothing about it either.
    pub fn limit(self) -> u64 {
        match self {
            Until::Limit(limit) => limit,
            _ => u64::MAX,
        }
    }
}

/// Returns whether each of these is a vertex of the graph.
pub fn are_vertices(graph: &Graph, list: &[u32]) -> bool
    ensures { MatchBool result (All (IsVertex graph.now.n) list.now)
        (Any (λ v. IsVertex graph.now.n v → ⊥) list.now) }
{
    for vertex in list {
        if !graph.has_vertex(*vertex) {
            return false;
        }
    }
    true
}
