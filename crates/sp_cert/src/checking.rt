//! The checks of a tree and of a forest.
ghost use Rattle.std.specs.Prelude.{◌≡◌, ◌≤◌, ◌↔◌, true, length, IsTrue, IfOk, IfErr, OnOk, IfSome, Some};
ghost use Rattle.sp_word.specs.Word.{is_layout, max_dist, max_pred};
ghost use Rattle.sp_paths.specs.Paths.{IsGraph, word_at};
ghost use Rattle.sp_answer.specs.Table.{IsTable};
ghost use Rattle.sp_answer.specs.ForestTable.{IsForestTable};
ghost use Rattle.sp_cert.specs.Rules.{IsForestOf, IsCounted};
ghost use Rattle.sp_cert.specs.Faults.{IsFirstOf, FaultOfWords};
ghost use Rattle.sp_cert.specs.Certificate.{IsCertified, IsCertifiedWithin, TellsFault, TellsFaultUpTo, TellsForestFault, FailsOfTree, FailsOfForest, answer_of, wrong_size};
ghost use Rattle.sp_cert.specs.declared.checking.CheckError.TheVariants.{Memory};

use crate::arcs::first_of_arcs;
use crate::fault::{BrokenRule, earlier};
use crate::forests::{count_of_sources, first_of_roots, words_of_forest};
use crate::rule::Rule;
use crate::sources::SourceRule;
use crate::vertices::first_of_vertices;
use crate::words_of_tree::words_of;
use sp_answer::{Forest, Tree};
use sp_graph::Graph;
use sp_word::Word;
use std::alloc::{AllocError, Global};
use std::thread::Threads;
use thiserror::Error;

/// Why a tree or a forest is not certified.
#[derive(Clone, Copy, Debug, PartialEq, Eq, Error)]
pub enum CheckError {
    /// The lowest vertex at which a rule fails, and the lowest rule that fails there. For the size rule the vertex is 0.
    #[error("rule {rule} fails at vertex {vertex}")]
    Fault { vertex: u32, rule: Rule },
    /// There was no memory for the words of the vertices.
    #[error("memory")]
    Memory,
}

impl From<AllocError> for CheckError {
    ghost from_gives = { λ _ error. error ≡ Memory };

    fn from(_error: AllocError) -> CheckError {
        CheckError::Memory
    }
}

// Returns the earliest fault of the words, except for faults of roots.
fn first_of_words<const P: u32, R: Threads + Sync>(
    rt: &R,
    graph: &Graph,
    words: &[Word<P>],
    sources: SourceRule,
    limit: Option<u64>,
) -> Option<BrokenRule>
    requires layout { is_layout P ≡ true }
    requires size { length words.now ≡ graph.now.n }
    requires most { graph.now.n ≤ max_pred P }
    ensures { IsFirstOf
        (FaultOfWords graph.now (max_dist P) sources limit (word_at words.now)) result }
{
    let of_arcs = first_of_arcs(rt, words, limit, graph.arcs());
    let of_vertices = first_of_vertices(rt, graph, words, sources, limit);
    earlier(of_arcs, of_vertices)
}

// Returns the fault of wrong sizes.
fn wrong_size() -> Option<BrokenRule>
    ensures { result ≡ wrong_size }
{
    Some(BrokenRule {
        vertex: 0,
        rule: Rule::Size,
    })
}

// Returns the earliest fault of a tree.
fn first_of_tree<const P: u32, R: Threads + Sync>(
    rt: &R,
    alloc: Global,
    graph: &Graph,
    tree: &Tree<P>,
    limit: Option<u64>,
) -> Result<Option<BrokenRule>, AllocError>
    ensures first { IfOk result (IsFirstOf (FailsOfTree P limit graph.now tree.now)) }
    ensures graph { IsGraph graph.now }
    ensures table { IsTable P tree.now }
{
    if tree.n() != graph.n() {
        return Ok(wrong_size());
    }
    let source = SourceRule::One(tree.source());
    let words = words_of(alloc, tree)?;
    Ok(first_of_words(rt, graph, &words, source, limit))
}

// Returns whether the numbers of vertices and of sources are right.
fn is_counted<const P: u32>(graph: &Graph, forest: &Forest<P>, count: u32) -> bool
    ensures counted { IsTrue result ↔ IsCounted graph.now forest.now count }
    ensures graph { IsGraph graph.now }
    ensures table { IsForestTable P forest.now }
{
    forest.n() == graph.n() && count_of_sources(forest) == count as usize
}

// Returns the earliest fault of a forest.
fn first_of_forest<const P: u32, R: Threads + Sync>(
    rt: &R,
    alloc: Global,
    graph: &Graph,
    forest: &Forest<P>,
    count: u32,
    limit: Option<u64>,
) -> Result<Option<BrokenRule>, AllocError>
    ensures first { IfOk result (IsFirstOf (FailsOfForest P count limit graph.now forest.now)) }
    ensures graph { IsGraph graph.now }
    ensures table { IsForestTable P forest.now }
{
    if !is_counted(graph, forest, count) {
        return Ok(wrong_size());
    }
    let words = words_of_forest(alloc, forest)?;
    let of_words = first_of_words(rt, graph, &words, SourceRule::WithoutPred, limit);
    let of_roots = first_of_roots(rt, forest);
    Ok(earlier(of_words, of_roots))
}

// Returns the result of a check, given the earliest fault, if there is one.
fn told(first: Option<BrokenRule>) -> Result<(), CheckError>
    ensures { result ≡ answer_of first }
{
    match first {
        Some(BrokenRule { vertex, rule }) => Err(CheckError::Fault { vertex, rule }),
        None => Ok(()),
    }
}

/// Checks whether the tree is the shortest-path tree of its source in the graph, with no vertex too far.
///
/// It takes one pass over the arcs, and one binary search in a row for each reached vertex, on all processors. It allocates 8
/// bytes for each vertex, and returns `Memory` only if that allocation fails.
pub fn check<const P: u32, R: Threads + Sync>(
    rt: &R,
    alloc: Global,
    graph: &Graph,
    tree: &Tree<P>,
) -> Result<(), CheckError>
    ensures yes { OnOk result (IsCertified P graph.now tree.now) }
    ensures no { IfErr result (TellsFault P graph.now tree.now) }
    ensures exactly { IsCertified P graph.now tree.now → IfErr result (λ error. error ≡ Memory) }
{
    told(first_of_tree(rt, alloc, graph, tree, None)?)
}

/// Checks whether the tree is the part of the shortest-path tree of its source within a distance.
///
/// It takes as much time and memory as `check`.
pub fn check_within<const P: u32, R: Threads + Sync>(
    rt: &R,
    alloc: Global,
    graph: &Graph,
    tree: &Tree<P>,
    limit: u64,
) -> Result<(), CheckError>
    requires { limit ≤ max_dist P }
    ensures yes { OnOk result (IsCertifiedWithin limit graph.now tree.now) }
    ensures no { IfErr result (TellsFaultUpTo P (Some limit) graph.now tree.now) }
    ensures exactly { IsCertifiedWithin limit graph.now tree.now
        → IfErr result (λ error. error ≡ Memory) }
{
    told(first_of_tree(rt, alloc, graph, tree, Some(limit))?)
}

/// Checks whether the forest is that of its sources in the graph: the whole forest, with no vertex too far, or its part within a
/// limit. The sources are the vertices whose row has predecessor 0, and there must be `count` of them. Each vertex must have its
/// root.
///
/// It takes the time of `check`, and one binary search among the rows for each reached vertex. It allocates what `check` does.
pub fn check_forest<const P: u32, R: Threads + Sync>(
    rt: &R,
    alloc: Global,
    graph: &Graph,
    forest: &Forest<P>,
    count: u32,
    limit: Option<u64>,
) -> Result<(), CheckError>
    requires { IfSome limit (λ l. l ≤ max_dist P) }
    ensures yes { OnOk result (IsForestOf P graph.now forest.now count limit) }
    ensures no { IfErr result (TellsForestFault P count limit graph.now forest.now) }
    ensures exactly { IsForestOf P graph.now forest.now count limit
        → IfErr result (λ error. error ≡ Memory) }
{
    told(first_of_forest(rt, alloc, graph, forest, count, limit)?)
}
