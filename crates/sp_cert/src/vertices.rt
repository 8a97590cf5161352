//! Finds, in parallel, the faults that vertices show by their own words.
ghost use Rattle.std.specs.Prelude.{◌≡◌, ◌≤◌, ◌↔◌, true, length, IsTrue, None};
ghost use Rattle.sp_word.specs.Word.{is_layout, max_pred};
ghost use Rattle.sp_paths.specs.Paths.{IsVertex, word_at};
ghost use Rattle.sp_graph.specs.Order.{IsInOrder};
ghost use Rattle.sp_cert.specs.Claims.{IsAbove};
ghost use Rattle.sp_cert.specs.Rules.{IsExplained};
ghost use Rattle.sp_cert.specs.Faults.{IsRow, HasArcTo, IsFirstOf, IsBroken, BreaksAt, FaultAt, FaultOfVertex, earlier_of};

use crate::fault::{BrokenRule, earlier};
use crate::rule::Rule;
use crate::sources::{SourceRule, is_source};
use rayon::prelude::*;
use sp_graph::{Graph, look_up};
use sp_paths::Arc;
use sp_word::Word;
use std::thread::Threads;

// Returns whether a row has an arc of this length to `head`, by binary search.
fn has_arc(row: &[Arc], head: u32, len: u64) -> bool
    requires { IsRow row.now }
    ensures { IsTrue result ↔ HasArcTo row.now head len }
{
    row.binary_search_by_key(&(head, len), |arc| (arc.head, u64::from(arc.len)))
        .is_ok()
}

// Returns whether `pred` is reached and has an arc to the vertex that gives the distance `dist`.
fn is_explained<const P: u32>(
    graph: &Graph,
    words: &[Word<P>],
    vertex: u32,
    dist: u64,
    pred: u32,
) -> bool
    requires size { length words.now ≡ graph.now.n }
    requires order { IsInOrder graph.now.arcs }
    ensures { IsTrue result ↔ IsExplained graph.now (word_at words.now) vertex dist pred }
{
    if !(1..=graph.n()).contains(&pred) {
        return false;
    }
    match look_up(words, pred).dist() {
        Some(before) if before <= dist => has_arc(graph.row(pred), vertex, dist - before),
        _ => false,
    }
}

// Returns whether a distance is above the limit, if there is one.
fn is_above(limit: Option<u64>, dist: u64) -> bool
    ensures { IsTrue result ↔ IsAbove limit dist }
{
    match limit {
        Some(limit) => limit < dist,
        None => false,
    }
}

// Returns the lowest rule that the vertex breaks by its own word, if any.
fn broken_at<const P: u32>(
    graph: &Graph,
    words: &[Word<P>],
    sources: SourceRule,
    limit: Option<u64>,
    vertex: u32,
) -> Option<Rule>
    requires layout { is_layout P ≡ true }
    requires size { length words.now ≡ graph.now.n }
    requires order { IsInOrder graph.now.arcs }
    requires vertex { IsVertex graph.now.n vertex }
    ensures { IsBroken (BreaksAt graph.now sources limit (word_at words.now) vertex) result }
{
    let word = look_up(words, vertex);
    if is_source(sources, words, vertex) {
        return if word.is_same(Word::pack(0, 0)) {
            None
        } else {
            Some(Rule::OwnSource)
        };
    }
    let (Some(dist), Some(pred)) = (word.dist(), word.pred()) else {
        return None;
    };
    if !is_explained(graph, words, vertex, dist, pred) {
        Some(Rule::NamesPredecessor)
    } else if is_above(limit, dist) {
        Some(Rule::BeyondLimit)
    } else {
        None
    }
}

// Returns the fault that the vertex shows, if any.
fn fault_at<const P: u32>(
    graph: &Graph,
    words: &[Word<P>],
    sources: SourceRule,
    limit: Option<u64>,
    vertex: u32,
) -> Option<BrokenRule>
    requires layout { is_layout P ≡ true }
    requires size { length words.now ≡ graph.now.n }
    requires order { IsInOrder graph.now.arcs }
    requires vertex { IsVertex graph.now.n vertex }
    ensures { IsFirstOf
        (FaultAt (BreaksAt graph.now sources limit (word_at words.now)) vertex) result }
{
    match broken_at(graph, words, sources, limit, vertex) {
        Some(rule) => Some(BrokenRule { vertex, rule }),
        None => None,
    }
}

/// Returns the earliest fault that a vertex shows. The result doesn't depend on how the vertices are split into pieces.
pub fn first_of_vertices<const P: u32, R: Threads + Sync>(
    rt: &R,
    graph: &Graph,
    words: &[Word<P>],
    sources: SourceRule,
    limit: Option<u64>,
) -> Option<BrokenRule>
    requires layout { is_layout P ≡ true }
    requires size { length words.now ≡ graph.now.n }
    requires order { IsInOrder graph.now.arcs }
    ensures { IsFirstOf (FaultOfVertex graph.now.n
        (BreaksAt graph.now sources limit (word_at words.now))) result }
{
    (1..=graph.n())
        .into_par_iter()
        .map(
            |vertex: u32| -> Option<BrokenRule>
                requires { (is_layout P ≡ true) × (length words.now ≡ graph.now.n)
                    × IsInOrder graph.now.arcs × IsVertex graph.now.n vertex }
                ensures { IsFirstOf (FaultAt (BreaksAt graph.entry.now sources limit
                    (word_at words.entry.now)) vertex) result }
            { fault_at(graph, words, sources, limit, vertex) },
        )
        .reduce(
            rt,
            || -> Option<BrokenRule>
                ensures { result ≡ None }
            { None },
            |first: Option<BrokenRule>, second: Option<BrokenRule>| -> Option<BrokenRule>
                ensures { result ≡ earlier_of first second }
            { earlier(first, second) },
        )
}
