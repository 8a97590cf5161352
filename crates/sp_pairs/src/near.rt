//! Pairs of a turned graph whose ends are near each other. They are found in the graph as it is: a walk to the target
//! in the turned graph is a walk from the target in this one.
ghost use Rattle.std.specs.Prelude.{◌≡◌, ◌≤◌, ◌↔◌, All, IfOk, IfSome, IsTrue};
ghost use Rattle.sp_word.specs.Word.{max_dist};
ghost use Rattle.sp_paths.specs.Paths.{IsVertex, IsArc, IsLeast};
ghost use Rattle.sp_pairs.specs.Near.{IsFirstArc, IsNext, ComesNoLater, IsTurnedEnd, IsTurnedAnswer};

use crate::told::{PairLine, RouteEnd};
use sp_answer::PairAnswer;
use sp_graph::Graph;
use sp_paths::Arc;
use sp_serial::SearchBuffers;
use std::alloc::{AllocError, Global};

// The approximate number of vertices that a search for a pair may relax. That many take less than a millisecond.
const MOST: usize = 1 << 13;

// Returns the least length of a walk from one vertex to another, if the other is found near the first.
fn distance<const P: u32>(
    room: &mut SearchBuffers<P>,
    from: u32,
    to: u32,
) -> Result<Option<u64>, AllocError>
    requires from { IsVertex room.old.n from }
    requires to { IsVertex room.old.n to }
    ensures graph { room.new ≡ room.old }
    ensures least { IfOk result (λ found. IfSome found (IsLeast room.old from to)) }
    ensures most { IfOk result (λ found. IfSome found (λ dist. dist ≤ max_dist P)) }
{
    let Some(answers) = room.find::<PairAnswer>(from, &[to], MOST)? else {
        return Ok(None);
    };
    match answers.first() {
        Some(PairAnswer::Found { dist, pred: _ }) => Ok(Some(*dist)),
        Some(PairAnswer::TooFar(_) | PairAnswer::NoWalk) | None => Ok(None),
    }
}

// Returns whether a walk with the given length to a vertex may begin with this arc. The length is the least one from
// the arc's tail. There is no result if the vertex isn't found near the arc's head.
fn is_first_arc<const P: u32>(
    room: &mut SearchBuffers<P>,
    arc: &Arc,
    to: u32,
    dist: u64,
) -> Result<Option<bool>, AllocError>
    requires arc { IsArc room.old.n arc.now }
    requires to { IsVertex room.old.n to }
    ensures graph { room.new ≡ room.old }
    ensures first { IfOk result (λ found. IfSome found
        (λ is. IsTrue is ↔ IsFirstArc room.old to dist arc.now)) }
{
    let Some(rest) = distance(room, arc.head, to)? else {
        return Ok(None);
    };
    Ok(Some(rest <= dist && dist - rest == arc.len as u64))
}

// Returns whether there is an arc and the number of its head is at most this one.
fn comes_no_later(next: Option<Arc>, vertex: u32) -> bool
    ensures { IsTrue result ↔ ComesNoLater next vertex }
{
    match next {
        Some(arc) => arc.head <= vertex,
        None => false,
    }
}

// Of the arcs of a row, returns one that a shortest walk to a vertex, of this length, can take first, and of these one
// with the smallest head. There is none if the vertex isn't found near one of the heads.
fn next_of<const P: u32>(
    room: &mut SearchBuffers<P>,
    row: &[Arc],
    to: u32,
    dist: u64,
) -> Result<Option<Arc>, AllocError>
    requires row { All (IsArc room.old.n) row.now }
    requires to { IsVertex room.old.n to }
    ensures graph { room.new ≡ room.old }
    ensures next { IfOk result (λ found. IfSome found (IsNext room.old to dist row.now)) }
{
    let mut next = None;
    for arc in row {
        if comes_no_later(next, arc.head) {
            continue;
        }
        let Some(is_first) = is_first_arc(room, arc, to, dist)? else {
            return Ok(None);
        };
        if is_first {
            next = Some(*arc);
        }
    }
    Ok(next)
}

// Returns the end of the route from a source to a target in the turned form of this graph, if each vertex of it is
// found near the source here: up to the source, or this number of arcs.
fn turned_end<const P: u32>(
    alloc: Global,
    room: &mut SearchBuffers<P>,
    graph: &Graph,
    source: u32,
    target: u32,
    most: usize,
) -> Result<Option<RouteEnd>, AllocError>
    requires room { room.old ≡ graph.now }
    requires source { IsVertex graph.now.n source }
    requires target { IsVertex graph.now.n target }
    ensures graph { room.new ≡ room.old }
    ensures end { IfOk result
        (λ found. IfSome found (IsTurnedEnd graph.now source target (max_dist P))) }
{
    let Some(dist) = distance(room, target, source)? else {
        return Ok(None);
    };
    let mut later = Vec::new(alloc);
    let (mut first, mut rest) = (target, dist);
    while first != source && later.len() < most {
        let Some(arc) = next_of(room, graph.row(first), source, rest)? else {
            return Ok(None);
        };
        later.push(first)?;
        (first, rest) = (arc.head, rest - arc.len as u64);
    }
    Ok(Some(RouteEnd {
        source,
        target,
        dist,
        first,
        later,
    }))
}

/// Returns the answer for a target of a source in the turned form of this graph, if it is found here near the ends. The
/// buffers belong to this graph.
pub(crate) fn near_answer<const P: u32, A: PairLine<P>>(
    alloc: Global,
    room: &mut SearchBuffers<P>,
    graph: &Graph,
    source: u32,
    target: u32,
) -> Result<Option<A>, AllocError>
    requires room { room.old ≡ graph.now }
    requires source { IsVertex graph.now.n source }
    requires target { IsVertex graph.now.n target }
    ensures graph { room.new ≡ room.old }
    ensures answer { IfOk result
        (λ found. IfSome found (IsTurnedAnswer A.is_answer graph.now source target)) }
{
    match turned_end(alloc, room, graph, source, target, A::steps_back())? {
        Some(end) => A::of_end(end),
        None => Ok(None),
    }
}
