//! Scans arcs over a list of words: whether all arcs are relaxed, and which vertex they leave out.
ghost use Rattle.std.specs.Prelude.{◌≡◌, ◌≤◌, ◌↔◌, true, [], ◌∷◌, length, All, IsTrue, IfOk, OnOk};
ghost use denote.Param.Send.{IsSync};
ghost use Rattle.sp_word.specs.Word.{is_layout, max_dist, max_pred};
ghost use Rattle.sp_paths.specs.Paths.{IsArc, IsVertex, word_at};
ghost use Rattle.sp_judge.specs.Shown.{Shows, IsRelaxedFrom, IsRowClosedUpTo, IsClosedUpTo, AreOpenTails, TakesArc, both_of};

use sp_graph::{Graph, look_up};
use sp_paths::{Arc, Offer};
use sp_word::Word;
use std::alloc::{AllocError, Global};
use std::thread::{Threads, join};

/// What arcs show about a list of words.
#[derive(Clone, Copy, Debug, PartialEq, Eq)]
pub enum Scan {
    /// Every arc is relaxed, and none leads from a reached vertex to an unreached one.
    Whole,
    /// Every arc is relaxed, and this is the smallest unreached vertex that has an arc from a reached one.
    LeavesOut(u32),
    /// Some arc isn't relaxed.
    Open,
}

/// Returns what two parts of the arcs show together.
pub(crate) fn both(first: Scan, second: Scan) -> Scan
    ensures { result ≡ both_of first second }
{
    match second {
        Scan::Whole => first,
        Scan::Open => Scan::Open,
        Scan::LeavesOut(vertex) => match first {
            Scan::Whole => second,
            Scan::Open => Scan::Open,
            Scan::LeavesOut(other) => Scan::LeavesOut(other.min(vertex)),
        },
    }
}

// Returns what an arc shows.
fn scan_arc<const P: u32>(words: &[Word<P>], arc: Arc) -> Scan
    requires layout { is_layout P ≡ true }
    requires most { length words.now ≤ max_pred P }
    requires arc { IsArc (length words.now) arc }
    ensures { Shows (max_dist P) (word_at words.now) (arc ∷ []) result }
{
    match arc.offer(look_up(words, arc.tail)) {
        Offer::Within(word) if word.is_below(look_up(words, arc.head)) => Scan::Open,
        Offer::Beyond if look_up(words, arc.head).is_unreached() => Scan::LeavesOut(arc.head),
        _ => Scan::Whole,
    }
}

/// Returns what arcs show, reading one after the other.
pub(crate) fn scan_part<const P: u32>(words: &[Word<P>], arcs: &[Arc]) -> Scan
    requires layout { is_layout P ≡ true }
    requires most { length words.now ≤ max_pred P }
    requires arcs { All (IsArc (length words.now)) arcs.now }
    ensures { Shows (max_dist P) (word_at words.now) arcs.now result }
{
    let mut told = Scan::Whole;
    for arc in arcs {
        told = both(told, scan_arc(words, *arc));
    }
    told
}

/// Returns whether an arc is relaxed if its tail has this word.
pub fn is_arc_relaxed<const P: u32>(words: &[Word<P>], arc: Arc, from: Word<P>) -> bool
    requires layout { is_layout P ≡ true }
    requires most { length words.now ≤ max_pred P }
    requires arc { IsArc (length words.now) arc }
    ensures { IsTrue result ↔ IsRelaxedFrom (max_dist P) (word_at words.now) from.entry arc }
{
    match arc.offer(from) {
        Offer::Within(word) => !word.is_below(look_up(words, arc.head)),
        Offer::NoTail | Offer::Beyond => true,
    }
}

// Returns whether the arcs of a row are relaxed if their tail has this word.
fn is_row_relaxed<const P: u32>(words: &[Word<P>], row: &[Arc], from: Word<P>) -> bool
    requires layout { is_layout P ≡ true }
    requires most { length words.now ≤ max_pred P }
    requires arcs { All (IsArc (length words.now)) row.now }
    ensures { IsTrue result
        ↔ All (IsRelaxedFrom (max_dist P) (word_at words.now) from.entry) row.now }
{
    for arc in row {
        if !is_arc_relaxed(words, *arc, from) {
            return false;
        }
    }
    true
}

// Returns whether the arcs of a vertex are relaxed, if its distance is at most `far`.
fn is_vertex_relaxed<const P: u32>(words: &[Word<P>], graph: &Graph, far: u64, vertex: u32) -> bool
    requires layout { is_layout P ≡ true }
    requires most { graph.now.n ≤ max_pred P }
    requires size { length words.now ≡ graph.now.n }
    requires vertex { IsVertex graph.now.n vertex }
    ensures { IsTrue result
        ↔ IsRowClosedUpTo graph.now (max_dist P) far (word_at words.now) vertex }
{
    let from = look_up(words, vertex);
    match from.dist() {
        Some(dist) if dist <= far => is_row_relaxed(words, graph.row(vertex), from),
        _ => true,
    }
}

/// Returns whether each arc is relaxed whose tail has a distance of at most `far`. It reads no other arcs.
pub(crate) fn is_relaxed_up_to<const P: u32>(words: &[Word<P>], graph: &Graph, far: u64) -> bool
    requires layout { is_layout P ≡ true }
    requires most { graph.now.n ≤ max_pred P }
    requires size { length words.now ≡ graph.now.n }
    ensures { IsTrue result ↔ IsClosedUpTo graph.now (max_dist P) far (word_at words.now) }
{
    for place in 0..words.len() {
        if !is_vertex_relaxed(words, graph, far, place as u32 + 1) {
            return false;
        }
    }
    true
}

/// Returns whether each arc of these vertices is relaxed whose tail has a distance of at most `far`.
pub(crate) fn are_relaxed_up_to<const P: u32>(
    words: &[Word<P>],
    graph: &Graph,
    far: u64,
    vertices: &[u32],
) -> bool
    requires layout { is_layout P ≡ true }
    requires most { graph.now.n ≤ max_pred P }
    requires size { length words.now ≡ graph.now.n }
    requires vertices { All (IsVertex graph.now.n) vertices.now }
    ensures { IsTrue result
        ↔ All (IsRowClosedUpTo graph.now (max_dist P) far (word_at words.now)) vertices.now }
{
    for vertex in vertices {
        if !is_vertex_relaxed(words, graph, far, *vertex) {
            return false;
        }
    }
    true
}

// Appends the tail of an arc to the list, if the arc isn't relaxed.
fn push_tail<const P: u32>(
    words: &[Word<P>],
    arc: Arc,
    tails: &mut Vec<u32>,
) -> Result<(), AllocError>
    requires layout { is_layout P ≡ true }
    requires most { length words.now ≤ max_pred P }
    requires arc { IsArc (length words.now) arc }
    ensures { OnOk result
        (TakesArc (max_dist P) (word_at words.now) arc tails.old.items tails.new.items) }
{
    match scan_arc(words, arc) {
        Scan::Open => Ok(tails.push(arc.tail)?),
        Scan::Whole => Ok(()),
        Scan::LeavesOut(_) => Ok(()),
    }
}

/// Returns the tails of the arcs that aren't relaxed, in the order of the arcs.
pub fn open_tails<const P: u32>(
    alloc: Global,
    words: &[Word<P>],
    arcs: &[Arc],
) -> Result<Vec<u32>, AllocError>
    requires layout { is_layout P ≡ true }
    requires most { length words.now ≤ max_pred P }
    requires arcs { All (IsArc (length words.now)) arcs.now }
    ensures { IfOk result
        (λ tails. AreOpenTails (max_dist P) (word_at words.now) arcs.now tails.items) }
{
    let mut tails = Vec::new(alloc);
    for arc in arcs {
        push_tail(words, *arc, &mut tails)?;
    }
    Ok(tails)
}

/// Returns what arcs show about a list of words that has the word of vertex `v` at `v - 1`. It uses `threads` threads.
pub fn scan_arcs<R: Threads + Sync, const P: u32>(
    rt: &R,
    words: &[Word<P>],
    arcs: &[Arc],
    threads: u32,
) -> Scan
    requires layout { is_layout P ≡ true }
    requires most { length words.now ≤ max_pred P }
    requires arcs { All (IsArc (length words.now)) arcs.now }
    ensures { Shows (max_dist P) (word_at words.now) arcs.now result }
{
    if threads <= 1 {
        return scan_part(words, arcs);
    }
    let fewer = threads - 1;
    let (left, right) = arcs.split_at(arcs.len() / threads as usize);
    let (first, second) = join(
        rt,
        || -> Scan
            requires { (is_layout P ≡ true) × (length words.now ≤ max_pred P)
                × All (IsArc (length words.now)) left.now }
            ensures { Shows (max_dist P) (word_at words.entry.now) left.entry.now result }
        { scan_part(words, left) },
        || -> Scan
            requires { IsSync R.row × (is_layout P ≡ true) × (length words.now ≤ max_pred P)
                × All (IsArc (length words.now)) right.now }
            ensures { Shows (max_dist P) (word_at words.entry.now) right.entry.now result }
        { scan_arcs(rt, words, right, fewer) },
    );
    both(first, second)
}
