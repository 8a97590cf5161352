//! Scans the arcs of all vertices except those whose arcs are relaxed according to a mark. Each thread has a range of vertices,
//! with a flag for each of them. It sets the flags of the marked vertices, and reads the rows of the others.
ghost use Rattle.std.specs.Prelude.{◌≡◌, ◌+◌, ◌<◌, ◌≤◌, ◌↔◌, ◌∷◌, true, [], length, Some, IsTrue, IfOk};
ghost use denote.Param.Send.{IsSync};
ghost use Rattle.sp_word.specs.Word.{is_layout, max_dist, max_pred, dist_of};
ghost use Rattle.sp_paths.specs.Paths.{IsVertex, word_at};
ghost use Rattle.sp_paths.specs.Rows.{row_of};
ghost use Rattle.sp_judge.specs.declared.scan.Scan.TheVariants.{Whole};
ghost use Rattle.sp_judge.specs.Shown.{Shows};
ghost use Rattle.sp_judge.specs.Marked.{AreTrueMarks, AreTrueFlags, TakesMarks, ShowsBetween};

use crate::scan::{Scan, both, scan_arcs, scan_part};
use sp_graph::{Graph, Mark, look_up};
use sp_word::Word;
use std::alloc::{AllocError, Global};
use std::thread::{Threads, join};

// The vertices above one number, up to another, and the number of threads that read their rows.
#[derive(Clone, Copy)]
struct VertexRange {
    low: u32,
    high: u32,
    threads: u32,
}

// Cuts a share in two: the first part is for one thread, and the second for the others.
fn part(share: VertexRange) -> (VertexRange, VertexRange)
    requires range { share.low ≤ share.high }
    requires threads { 1 < share.threads }
    ensures low { result.0.low ≡ share.low }
    ensures high { result.1.high ≡ share.high }
    ensures middle { result.0.high ≡ result.1.low }
    ensures above { share.low ≤ result.1.low }
    ensures below { result.1.low ≤ share.high }
    ensures fewer { result.1.threads + 1 ≡ share.threads }
{
    let middle = share.low + (share.high - share.low) / share.threads;
    let first = VertexRange {
        low: share.low,
        high: middle,
        threads: 1,
    };
    let second = VertexRange {
        low: middle,
        high: share.high,
        threads: share.threads - 1,
    };
    (first, second)
}

// Whether a word has this distance.
fn has_dist<const P: u32>(word: Word<P>, dist: u32) -> bool
    ensures { IsTrue result ↔ (dist_of word.entry ≡ Some dist) }
{
    match word.dist() {
        Some(found) => found == dist as u64,
        None => false,
    }
}

// Sets the flag of a mark's vertex, if the vertex is in the range and has the mark's distance. The first flag belongs to vertex
// `low + 1`.
fn set_flag<const P: u32>(words: &[Word<P>], low: u32, mark: Mark, flags: &mut [bool])
    requires { low + length flags.old ≤ length words.now }
    ensures { TakesMarks (max_dist P) (word_at words.now) low (mark ∷ []) flags.old flags.new }
{
    if mark.vertex <= low {
        return;
    }
    let place = (mark.vertex - low - 1) as usize;
    if place < flags.len() && has_dist(look_up(words, mark.vertex), mark.dist) {
        flags[place] = true;
    }
}

// Sets the flags of marks.
fn set_flags<const P: u32>(words: &[Word<P>], low: u32, marks: &[Mark], flags: &mut [bool])
    requires { low + length flags.old ≤ length words.now }
    ensures { TakesMarks (max_dist P) (word_at words.now) low marks.now flags.old flags.new }
{
    for mark in marks {
        set_flag(words, low, *mark, flags);
    }
}

// Returns what the row of a vertex shows. It doesn't read the row of a marked vertex.
fn scan_row<const P: u32>(words: &[Word<P>], graph: &Graph, vertex: u32, marked: bool) -> Scan
    requires layout { is_layout P ≡ true }
    requires most { graph.now.n ≤ max_pred P }
    requires size { length words.now ≡ graph.now.n }
    requires vertex { IsVertex graph.now.n vertex }
    requires marked { IsTrue marked
        → Shows (max_dist P) (word_at words.now) (row_of graph.now.arcs vertex) Whole }
    ensures { Shows (max_dist P) (word_at words.now) (row_of graph.now.arcs vertex) result }
{
    if marked {
        return Scan::Whole;
    }
    if look_up(words, vertex).is_unreached() {
        return Scan::Whole;
    }
    scan_part(words, graph.row(vertex))
}

// Returns what the rows of the vertices above `low` show. Each vertex has a flag; a row isn't read if its flag is set.
fn scan_rows<const P: u32>(words: &[Word<P>], graph: &Graph, low: u32, flags: &[bool]) -> Scan
    requires layout { is_layout P ≡ true }
    requires most { graph.now.n ≤ max_pred P }
    requires size { length words.now ≡ graph.now.n }
    requires range { low + length flags.now ≤ graph.now.n }
    requires flags { AreTrueFlags (max_dist P) graph.now (word_at words.now) low flags.now }
    ensures { ShowsBetween (max_dist P) graph.now (word_at words.now)
        low (low + length flags.now) result }
{
    let mut told = Scan::Whole;
    for place in 0..flags.len() {
        let vertex = low + place as u32 + 1;
        told = both(told, scan_row(words, graph, vertex, flags[place]));
    }
    told
}

// Returns what the rows of a share show, on this thread.
fn scan_share<const P: u32>(
    alloc: Global,
    words: &[Word<P>],
    graph: &Graph,
    marks: &[Vec<Mark>],
    share: VertexRange,
) -> Result<Scan, AllocError>
    requires layout { is_layout P ≡ true }
    requires most { graph.now.n ≤ max_pred P }
    requires size { length words.now ≡ graph.now.n }
    requires marks { AreTrueMarks (max_dist P) graph.now (word_at words.now) marks.now }
    requires low { share.low ≤ share.high }
    requires high { share.high ≤ graph.now.n }
    ensures { IfOk result (ShowsBetween (max_dist P) graph.now (word_at words.now)
        share.low share.high) }
{
    let mut flags = vec![in alloc; false; (share.high - share.low) as usize]?;
    for list in marks {
        set_flags(words, share.low, list.as_slice(), &mut flags);
    }
    Ok(scan_rows(words, graph, share.low, &flags))
}

// Returns what the rows of a share show, on the share's number of threads.
fn scan_share_by<R: Threads + Sync, const P: u32>(
    rt: &R,
    alloc: Global,
    words: &[Word<P>],
    graph: &Graph,
    marks: &[Vec<Mark>],
    share: VertexRange,
) -> Result<Scan, AllocError>
    requires layout { is_layout P ≡ true }
    requires most { graph.now.n ≤ max_pred P }
    requires size { length words.now ≡ graph.now.n }
    requires marks { AreTrueMarks (max_dist P) graph.now (word_at words.now) marks.now }
    requires low { share.low ≤ share.high }
    requires high { share.high ≤ graph.now.n }
    ensures { IfOk result (ShowsBetween (max_dist P) graph.now (word_at words.now)
        share.low share.high) }
{
    if share.threads <= 1 {
        return scan_share(alloc, words, graph, marks, share);
    }
    let (own, rest) = part(share);
    let (first, second) = join(
        rt,
        || -> Result<Scan, AllocError>
            requires { (is_layout P ≡ true) × (graph.now.n ≤ max_pred P)
                × (length words.now ≡ graph.now.n)
                × AreTrueMarks (max_dist P) graph.now (word_at words.now) marks.now
                × (own.low ≤ own.high) × (own.high ≤ graph.now.n) }
            ensures { IfOk result (ShowsBetween (max_dist P) graph.entry.now
                (word_at words.entry.now) own.low own.high) }
        { scan_share(alloc, words, graph, marks, own) },
        || -> Result<Scan, AllocError>
            requires { IsSync R.row × (is_layout P ≡ true) × (graph.now.n ≤ max_pred P)
                × (length words.now ≡ graph.now.n)
                × AreTrueMarks (max_dist P) graph.now (word_at words.now) marks.now
                × (rest.low ≤ rest.high) × (rest.high ≤ graph.now.n) }
            ensures { IfOk result (ShowsBetween (max_dist P) graph.entry.now
                (word_at words.entry.now) rest.low rest.high) }
        { scan_share_by(rt, alloc, words, graph, marks, rest) },
    );
    Ok(both(first?, second?))
}

// Returns how many marks there are.
fn count(marks: &[Vec<Mark>]) -> usize {
    let mut all = 0usize;
    for list in marks {
        all = all.saturating_add(list.len());
    }
    all
}

/// Returns what `scan_arcs` returns for all arcs of a graph. If there are marks for half of the vertices, and memory for a flag
/// for each vertex, it reads no arc of a vertex that has a mark with its distance.
pub(crate) fn scan_unmarked<R: Threads + Sync, const P: u32>(
    rt: &R,
    alloc: Global,
    words: &[Word<P>],
    graph: &Graph,
    marks: &[Vec<Mark>],
    threads: u32,
) -> Scan
    requires layout { is_layout P ≡ true }
    requires most { graph.now.n ≤ max_pred P }
    requires size { length words.now ≡ graph.now.n }
    requires marks { AreTrueMarks (max_dist P) graph.now (word_at words.now) marks.now }
    ensures { Shows (max_dist P) (word_at words.now) graph.now.arcs result }
{
    if count(marks) >= words.len() / 2 {
        let all = VertexRange {
            low: 0,
            high: graph.n(),
            threads,
        };
        if let Ok(told) = scan_share_by(rt, alloc, words, graph, marks, all) {
            return told;
        }
    }
    scan_arcs(rt, words, graph.arcs(), threads)
}
