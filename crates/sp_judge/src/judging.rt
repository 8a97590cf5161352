//! Judges by a scan of the arcs whether a copy of the words answers what is asked.
ghost use Rattle.std.specs.Prelude.{length, None, IfSome, IfNone};
ghost use Rattle.std.specs.Bool.{OnTrue};
ghost use Rattle.sp_word.specs.Word.{max_dist};
ghost use Rattle.sp_paths.specs.Paths.{word_at};
ghost use Rattle.sp_answer.specs.Run.{IsAsked, AreRunWords};
ghost use Rattle.sp_judge.specs.Marked.{AreTrueMarks};
ghost use Rattle.sp_judge.specs.Asked.{CanJudge, BearsOn, ShowsAsked, AreReached};

use crate::marked::scan_unmarked;
use crate::scan::{Scan, are_relaxed_up_to, is_relaxed_up_to, scan_part};
use sp_answer::{RunRequest, Until, farthest};
use sp_graph::{Graph, Mark};
use sp_word::Word;
use std::alloc::Global;
use std::thread::Threads;

/// A copy of the words that a team has lowered, and the lists of its workers' marks.
#[derive(Clone, Copy)]
pub struct MarkedWords<'w, const P: u32> {
    pub words: &'w [Word<P>],
    pub marks: &'w [Vec<Mark>],
}

// Returns the distance up to which arcs bear on what is asked: the limit, or the distance of the farthest target. If there is
// neither, all arcs do.
fn bearing<const P: u32>(words: &[Word<P>], until: Until) -> Option<u64>
    requires { IsAsked P (length words.now) until }
    ensures { BearsOn until.entry words.now result }
{
    match until {
        Until::All => None,
        Until::Limit(limit) => Some(limit),
        Until::Targets(targets) => farthest(words, targets),
    }
}

// Judges the words by the arcs up to the distance that bears on what is asked. Returns `None` if all arcs do.
fn judge_near<const P: u32>(graph: &Graph, run: RunRequest, words: &[Word<P>]) -> Option<Scan>
    requires { CanJudge P graph.now run.sources.now run.until words.now }
    ensures near { IfSome result
        (ShowsAsked P graph.now run.entry.sources.now run.entry.until words.now) }
    ensures all { IfNone result (BearsOn run.entry.until words.now None) }
{
    let _ = graph.n();
    match bearing(words, run.until) {
        Some(far) if is_relaxed_up_to(words, graph, far) => Some(Scan::Whole),
        Some(_) => Some(Scan::Open),
        None => None,
    }
}

/// Judges the words by the arcs that bear on what is asked, on several threads. It skips vertices that a mark shows to be
/// relaxed.
pub fn judge_by<R: Threads + Sync, const P: u32>(
    rt: &R,
    alloc: Global,
    graph: &Graph,
    run: RunRequest,
    copy: MarkedWords<P>,
    threads: u32,
) -> Scan
    requires words { CanJudge P graph.now run.sources.now run.until copy.words.now }
    requires marks { AreTrueMarks (max_dist P)
        graph.now (word_at copy.words.now) copy.marks.now }
    ensures { ShowsAsked P graph.now
        run.entry.sources.now run.entry.until copy.entry.words.now result }
{
    let _ = graph.n();
    let MarkedWords { words, marks } = copy;
    match judge_near(graph, run, words) {
        Some(scan) => scan,
        None => scan_unmarked(rt, alloc, words, graph, marks, threads),
    }
}

/// Judges the words by the arcs that bear on what is asked, on the calling thread.
pub(crate) fn judge_alone<const P: u32>(graph: &Graph, run: RunRequest, words: &[Word<P>]) -> Scan
    requires { CanJudge P graph.now run.sources.now run.until words.now }
    ensures { ShowsAsked P graph.now run.entry.sources.now run.entry.until words.now result }
{
    let _ = graph.n();
    match judge_near(graph, run, words) {
        Some(scan) => scan,
        None => scan_part(words, graph.arcs()),
    }
}

/// Returns whether the words answer what is asked: each target has a distance, and all arcs that bear on what is asked are
/// relaxed. It reads only the rows of the listed vertices, since every other vertex is unreached.
pub fn are_answers<const P: u32>(
    graph: &Graph,
    run: RunRequest,
    words: &[Word<P>],
    reached: &[u32],
) -> bool
    requires words { CanJudge P graph.now run.sources.now run.until words.now }
    requires reached { AreReached words.now reached.now }
    ensures { OnTrue result
        (AreRunWords P graph.now run.entry.sources.now run.entry.until words.now None) }
{
    let _ = graph.n();
    match bearing(words, run.until) {
        Some(far) => are_relaxed_up_to(words, graph, far, reached),
        None => false,
    }
}
