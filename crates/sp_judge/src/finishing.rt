//! Relaxes the arcs that are still open in a copy of the words, so that it answers what is asked.
ghost use Rattle.sp_answer.specs.Run.{AreRunWords};
ghost use Rattle.sp_judge.specs.Asked.{CanJudge};

use crate::judging::judge_alone;
use crate::pass::relax_all;
use crate::scan::Scan;
use sp_answer::{RunRequest, Until};
use sp_graph::{Graph, left_out};
use sp_word::Word;

/// Relaxes the arcs until no word changes. Returns the vertex that is too far, if it bears on what is asked.
pub(crate) fn finish<const P: u32>(
    graph: &Graph,
    run: RunRequest,
    words: &mut Vec<Word<P>>,
) -> Option<u32>
    requires { CanJudge P graph.now run.sources.now run.until words.old.items }
    ensures { AreRunWords P graph.now run.entry.sources.now run.entry.until words.new.items result }
{
    let _ = graph.n();
    relax_all(words, graph.arcs());
    match run.until {
        Until::All => left_out(words.as_slice(), graph.arcs()),
        Until::Limit(_) => None,
        Until::Targets(_) => left_out(words.as_slice(), graph.arcs()),
    }
}

/// Judges the words on the calling thread, and finishes them if some arc that bears on what is asked isn't relaxed. Returns the
/// vertex that is too far, if it bears on what is asked.
pub fn settle<const P: u32>(graph: &Graph, run: RunRequest, words: &mut Vec<Word<P>>) -> Option<u32>
    requires { CanJudge P graph.now run.sources.now run.until words.old.items }
    ensures { AreRunWords P graph.now run.entry.sources.now run.entry.until words.new.items result }
{
    let _ = graph.n();
    match judge_alone(graph, run, words.as_slice()) {
        Scan::Whole => None,
        Scan::LeavesOut(vertex) => Some(vertex),
        Scan::Open => finish(graph, run, words),
    }
}
