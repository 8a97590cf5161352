//! Searches in the words of all vertices, all of them unreached. A search takes time only for the vertices that it touches.
ghost use Rattle.std.specs.Prelude.{◌≡◌, vec_len, All, None, IfOk};
ghost use Rattle.std.specs.Bool.{OnTrue};
ghost use Rattle.sp_paths.specs.Paths.{IsVertex};
ghost use Rattle.sp_answer.specs.Run.{IsAsked, AreRunWords};
ghost use Rattle.sp_serial.specs.TrackedWords.{AreTouched, IsClear};

use crate::lowering::lower_from;
use crate::tracked_words::TrackedWords;
use sp_answer::RunRequest;
use sp_graph::Graph;
use sp_judge::are_answers;
use std::alloc::{AllocError, Global};

/// Searches as far as is asked, up to a limit or for targets. It gives up rather than process more than `most` entries, and
/// returns whether the words answer what is asked. In every case the list afterwards has each vertex with a word.
pub(crate) fn reach<const P: u32>(
    alloc: Global,
    graph: &Graph,
    run: RunRequest,
    most: usize,
    tracked: &mut TrackedWords<P>,
) -> Result<bool, AllocError>
    requires sources { All (IsVertex graph.now.n) run.sources.now }
    requires asked { IsAsked P graph.now.n run.until }
    requires clear { IsClear P graph.now tracked.old.words.items }
    ensures size { vec_len tracked.new.words ≡ graph.now.n }
    ensures tracked { AreTouched 0 tracked.new.reached.items tracked.new.words.items }
    ensures told { IfOk result (λ shown. OnTrue shown (AreRunWords P graph.now
        run.entry.sources.now run.entry.until tracked.new.words.items None)) }
{
    tracked.reached.clear();
    let mut shift = tracked.shift;
    let ended = lower_from(alloc, graph, run, most, tracked, &mut shift)?;
    tracked.shift = shift;
    if !ended {
        return Ok(false);
    }
    Ok(are_answers(graph, run, &tracked.words, &tracked.reached))
}
