//! Lowers words from sources on.
ghost use Rattle.std.specs.Prelude.{◌≡◌, All, IfOk, OnOk, length};
ghost use Rattle.sp_word.specs.Word.{max_dist};
ghost use Rattle.sp_paths.specs.Paths.{IsVertex};
ghost use Rattle.sp_judge.specs.Several.{IsTableOfAny};
ghost use Rattle.sp_serial.specs.TrackedWords.{IsClear};

use crate::search::{SearchBounds, open_bins, search};
use crate::table::Table;
use sp_answer::RunRequest;
use sp_graph::Graph;
use std::alloc::{AllocError, Global};

// Gives the sources their words, when all vertices are unreached. If an allocation fails, only some of the sources have their
// words.
fn start<T: Table<P>, const P: u32>(
    graph: &Graph,
    sources: &[u32],
    table: &mut T,
) -> Result<(), AllocError>
    requires sources { All (IsVertex graph.now.n) sources.now }
    requires clear { IsClear P graph.now (T.labels table.old) }
    requires kept { T.IsKept table.old }
    ensures size { length (T.labels table.new) ≡ graph.now.n }
    ensures table { OnOk result
        (IsTableOfAny graph.now sources.now (max_dist P) (T.labels table.new)) }
    ensures kept { T.IsKept table.new }
{
    for source in sources {
        table.start(*source)?;
    }
    Ok(())
}

/// Lowers words from the sources on, as far as is asked, when all vertices are unreached. It gives up rather than process more
/// than `most` entries, and returns whether it has gone as far as asked. `shift` is the initial width of the buckets, as a power
/// of 2; at the end it is set to the width that they have adapted to.
pub(crate) fn lower_from<T: Table<P>, const P: u32>(
    alloc: Global,
    graph: &Graph,
    run: RunRequest,
    most: usize,
    table: &mut T,
    shift: &mut u32,
) -> Result<bool, AllocError>
    requires sources { All (IsVertex graph.now.n) run.sources.now }
    requires clear { IsClear P graph.now (T.labels table.old) }
    requires kept { T.IsKept table.old }
    ensures size { length (T.labels table.new) ≡ graph.now.n }
    ensures table { IfOk result
        (λ _. IsTableOfAny graph.now run.entry.sources.now (max_dist P) (T.labels table.new)) }
    ensures kept { T.IsKept table.new }
{
    let _ = graph.n();
    let mut bins = open_bins(alloc, *shift, run.sources)?;
    start(graph, run.sources, table)?;
    let ended = search(
        alloc,
        graph,
        SearchBounds::of(run.until, most),
        table,
        &mut bins,
    )?;
    *shift = bins.shift();
    Ok(ended)
}
