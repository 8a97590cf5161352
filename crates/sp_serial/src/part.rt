//! The rows of a part within a distance, from the words that a search has touched.
ghost use Rattle.std.specs.Prelude.{◌≡◌, ◌<◌, ◌≤◌, true, length, vec_len, All, IfOk, IfSome};
ghost use Rattle.std.specs.Bool.{OnTrue};
ghost use Rattle.sp_word.specs.Word.{is_layout, max_dist, max_pred};
ghost use Rattle.sp_paths.specs.Paths.{IsVertex};
ghost use Rattle.sp_answer.specs.Table.{HasPredWithin};
ghost use Rattle.sp_serial.specs.TrackedWords.{AreTouched, IsClear};
ghost use Rattle.sp_serial.specs.Part.{HasGained, HasNoOther, IsPartOf, HasPart};

use crate::reach::reach;
use crate::tracked_words::{TrackedWords, sort};
use sp_answer::{RunRequest, Tree, Until, up_to};
use sp_graph::{Graph, look_up};
use sp_word::Word;
use std::alloc::{AllocError, Global};

// Appends the row of a vertex with this word, unless it is unreached or has its row already. If the last row is that of a greater
// vertex, it appends nothing and returns false; otherwise it returns true.
fn push_word<const P: u32>(
    tree: &mut Tree<P>,
    vertex: u32,
    word: Word<P>,
) -> Result<bool, AllocError>
    requires vertex { IsVertex tree.old.n vertex }
    requires pred { HasPredWithin tree.old.n word }
    requires before { HasNoOther tree.old vertex word }
    ensures { IfOk result (λ pushed.
        OnTrue pushed (HasGained tree.old vertex word.entry tree.new)) }
{
    let (Some(dist), Some(pred)) = (word.dist(), word.pred()) else {
        return Ok(true);
    };
    let _ = tree.n();
    let last = tree.last();
    if last == vertex {
        return Ok(true);
    }
    if last > vertex {
        return Ok(false);
    }
    tree.push_row(vertex, dist, pred)?;
    Ok(true)
}

// Returns the tree of the listed vertices whose distances are at most the limit, if the list is in rising order.
fn tree_of<const P: u32>(
    alloc: Global,
    graph: &Graph,
    source: u32,
    limit: u64,
    tracked: &TrackedWords<P>,
) -> Result<Option<Tree<P>>, AllocError>
    requires layout { is_layout P ≡ true }
    requires source { IsVertex graph.now.n source }
    requires room { graph.now.n ≤ max_pred P }
    requires size { vec_len tracked.now.words ≡ graph.now.n }
    requires preds { All (HasPredWithin graph.now.n) tracked.now.words.items }
    requires tracked { AreTouched 0 tracked.now.reached.items tracked.now.words.items }
    ensures { IfOk result (λ found. IfSome found
        (IsPartOf source limit tracked.now.words.items)) }
{
    let mut tree = Tree::bare(alloc, graph.n(), source);
    for vertex in &tracked.reached {
        let word = up_to(look_up(&tracked.words, *vertex), limit);
        if !push_word(&mut tree, *vertex, word)? {
            return Ok(None);
        }
    }
    Ok(Some(tree))
}

/// Searches for the rows of the part of the sources' forest within a limit, when all vertices are unreached. It gives up rather
/// than process more than `most` entries.
pub(crate) fn rows_in<const P: u32>(
    alloc: Global,
    graph: &Graph,
    sources: &[u32],
    limit: u64,
    most: usize,
    tracked: &mut TrackedWords<P>,
) -> Result<Option<Tree<P>>, AllocError>
    requires some { 0 < length sources.now }
    requires sources { All (IsVertex graph.now.n) sources.now }
    requires limit { limit ≤ max_dist P }
    requires clear { IsClear P graph.now tracked.old.words.items }
    ensures size { vec_len tracked.new.words ≡ graph.now.n }
    ensures tracked { AreTouched 0 tracked.new.reached.items tracked.new.words.items }
    ensures rows { IfOk result (λ found. IfSome found
        (HasPart graph.now sources.now limit)) }
{
    let until = Until::Limit(limit);
    let _ = graph.n();
    if !reach(alloc, graph, RunRequest { sources, until }, most, tracked)? {
        return Ok(None);
    }
    sort(tracked);
    tree_of(alloc, graph, sources[0], limit, tracked)
}
