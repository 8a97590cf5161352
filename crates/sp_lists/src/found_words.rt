//! The words of all vertices, as a run on the calling thread leaves them.
ghost use Rattle.std.specs.Prelude.{◌≡◌, ◌≤◌, true, length, IfOk, IfErr, IfSome};
ghost use Rattle.sp_word.specs.Word.{is_layout, max_dist, max_pred};
ghost use Rattle.sp_paths.specs.Paths.{word_at};
ghost use Rattle.sp_answer.specs.Nearest.{IsForestUpTo, IsRefusal};

use sp_answer::words_within;
use sp_graph::Graph;
use sp_serial::{RunError, RunRequest, RunWords, Until, words_alone};
use sp_word::Word;
use std::alloc::Global;

/// Returns the words of the forest of the sources, up to the limit if there is one, or the vertex that is too far.
pub(crate) fn find_words<const P: u32>(
    alloc: Global,
    graph: &Graph,
    sources: &[u32],
    limit: Option<u64>,
) -> Result<Vec<Word<P>>, RunError>
    requires layout { is_layout P ≡ true }
    requires n { graph.now.n ≤ max_pred P }
    requires limit { IfSome limit (λ limit. limit ≤ max_dist P) }
    ensures size { IfOk result (λ words. length words.items ≡ graph.now.n) }
    ensures forest { IfOk result (λ words.
        IsForestUpTo P graph.now sources.now limit (word_at words.items)) }
    ensures refused { IfErr result (IsRefusal P graph.now sources.now limit) }
{
    let until = Until::up_to(limit);
    let found = words_alone::<P>(alloc, graph, RunRequest { sources, until })?;
    let RunWords { words, far } = found;
    match far {
        Some(beyond) => Err(RunError::TooFar(beyond)),
        None => Ok(words_within(words, limit)),
    }
}
