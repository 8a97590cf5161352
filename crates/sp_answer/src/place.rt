//! Reached vertices with their words.
ghost use Rattle.std.specs.Prelude.{◌≡◌, length};
ghost use Rattle.sp_paths.specs.Paths.{IsVertex, word_at};
ghost use Rattle.sp_word.specs.Word.{Pair};
ghost use Rattle.sp_answer.specs.Rooted.{IsReached};

use sp_graph::look_up;
use sp_word::Word;

/// A reached vertex and its word.
#[derive(Clone, Copy)]
pub(crate) struct ReachedVertex {
    pub(crate) vertex: u32,
    pub(crate) dist: u64,
    pub(crate) pred: u32,
}

/// Returns a reached vertex with its word.
pub(crate) fn place_of<const P: u32>(words: &[Word<P>], vertex: u32) -> ReachedVertex
    requires vertex { IsVertex (length words.now) vertex }
    requires reached { IsReached (word_at words.now) vertex }
    ensures vertex { result.vertex ≡ vertex }
    ensures word { word_at words.now vertex ≡ Pair result.dist result.pred }
{
    let word = look_up(words, vertex);
    let (Some(dist), Some(pred)) = (word.dist(), word.pred()) else {
        unreachable!()
    };
    ReachedVertex { vertex, dist, pred }
}
