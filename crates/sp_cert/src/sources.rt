//! Which vertices are sources.
ghost use Rattle.std.specs.Prelude.{◌↔◌, length, IsTrue};
ghost use Rattle.sp_paths.specs.Paths.{IsVertex, word_at};
ghost use Rattle.sp_cert.specs.Claims.{IsSource};

use sp_graph::look_up;
use sp_word::Word;

/// Which vertices are sources.
#[derive(Clone, Copy)]
pub enum SourceRule {
    /// Only this vertex.
    One(u32),
    /// The reached vertices that have predecessor 0.
    WithoutPred,
}

/// Returns whether a vertex is a source.
pub fn is_source<const P: u32>(sources: SourceRule, words: &[Word<P>], vertex: u32) -> bool
    requires { IsVertex (length words.now) vertex }
    ensures { IsTrue result ↔ IsSource sources (word_at words.now) vertex }
{
    match sources {
        SourceRule::One(source) => vertex == source,
        SourceRule::WithoutPred => look_up(words, vertex).pred() == Some(0),
    }
}
