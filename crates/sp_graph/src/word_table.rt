//! Words by vertex, and the vertices that a table of words leaves out.
ghost use Rattle.std.specs.Prelude.{◌≡◌, ◌↔◌, length, All, IsTrue};
ghost use Rattle.sp_paths.specs.Paths.{IsArc, IsVertex, word_at};
ghost use Rattle.sp_graph.specs.LeftOut.{network, LeadsOut, smaller_of, IsLeastLeftOut};

use sp_paths::Arc;
use sp_word::Word;

/// Returns the word of a vertex from a list that holds the word of vertex `v` at `v - 1`.
pub fn look_up<const P: u32>(words: &[Word<P>], vertex: u32) -> Word<P>
    requires { IsVertex (length words.now) vertex }
    ensures { result ≡ word_at words.now vertex }
{
    words[(vertex - 1) as usize]
}

// Returns the smaller of two vertices, the first of which may be missing.
fn smaller(first: Option<u32>, second: u32) -> u32
    ensures { result ≡ smaller_of first second }
{
    match first {
        Some(vertex) if vertex < second => vertex,
        _ => second,
    }
}

// Returns whether an arc between vertices with these words leads from a reached vertex to an unreached one.
fn leads_out<const P: u32>(from: Word<P>, found: Word<P>) -> bool
    ensures { IsTrue result ↔ LeadsOut from.entry found.entry }
{
    !from.is_unreached() && found.is_unreached()
}

/// Returns the smallest unreached vertex that has an arc from a reached one. If each arc within the greatest distance
/// is relaxed, this is the smallest vertex that is too far.
pub fn left_out<const P: u32>(words: &[Word<P>], arcs: &[Arc]) -> Option<u32>
    requires { All (IsArc (length words.now)) arcs.now }
    ensures { IsLeastLeftOut (network (length words.now) arcs.now) (word_at words.now) result }
{
    let mut far = None;
    for arc in arcs {
        let from = look_up(words, arc.tail);
        let found = look_up(words, arc.head);
        if leads_out(from, found) {
            let least = smaller(far, arc.head);
            far = Some(least);
        }
    }
    far
}
