//! The source from which each vertex is reached: where its chain of predecessors begins.
ghost use Rattle.std.specs.Prelude.{◌≡◌, ◌<◌, ◌≤◌, ◌^◌, length, IfOk};
ghost use Rattle.sp_paths.specs.Paths.{IsVertex, word_at};
ghost use Rattle.sp_paths.specs.Roots.{IsRoot, FallsBack};
ghost use Rattle.sp_answer.specs.Rooted.{AreRoots, IsReached, AreKnown, StayKnown, AreFound, root_at};

use crate::place::place_of;
use sp_graph::look_up;
use sp_word::Word;
use std::alloc::{AllocError, Global};

/// Returns the root of a vertex if it is known, and 0 otherwise.
pub(crate) fn root_of(roots: &[u32], vertex: u32) -> u32
    requires { IsVertex (length roots.now) vertex }
    ensures { result ≡ root_at roots.now vertex }
{
    roots[(vertex - 1) as usize]
}

// Returns where a vertex's chain of predecessors begins. It goes back to a vertex whose root is known, or to a source.
fn climb<const P: u32>(words: &[Word<P>], roots: &[u32], vertex: u32) -> u32
    requires vertex { IsVertex (length words.now) vertex }
    requires reached { IsReached (word_at words.now) vertex }
    requires falls { FallsBack (length words.now) (word_at words.now) }
    requires size { length roots.now ≡ length words.now }
    requires known { AreKnown words.now roots.now }
    ensures root { IsRoot (word_at words.now) vertex result }
    ensures some { 1 ≤ result }
{
    let mut at = place_of(words, vertex);
    'steps: while at.dist > 0 && root_of(roots, at.vertex) == 0 {
        at = place_of(words, at.pred);
    }
    let root = root_of(roots, at.vertex);
    if root == 0 { at.vertex } else { root }
}

// Writes the root of the vertices of a chain, up to a vertex whose root is known.
fn mark<const P: u32>(words: &[Word<P>], roots: &mut [u32], vertex: u32, root: u32)
    requires vertex { IsVertex (length words.now) vertex }
    requires reached { IsReached (word_at words.now) vertex }
    requires falls { FallsBack (length words.now) (word_at words.now) }
    requires size { length roots.old ≡ length words.now }
    requires known { AreKnown words.now roots.old }
    requires root { IsRoot (word_at words.now) vertex root }
    requires some { 1 ≤ root }
    ensures size { length roots.new ≡ length words.entry.now }
    ensures known { AreKnown words.entry.now roots.new }
    ensures stays { StayKnown (length words.entry.now) roots.old roots.new }
{
    let mut at = place_of(words, vertex);
    'steps: while at.dist > 0 && root_of(roots, at.vertex) == 0 {
        roots[(at.vertex - 1) as usize] = root;
        at = place_of(words, at.pred);
    }
}

// Finds the root of a vertex, if it is reached.
fn find_root<const P: u32>(words: &[Word<P>], roots: &mut [u32], vertex: u32)
    requires vertex { IsVertex (length words.now) vertex }
    requires falls { FallsBack (length words.now) (word_at words.now) }
    requires size { length roots.old ≡ length words.now }
    requires known { AreKnown words.now roots.old }
    ensures size { length roots.new ≡ length words.entry.now }
    ensures known { AreKnown words.entry.now roots.new }
    ensures stays { StayKnown (length words.entry.now) roots.old roots.new }
    ensures found { IsReached (word_at words.entry.now) vertex → 0 < root_at roots.new vertex }
{
    if look_up(words, vertex).is_unreached() {
        return;
    }
    let root = climb(words, roots, vertex);
    mark(words, roots, vertex, root);
    roots[(vertex - 1) as usize] = root;
}

// Finds the roots of all vertices.
fn fill_roots<const P: u32>(words: &[Word<P>], roots: &mut [u32])
    requires few { length words.now < 2 ^ 32 }
    requires falls { FallsBack (length words.now) (word_at words.now) }
    requires size { length roots.old ≡ length words.now }
    requires known { AreKnown words.now roots.old }
    ensures { AreRoots words.entry.now roots.new }
{
    for place in 0..words.len() {
        find_root(words, roots, place as u32 + 1);
    }
}

/// Returns the root of each vertex, where its chain of predecessors begins; 0 for an unreached vertex. The root of vertex `v` is
/// at index `v - 1`. It allocates once, and takes linear time.
pub fn roots_of<const P: u32>(alloc: Global, words: &[Word<P>]) -> Result<Vec<u32>, AllocError>
    requires few { length words.now < 2 ^ 32 }
    requires falls { FallsBack (length words.now) (word_at words.now) }
    ensures { IfOk result (λ roots. AreRoots words.now roots.items) }
{
    let mut roots = vec![in alloc; 0; words.len()]?;
    fill_roots(words, roots.as_mut_slice());
    Ok(roots)
}
