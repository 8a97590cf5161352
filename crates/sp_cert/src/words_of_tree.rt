//! The words of a tree by vertex.
ghost use Rattle.std.specs.Prelude.{◌≡◌, ℕ, length, IfOk};
ghost use Rattle.sp_paths.specs.Paths.{IsVertex, word_at};
ghost use Rattle.sp_answer.specs.Table.{table_of};

use sp_answer::Tree;
use sp_word::Word;
use std::alloc::{AllocError, Global};

/// Returns the words of vertices 1, 2 and so on.
pub fn words_of<const P: u32>(alloc: Global, tree: &Tree<P>) -> Result<Vec<Word<P>>, AllocError>
    ensures size { IfOk result (λ words. length words.items ≡ tree.now.n) }
    ensures words { IfOk result (λ words. (v : ℕ) → IsVertex tree.now.n v
        → word_at words.items v ≡ table_of tree.now v) }
{
    let n = tree.n() as usize;
    let mut words = vec![in alloc; Word::unreached(); n]?;
    for row in tree.rows() {
        words[(row.0 - 1) as usize] = row.1;
    }
    Ok(words)
}
