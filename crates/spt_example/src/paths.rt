//! The path of a vertex, by predecessors.
ghost use Rattle.std.specs.Prelude.{◌≡◌, Some, IfSome};
ghost use Rattle.sp_word.specs.Word.{pred_of};
ghost use Rattle.sp_paths.specs.Paths.{IsVertex};
ghost use Rattle.sp_answer.specs.Table.{table_of};

use sp_answer::Tree;
use std::alloc::{AllocError, Global};

/// The vertex before this one on its path: none before the source, nor before a vertex that no path leads to.
pub fn before(tree: &Tree<28>, vertex: u32) -> Option<u32>
    requires { IsVertex tree.now.n vertex }
    ensures vertex { IfSome result (IsVertex tree.now.n) }
    ensures word { IfSome result (λ pred. pred_of (table_of tree.now vertex) ≡ Some pred) }
{
    let pred = tree.word(vertex).pred()?;
    if 1 <= pred && pred <= tree.n() {
        Some(pred)
    } else {
        None
    }
}

/// The vertices of the path from the source to this one, or this one alone where none leads there.
pub fn path_to(alloc: Global, tree: &Tree<28>, target: u32) -> Result<Vec<u32>, AllocError>
    requires { IsVertex tree.now.n target }
{
    let mut path = vec![in alloc; target]?;
    let mut vertex = target;
    for _ in 1..tree.n() {
        let Some(pred) = before(tree, vertex) else {
            break
        };
        path.push(pred)?;
        vertex = pred;
    }
    path.reverse();
    Ok(path)
}
