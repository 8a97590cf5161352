//! The tree of shortest paths from a vertex.
ghost use Rattle.std.specs.Prelude.{◌≤◌, IfOk};
ghost use Rattle.sp_word.specs.Word.{max_pred};
ghost use Rattle.sp_answer.specs.Answer.{IsAnswer};

use crate::paths::{before, path_to};
use crate::roads::roads;
use anyhow::Result;
use sp_answer::Tree;
use sp_graph::Graph;
use sp_run::{RunError, run_source};
use sp_word::{Delta, Workers};
use std::sync::Wait;
use std::thread::Threads;

// The tree from vertex 1, in words with 28 bits of predecessor. The clause is all that a caller of this function needs.
fn tree_from_first<R: AllocGlobal + Threads + Wait + Sync>(
    rt: &R,
    graph: &Graph,
) -> Result<Tree<28>, RunError>
    requires { graph.now.n ≤ max_pred 28 }
    ensures { IfOk result (IsAnswer 28 graph.now 1) }
{
    let (delta, workers) = (Delta::new(3).unwrap(), Workers::new(4).unwrap());
    run_source(rt, rt.alloc(), graph, delta, workers, 1)
}

/// Prints each vertex's distance from vertex 1 and the vertex before it, and the path to vertex 5.
pub fn show<R: AllocGlobal + Print + Threads + Wait + Sync>(rt: &R) -> Result<()> {
    let graph = roads(rt.alloc())?;
    let tree = tree_from_first(rt, &graph)?;
    for vertex in 1..tree.n() + 1 {
        match (tree.word(vertex).dist(), before(&tree, vertex)) {
            (Some(dist), Some(pred)) => println!(rt; "{vertex}: distance {dist}, by {pred}")?,
            (Some(dist), None) => println!(rt; "{vertex}: distance {dist}")?,
            (None, _) => println!(rt; "{vertex}: no path")?,
        }
    }
    println!(rt; "path to 5: {:?}", path_to(rt.alloc(), &tree, 5)?)?;
    Ok(())
}
