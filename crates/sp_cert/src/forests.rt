//! The words and the sources of a forest, and the faults that its roots show.
ghost use Rattle.std.specs.Prelude.{◌≡◌, ℕ, length, IfOk, All, Some, None};
ghost use Rattle.sp_paths.specs.Paths.{IsVertex, word_at};
ghost use Rattle.sp_answer.specs.ForestTable.{table_of, root_of};
ghost use Rattle.sp_cert.specs.Claims.{sources_in};
ghost use Rattle.sp_cert.specs.Faults.{IsFirstOf, IsBroken, BreaksRoot, FaultAt, FaultOfVertex, earlier_of};
ghost use Rattle.sp_cert.specs.ForestRows.{IsOwnRow};

use crate::fault::{BrokenRule, earlier};
use crate::rule::Rule;
use rayon::prelude::*;
use sp_answer::Forest;
use sp_word::Word;
use std::alloc::{AllocError, Global};
use std::thread::Threads;

/// Returns the words of vertices 1, 2 and so on.
pub fn words_of_forest<const P: u32>(
    alloc: Global,
    forest: &Forest<P>,
) -> Result<Vec<Word<P>>, AllocError>
    ensures size { IfOk result (λ words. length words.items ≡ forest.now.n) }
    ensures words { IfOk result (λ words. (v : ℕ) → IsVertex forest.now.n v
        → word_at words.items v ≡ table_of forest.now v) }
{
    let n = forest.n() as usize;
    let mut words = vec![in alloc; Word::unreached(); n]?;
    for row in forest.rows() {
        words[(row.0 - 1) as usize] = row.1;
    }
    Ok(words)
}

/// Returns the number of vertices whose row has predecessor 0.
pub fn count_of_sources<const P: u32>(forest: &Forest<P>) -> usize
    ensures { result ≡ length (sources_in forest.now) }
{
    let mut count = 0;
    for row in forest.rows() {
        if row.1.pred() == Some(0) {
            count += 1;
        }
    }
    count
}

// Returns the rule that a row's root breaks, if any.
fn broken_by_root<const P: u32>(forest: &Forest<P>, row: &(u32, Word<P>, u32)) -> Option<Rule>
    requires { IsOwnRow forest.now row.now }
    ensures { IsBroken (BreaksRoot (table_of forest.now) (root_of forest.now) row.now.0) result }
{
    let Some(pred) = row.1.pred() else {
        return None;
    };
    if pred == 0 {
        return if row.2 == row.0 {
            None
        } else {
            Some(Rule::OwnSource)
        };
    }
    if forest.root(pred) == Some(row.2) {
        None
    } else {
        Some(Rule::OtherRoot)
    }
}

// Returns the fault that a row's root shows, if any.
fn fault_by_root<const P: u32>(forest: &Forest<P>, row: &(u32, Word<P>, u32)) -> Option<BrokenRule>
    requires { IsOwnRow forest.now row.now }
    ensures { IsFirstOf
        (FaultAt (BreaksRoot (table_of forest.now) (root_of forest.now)) row.now.0) result }
{
    let vertex = row.0;
    match broken_by_root(forest, row) {
        Some(rule) => Some(BrokenRule { vertex, rule }),
        None => None,
    }
}

/// Returns the earliest fault that the root of a vertex shows. The result doesn't depend on how the rows are split into pieces.
pub fn first_of_roots<const P: u32, R: Threads + Sync>(
    rt: &R,
    forest: &Forest<P>,
) -> Option<BrokenRule>
    ensures { IsFirstOf (FaultOfVertex forest.now.n
        (BreaksRoot (table_of forest.now) (root_of forest.now))) result }
{
    forest
        .rows()
        .par_iter()
        .map(
            |row: &(u32, Word<P>, u32)| -> Option<BrokenRule>
                requires { IsOwnRow forest.now row.now }
                ensures { IsFirstOf (FaultAt (BreaksRoot (table_of forest.entry.now)
                    (root_of forest.entry.now)) row.now.0) result }
            { fault_by_root(forest, row) },
        )
        .reduce(
            rt,
            || -> Option<BrokenRule>
                ensures { result ≡ None }
            { None },
            |first: Option<BrokenRule>, second: Option<BrokenRule>| -> Option<BrokenRule>
                ensures { result ≡ earlier_of first second }
            { earlier(first, second) },
        )
}
