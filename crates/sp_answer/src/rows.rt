//! Rows for words.
ghost use Rattle.std.specs.Prelude.{◌≡◌, ◌≤◌, ◌^◌, ◌<◌, ◌++◌, length, map, IfOk, IfSome, OnOk, All};
ghost use Rattle.std.specs.Option.{is_some};
ghost use Rattle.sp_word.specs.Word.{Fits, dist_of};
ghost use Rattle.sp_answer.specs.Table.{row_of, rows_from};
ghost use Rattle.sp_answer.specs.ForestTable.{row_of as rooted_row_of, rows_from as rooted_rows_from};
ghost use Rattle.sp_answer.specs.Rooted.{root_at};
ghost use Rattle.sp_answer.specs.Within.{up_to};

use crate::rooting::root_of;
use sp_word::Word;
use std::alloc::{AllocError, Global};

// Returns how many rows a vertex with this word has: one, or none if it is unreached.
fn rows_of_word<const P: u32>(word: Word<P>) -> usize
    ensures count { result ≡ length (row_of 0 word.entry) }
    ensures range { Fits P word.entry }
{
    match word.dist() {
        Some(_) => 1,
        None => 0,
    }
}

/// Returns the number of words that are not unreached.
pub(crate) fn count_reached<const P: u32>(words: &[Word<P>]) -> usize
    requires { length words.now < 2 ^ 32 }
    ensures count { result ≡ length (rows_from 1 words.now) }
    ensures fits { All (Fits P) words.now }
{
    let mut reached = 0;
    for word in words {
        reached += rows_of_word(*word);
    }
    reached
}

// Appends the row of a vertex, if it is reached.
fn push_reached<const P: u32>(
    rows: &mut Vec<(u32, Word<P>)>,
    vertex: u32,
    word: Word<P>,
) -> Result<(), AllocError>
    ensures rows { OnOk result (rows.new.items ≡ rows.old.items ++ row_of vertex word.entry) }
    ensures range { Fits P word.entry }
{
    match word.dist() {
        Some(_) => Ok(rows.push((vertex, word))?),
        None => Ok(()),
    }
}

/// Returns the rows of the reached vertices, given the words of vertex 1, 2 and so on. It allocates once.
pub fn rows_of<const P: u32>(
    alloc: Global,
    words: &[Word<P>],
) -> Result<Vec<(u32, Word<P>)>, AllocError>
    requires { length words.now < 2 ^ 32 }
    ensures rows { IfOk result (λ rows. rows.items ≡ rows_from 1 words.now) }
    ensures fits { IfOk result (λ rows. All (Fits P) words.now) }
{
    let mut rows = Vec::with_capacity(alloc, count_reached(words))?;
    for (place, word) in words.iter().enumerate() {
        push_reached(&mut rows, place as u32 + 1, *word)?;
    }
    Ok(rows)
}

// Appends the row of a vertex with its root, if it is reached.
fn push_rooted<const P: u32>(
    rows: &mut Vec<(u32, Word<P>, u32)>,
    vertex: u32,
    word: Word<P>,
    root: u32,
) -> Result<(), AllocError>
    ensures rows { OnOk result
        (rows.new.items ≡ rows.old.items ++ rooted_row_of vertex root word.entry) }
    ensures range { Fits P word.entry }
{
    match word.dist() {
        Some(_) => Ok(rows.push((vertex, word, root))?),
        None => Ok(()),
    }
}

/// Returns the rows of the reached vertices with their roots, given the words and the roots of vertex 1, 2 and so on. It allocates once.
pub(crate) fn rooted_rows_of<const P: u32>(
    alloc: Global,
    words: &[Word<P>],
    roots: &[u32],
) -> Result<Vec<(u32, Word<P>, u32)>, AllocError>
    requires few { length words.now < 2 ^ 32 }
    requires size { length roots.now ≡ length words.now }
    ensures rows { IfOk result
        (λ rows. rows.items ≡ rooted_rows_from (root_at roots.now) 1 words.now) }
    ensures fits { IfOk result (λ rows. All (Fits P) words.now) }
{
    let mut rows = Vec::with_capacity(alloc, count_reached(words))?;
    for (place, word) in words.iter().enumerate() {
        let vertex = place as u32 + 1;
        push_rooted(&mut rows, vertex, *word, root_of(roots, vertex))?;
    }
    Ok(rows)
}

// Rows are few if there is at most one for this many vertices.
const FEW: usize = 16;

// Returns whether the distance of a word is at most the limit.
fn is_within<const P: u32>(word: Word<P>, limit: u64) -> bool
    ensures { result ≡ is_some (dist_of (up_to limit word.entry)) }
{
    match word.dist() {
        Some(dist) => dist <= limit,
        None => false,
    }
}

// Appends the row of a vertex, if the distance of its word is at most the limit.
fn push_within<const P: u32>(
    rows: &mut Vec<(u32, Word<P>)>,
    vertex: u32,
    word: Word<P>,
    limit: u64,
) -> Result<(), AllocError>
    ensures rows { OnOk result
        (rows.new.items ≡ rows.old.items ++ row_of vertex (up_to limit word.entry)) }
    ensures range { Fits P word.entry }
{
    match word.dist() {
        Some(dist) if dist <= limit => Ok(rows.push((vertex, word))?),
        _ => Ok(()),
    }
}

// Returns the rows of the words up to the limit, or none if the rows are not few. The list grows with the rows.
fn few_rows<const P: u32>(
    alloc: Global,
    words: &[Word<P>],
    limit: u64,
) -> Result<Option<Vec<(u32, Word<P>)>>, AllocError>
    requires { length words.now < 2 ^ 32 }
    ensures rows { IfOk result (λ few. IfSome few
        (λ rows. rows.items ≡ rows_from 1 (map (up_to limit) words.now))) }
    ensures fits { IfOk result (λ few. IfSome few (λ rows. All (Fits P) words.now)) }
{
    let most = words.len() / FEW;
    let mut rows = Vec::new(alloc);
    for (place, word) in words.iter().enumerate() {
        push_within(&mut rows, place as u32 + 1, *word, limit)?;
        if rows.len() > most {
            return Ok(None);
        }
    }
    rows.shrink_to_fit();
    Ok(Some(rows))
}

// Returns the rows of the words up to the limit. It counts them first, and allocates once.
fn counted_rows<const P: u32>(
    alloc: Global,
    words: &[Word<P>],
    limit: u64,
) -> Result<Vec<(u32, Word<P>)>, AllocError>
    requires { length words.now < 2 ^ 32 }
    ensures rows { IfOk result (λ rows. rows.items ≡ rows_from 1 (map (up_to limit) words.now)) }
    ensures fits { IfOk result (λ rows. All (Fits P) words.now) }
{
    let count = words.iter().filter(|word| is_within(**word, limit)).count();
    let mut rows = Vec::with_capacity(alloc, count)?;
    for (place, word) in words.iter().enumerate() {
        push_within(&mut rows, place as u32 + 1, *word, limit)?;
    }
    Ok(rows)
}

/// Returns the rows of the vertices whose distances are at most the limit, given the words of vertex 1, 2 and so on. If the rows
/// are few, it reads the words once. The list has no more room than the rows need.
pub fn rows_within<const P: u32>(
    alloc: Global,
    words: &[Word<P>],
    limit: u64,
) -> Result<Vec<(u32, Word<P>)>, AllocError>
    requires { length words.now < 2 ^ 32 }
    ensures rows { IfOk result (λ rows. rows.items ≡ rows_from 1 (map (up_to limit) words.now)) }
    ensures fits { IfOk result (λ rows. All (Fits P) words.now) }
{
    match few_rows(alloc, words, limit)? {
        Some(rows) => Ok(rows),
        None => counted_rows(alloc, words, limit),
    }
}
