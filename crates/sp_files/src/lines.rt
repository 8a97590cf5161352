//! The lines of the files of trees and forests, and the reading of one by itself.
ghost use Rattle.std.specs.Prelude.{◌≡◌};
ghost use Rattle.sp_files.specs.Fields.{fields};
ghost use Rattle.sp_files.specs.Spelling.{row_of, problem_of, first_of, end_of, line_in, capped_line};

use crate::fields::{first_field, last_number, next_number};

/// The numbers of a row's line.
#[derive(Clone, Copy)]
pub struct RowNumbers {
    pub vertex: u64,
    pub dist: u64,
    pub pred: u64,
    /// The root, which a forest's row has.
    pub root: Option<u64>,
}

/// A line of a file. A number above 2^64 - 1 is kept as 2^64 - 1.
#[derive(Clone, Copy)]
pub enum Line {
    /// The number of vertices, and the source of a tree, or the number of sources of a forest (`near`).
    Problem { near: bool, n: u64, second: u64 },
    Row(RowNumbers),
    End { count: u64 },
}

// Reads `V D P` or `V D P S`.
fn read_row(text: &[u8]) -> Option<Line>
    ensures { result ≡ capped_line (row_of (fields text.now)) }
{
    let (vertex, Some(rest)) = next_number(text)? else {
        return None;
    };
    let (dist, Some(rest)) = next_number(rest)? else {
        return None;
    };
    let (pred, rest) = next_number(rest)?;
    let root = match rest {
        Some(rest) => Some(last_number(rest)?),
        None => None,
    };
    Some(Line::Row(RowNumbers {
        vertex,
        dist,
        pred,
        root,
    }))
}

// Reads `N` and one more number.
fn read_problem(near: bool, text: &[u8]) -> Option<Line>
    ensures { result ≡ capped_line (problem_of near (fields text.now)) }
{
    let (n, Some(rest)) = next_number(text)? else {
        return None;
    };
    let second = last_number(rest)?;
    Some(Line::Problem { near, n, second })
}

// Reads `spt N S` or `near N K`.
fn read_first(text: &[u8]) -> Option<Line>
    ensures { result ≡ capped_line (first_of (fields text.now)) }
{
    match first_field(text) {
        (b"spt", Some(numbers)) => read_problem(false, numbers),
        (b"near", Some(numbers)) => read_problem(true, numbers),
        _ => None,
    }
}

// Reads `R`.
fn read_end(text: &[u8]) -> Option<Line>
    ensures { result ≡ capped_line (end_of (fields text.now)) }
{
    let count = last_number(text)?;
    Some(Line::End { count })
}

/// Returns the line that the bytes spell, if they spell it in its one form.
#[tactic(auto, unfolding(crate::specs::Spelling::line_in))]
pub fn read_line(bytes: &[u8]) -> Option<Line>
    ensures { result ≡ capped_line (line_in bytes.now) }
{
    let (letter, Some(rest)) = first_field(bytes) else {
        return None;
    };
    match letter {
        b"v" => read_row(rest),
        b"p" => read_first(rest),
        b"e" => read_end(rest),
        _ => None,
    }
}
