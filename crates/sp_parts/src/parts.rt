//! Parts of a text: whole plain lines, read apart from the lines before them. Each part records which bytes were read.
ghost use Rattle.std.specs.Prelude.{◌<◌, ◌≤◌, length, All, IfOk};
ghost use Rattle.sp_parts.specs.Parts.{IsPart};

use memchr::memchr;
use sp_text::{Collector, Feeder, KeepParts};
use std::alloc::{AllocError, Global};

/// The greatest number of parts that are read from a text.
const MOST: u32 = 8;

/// What was read from some whole lines of a text.
#[derive(Drop)]
pub struct Part<K> {
    /// The items.
    pub(crate) keep: K,
    /// The number of lines.
    pub(crate) lines: u64,
    /// Where the first line begins.
    pub(crate) from: usize,
    /// Where the last line ends.
    pub(crate) to: usize,
}

// Returns the position after the first LF at or after the byte before this position, or the end if there is no such LF.
fn line_start(text: &[u8], place: usize) -> usize
    requires { 0 < place }
    ensures { result ≤ length text.now }
{
    if place > text.len() {
        return text.len();
    }
    let (_, behind) = text.split_at(place - 1);
    match memchr(b'\n', behind) {
        Some(end) => place + end,
        None => text.len(),
    }
}

// Reads the plain lines of a text from a position on, up to the first line that isn't plain or that begins at or after
// `until`.
fn read_part<K: KeepParts>(
    reader: &Feeder<Collector<K>>,
    text: &[u8],
    from: usize,
    until: usize,
) -> Result<Part<K>, AllocError>
    requires { from ≤ length text.now }
    ensures { IfOk result (IsPart reader.now text.now) }
{
    let mut keep = reader.fresh_keeper(until.saturating_sub(from))?;
    let mut lines: u64 = 0;
    let (_, mut rest) = text.split_at(from);
    while text.len() - rest.len() < until {
        let Some(more) = reader.take_plain(rest, &mut keep)? else {
            break;
        };
        lines = lines.wrapping_add(1);
        rest = more;
    }
    Ok(Part {
        keep,
        lines,
        from,
        to: text.len() - rest.len(),
    })
}

// Reads the part that begins at the first line after this position. The line with the first byte may have begun before the text,
// and belongs to no part.
fn part_behind<K: KeepParts>(
    reader: &Feeder<Collector<K>>,
    text: &[u8],
    place: usize,
) -> Result<Part<K>, AllocError>
    ensures { IfOk result (IsPart reader.now text.now) }
{
    let from = line_start(text, place.saturating_add(1));
    read_part(reader, text, from, text.len())
}

/// Reads parts of a text, each up to a line that isn't plain, as long as there is memory.
pub(crate) fn read_parts<K: KeepParts>(
    alloc: Global,
    reader: &Feeder<Collector<K>>,
    text: &[u8],
) -> Vec<Part<K>>
    ensures { All (IsPart reader.now text.now) result.items }
{
    let mut parts = Vec::new(alloc);
    let mut place: usize = 0;
    for _ in 0..MOST {
        if text.len() <= place {
            break;
        }
        let Ok(part) = part_behind(reader, text, place) else {
            break;
        };
        place = part.to;
        if parts.push(part).is_err() {
            break;
        }
    }
    parts
}
