//! Texts that reach from one step to another, in as many lines as they need there.

use crate::columns::{StepSpan, room_between};
use std::alloc::{AllocError, Global};

// Ten times the width of a character, in a font whose characters all have the same width.
const TEN_CHARACTERS: u64 = 67;

// The space that a text leaves to its right, including the margin at the end of its room.
const APART: u64 = 8;

// A text of at most this many characters is never broken.
const SHORT: usize = 10;

/// The height from one line of a text to the next.
pub(crate) const LINE: u64 = 12;

/// A text that begins at one step and ends before another.
#[derive(Drop)]
pub(crate) struct StepText {
    /// The step where it begins; 0 is where the lanes begin.
    pub from: u64,
    /// The later step before which it ends, or the end of the lanes.
    pub until: u64,
    /// The text, in one line.
    pub whole: String,
    /// Its lines.
    pub lines: Vec<String>,
}

impl StepText {
    /// Makes a text without lines.
    pub(crate) fn new(alloc: Global, from: u64, until: u64, whole: String) -> StepText {
        StepText {
            from,
            until,
            whole,
            lines: Vec::new(alloc),
        }
    }

    /// Returns the least width that it needs: room for its longest part.
    pub(crate) fn span(&self) -> StepSpan {
        StepSpan {
            from: self.from,
            until: self.until,
            width: room_for(longest_part(&self.whole)),
        }
    }

    /// Breaks it into lines, between fields, given the places of the steps.
    pub(crate) fn wrap(&mut self, alloc: Global, places: &[u64]) -> Result<(), AllocError> {
        let room = room_between(places, self.from, self.until);
        self.lines = lines_of(alloc, &self.whole, room)?;
        Ok(())
    }
}

/// Returns the width that a line of this many characters needs.
pub(crate) fn room_for(characters: usize) -> u64 {
    ((characters as u64).saturating_mul(TEN_CHARACTERS) / 10).saturating_add(APART)
}

// Returns the number of characters of the longest part of a text that isn't broken: a field, or the whole of a short
// text.
fn longest_part(text: &str) -> usize {
    if text.len() <= SHORT {
        return text.len();
    }
    let mut longest = 0usize;
    for field in text.split(' ') {
        longest = longest.max(field.len());
    }
    longest
}

// Returns the text in lines that fit the room, unless a single field is longer.
fn lines_of(alloc: Global, text: &str, room: u64) -> Result<Vec<String>, AllocError> {
    let mut lines = Vec::new(alloc);
    let mut line = String::new(alloc);
    for field in text.split(' ') {
        let length = line.len().saturating_add(1).saturating_add(field.len());
        if !line.is_empty() && room < room_for(length) {
            lines.push(line)?;
            line = String::new(alloc);
        }
        if !line.is_empty() {
            line.push(' ')?;
        }
        line.push_str(field)?;
    }
    lines.push(line)?;
    Ok(lines)
}

/// Draws lines, the first of them at this height.
pub(crate) fn draw_lines(
    text: &mut String,
    class: &str,
    (x, y): (u64, u64),
    lines: &[String],
) -> Result<(), AllocError> {
    write!(text, "<text class='{class}' x='{x}' y='{y}'>")?;
    for (place, line) in lines.iter().enumerate() {
        if place == 0 {
            text.push_str(line)?;
        } else {
            write!(text, " <tspan x='{x}' dy='{LINE}'>{line}</tspan>")?;
        }
    }
    text.push_str("</text>\n")
}
