//! The contents of words, from each store to the next.

use crate::columns::StepSpan;
use crate::marks::StepMark;
use crate::shown::WordShown;
use crate::texts::{LINE, StepText};
use sp_machine::Programme;
use sp_word::Word;
use std::alloc::{AllocError, Global};

/// What a word holds from one step to another, with its text.
#[derive(Drop)]
pub(crate) struct Stretch<const P: u32> {
    /// What it holds.
    pub word: Word<P>,
    /// Its text, from the first of these steps to the other.
    pub text: StepText,
}

/// A word that has a lane.
#[derive(Drop)]
pub(crate) struct Lane<const P: u32> {
    /// The vertex whose word it is.
    pub vertex: u32,
    /// What it holds, from the start to the end.
    pub stretches: Vec<Stretch<P>>,
}

// Returns a stretch with its text.
fn stretch_of<const P: u32>(
    alloc: Global,
    word: Word<P>,
    since: u64,
    until: u64,
) -> Result<Stretch<P>, AllocError> {
    let shown = WordShown { word };
    let whole = format!(in alloc; "{shown}")?;
    Ok(Stretch {
        word,
        text: StepText::new(alloc, since, until, whole),
    })
}

// Returns what the step stored to the word of the vertex, if it did.
fn stored_to<const P: u32>(mark: &StepMark<P>, vertex: u32) -> Option<Word<P>> {
    if mark.vertex == vertex {
        mark.stored()
    } else {
        None
    }
}

// Returns what the word of the vertex holds over time, given what it holds at first.
fn stretches_of<const P: u32>(
    alloc: Global,
    vertex: u32,
    opening: Word<P>,
    marks: &[StepMark<P>],
) -> Result<Vec<Stretch<P>>, AllocError> {
    let mut stretches = Vec::new(alloc);
    let mut word = opening;
    let mut since = 0u64;
    for (place, mark) in marks.iter().enumerate() {
        if let Some(stored) = stored_to(mark, vertex) {
            let step = (place as u64).saturating_add(1);
            stretches.push(stretch_of(alloc, word, since, step)?)?;
            word = stored;
            since = step;
        }
    }
    let end = (marks.len() as u64).saturating_add(1);
    stretches.push(stretch_of(alloc, word, since, end)?)?;
    Ok(stretches)
}

/// Returns the words that some step looked at, by rising vertex.
pub(crate) fn lanes_of<const P: u32>(
    alloc: Global,
    programme: &Programme<P>,
    marks: &[StepMark<P>],
) -> Result<Vec<Lane<P>>, AllocError> {
    let machine = programme.machine(alloc)?;
    let mut lanes = Vec::new(alloc);
    for vertex in 1..=programme.words() {
        let word = machine.words().get((vertex - 1) as usize);
        let is_seen = marks.iter().any(|mark| mark.vertex == vertex);
        if let (Some(word), true) = (word, is_seen) {
            let stretches = stretches_of(alloc, vertex, *word, marks)?;
            lanes.push(Lane { vertex, stretches })?;
        }
    }
    Ok(lanes)
}

// Adds the least widths that the texts of a lane need.
fn add_lane_spans<const P: u32>(
    spans: &mut Vec<StepSpan>,
    lane: &Lane<P>,
) -> Result<(), AllocError> {
    for stretch in &lane.stretches {
        spans.push(stretch.text.span())?;
    }
    Ok(())
}

/// Adds the least widths that the texts of these lanes need.
pub(crate) fn add_word_spans<const P: u32>(
    spans: &mut Vec<StepSpan>,
    lanes: &[Lane<P>],
) -> Result<(), AllocError> {
    for lane in lanes {
        add_lane_spans(spans, lane)?;
    }
    Ok(())
}

// Breaks the texts of a lane into lines.
fn wrap_lane<const P: u32>(
    alloc: Global,
    lane: &mut Lane<P>,
    places: &[u64],
) -> Result<(), AllocError> {
    for stretch in lane.stretches.iter_mut() {
        stretch.text.wrap(alloc, places)?;
    }
    Ok(())
}

/// Breaks the texts of these lanes into lines, given the places of the steps.
pub(crate) fn wrap_words<const P: u32>(
    alloc: Global,
    lanes: &mut Vec<Lane<P>>,
    places: &[u64],
) -> Result<(), AllocError> {
    for lane in lanes.iter_mut() {
        wrap_lane(alloc, lane, places)?;
    }
    Ok(())
}

// Returns the greatest number of lines of a text of the lane.
fn lines_in<const P: u32>(lane: &Lane<P>) -> usize {
    let mut most = 0usize;
    for stretch in &lane.stretches {
        most = most.max(stretch.text.lines.len());
    }
    most
}

/// Returns the height of the contents of the lanes, for the text with the most lines.
pub(crate) fn cell_height<const P: u32>(lanes: &[Lane<P>]) -> u64 {
    let mut most = 1usize;
    for lane in lanes {
        most = most.max(lines_in(lane));
    }
    LINE.saturating_mul((most as u64).saturating_add(1))
}
