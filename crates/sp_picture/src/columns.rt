//! The widths of the columns of steps: as wide as their contents need.

use std::alloc::{AllocError, Global};

// The least distance from one step to the next, so that bars of one step stay apart.
const NEAREST: u64 = 32;

// The least distance in a picture of few steps, as long as the lanes are no longer than the legend.
const AMPLE: u64 = 64;

// The approximate length of the legend.
const LEGEND: u64 = 640;

/// Returns the least distance between steps in lanes that end at this step.
pub(crate) fn nearest(end: u64) -> u64 {
    if end == 0 {
        return AMPLE;
    }
    (LEGEND / end).min(AMPLE).max(NEAREST)
}

/// An item that reaches from one step to another, with its width.
#[derive(Clone, Copy)]
pub(crate) struct StepSpan {
    /// The step where it begins; 0 is where the lanes begin.
    pub from: u64,
    /// The later step before which it ends, or the end of the lanes.
    pub until: u64,
    /// Its width.
    pub width: u64,
}

// Returns the place of the next step: as far left as the steps before it and the items that end before it allow.
fn next_place(places: &[u64], spans: &[StepSpan], least: u64) -> u64 {
    let step = places.len() as u64;
    let mut place = places.last().copied().unwrap_or(0).saturating_add(least);
    for span in spans {
        if span.until == step {
            let from = places.get(span.from as usize).copied().unwrap_or(0);
            place = place.max(from.saturating_add(span.width));
        }
    }
    place
}

/// Returns where the lanes begin, the middle of each step, and where the lanes end, all measured from where the lanes
/// begin.
pub(crate) fn places_of(
    alloc: Global,
    steps: u64,
    spans: &[StepSpan],
) -> Result<Vec<u64>, AllocError> {
    let least = nearest(steps.saturating_add(1));
    let mut places = Vec::new(alloc);
    places.push(0)?;
    for _ in 0..=steps {
        let place = next_place(&places, spans, least);
        places.push(place)?;
    }
    Ok(places)
}

/// Returns the distance from the middle of one step to that of another, or to the end of the lanes.
pub(crate) fn room_between(places: &[u64], from: u64, until: u64) -> u64 {
    let start = places.get(from as usize).copied().unwrap_or(0);
    let end = places.get(until as usize).copied().unwrap_or(0);
    end.saturating_sub(start)
}
