//! The labels of calls, below or above their bars.

use crate::columns::{StepSpan, nearest};
use crate::layout::Layout;
use crate::shown::CallShown;
use crate::texts::{LINE, StepText, draw_lines, room_for};
use sp_machine::Finished;
use std::alloc::{AllocError, Global};

/// The side of its bar on which a label is drawn.
#[derive(Clone, Copy, PartialEq, Eq)]
pub(crate) enum Side {
    Below,
    Above,
}

impl Side {
    // Returns the other side.
    fn other(self) -> Side {
        match self {
            Side::Below => Side::Above,
            Side::Above => Side::Below,
        }
    }
}

/// The label of a call at its bar.
#[derive(Drop)]
pub(crate) struct Label {
    /// The actor that made the call.
    pub actor: u32,
    /// The side on which the label is drawn.
    pub side: Side,
    /// Its text.
    pub text: StepText,
}

// Returns whether the label, in one line, ends before this step even if columns are no wider than this.
fn ends_before(label: &Label, step: u64, least: u64) -> bool {
    let steps = step.saturating_sub(label.text.from);
    room_for(label.text.whole.len()) <= steps.saturating_mul(least)
}

// Returns the side for the label of the actor's next call: below its bar if the labels there leave room, and otherwise
// the side that the label before it doesn't have.
fn next_side(labels: &[Label], actor: u32, first: u64, least: u64) -> Side {
    let mut is_free = true;
    let mut before = Side::Above;
    for label in labels {
        if label.actor == actor {
            before = label.side;
            is_free = is_free && (label.side == Side::Above || ends_before(label, first, least));
        }
    }
    if is_free { Side::Below } else { before.other() }
}

// Lets the labels on this side of the actor's lane end before this step.
fn end_others(labels: &mut Vec<Label>, actor: u32, side: Side, step: u64) {
    for label in labels.iter_mut() {
        if label.actor == actor && label.side == side {
            label.text.until = label.text.until.min(step);
        }
    }
}

/// Returns the labels of calls, in lanes that end at this step.
pub(crate) fn labels_of<const P: u32>(
    alloc: Global,
    calls: &[Finished<P>],
    end: u64,
) -> Result<Vec<Label>, AllocError> {
    let mut labels = Vec::new(alloc);
    for call in calls {
        let (actor, first) = (call.ended.actor, call.first);
        let side = next_side(&labels, actor, first, nearest(end));
        end_others(&mut labels, actor, side, first);
        let shown = CallShown { call: *call };
        let whole = format!(in alloc; "{shown}")?;
        let text = StepText::new(alloc, first, end, whole);
        labels.push(Label { actor, side, text })?;
    }
    Ok(labels)
}

/// Adds the least widths that the labels need.
pub(crate) fn add_label_spans(
    spans: &mut Vec<StepSpan>,
    labels: &[Label],
) -> Result<(), AllocError> {
    for label in labels {
        spans.push(label.text.span())?;
    }
    Ok(())
}

/// Breaks the labels into lines, given the places of the steps.
pub(crate) fn wrap_labels(
    alloc: Global,
    labels: &mut Vec<Label>,
    places: &[u64],
) -> Result<(), AllocError> {
    for label in labels.iter_mut() {
        label.text.wrap(alloc, places)?;
    }
    Ok(())
}

/// Returns the greatest number of lines of a label on this side of the actor's lane.
pub(crate) fn most_lines(labels: &[Label], actor: u32, side: Side) -> u64 {
    let mut most = 0u64;
    for label in labels {
        if label.actor == actor && label.side == side {
            most = most.max(label.text.lines.len() as u64);
        }
    }
    most
}

/// Draws the labels of the calls.
pub(crate) fn draw_labels(
    text: &mut String,
    layout: &Layout,
    labels: &[Label],
) -> Result<(), AllocError> {
    for label in labels {
        let x = layout.across(label.text.from) - 12;
        let lane = layout.actor_lane(label.actor);
        let more = (label.text.lines.len() as u64).saturating_sub(1);
        let y = match label.side {
            Side::Below => lane + 25,
            Side::Above => lane.saturating_sub(LINE.saturating_mul(more).saturating_add(25)),
        };
        draw_lines(text, "text", (x, y), &label.text.lines)?;
    }
    Ok(())
}
