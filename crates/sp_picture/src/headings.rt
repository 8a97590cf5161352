//! The description of a picture in words, for readers who don't see it.

use crate::drawing::Drawing;
use crate::shown::CallShown;
use crate::ties::Tie;
use sp_machine::Finished;
use std::alloc::AllocError;

// Writes a number of things, with their name.
fn write_count(text: &mut String, count: u64, one: &str, more: &str) -> Result<(), AllocError> {
    let what = if count == 1 { one } else { more };
    write!(text, "{count} {what}")
}

/// Writes the title of a picture: the numbers of steps, actors and words of its run.
pub(crate) fn write_title(
    text: &mut String,
    steps: u64,
    actors: u32,
    words: u64,
) -> Result<(), AllocError> {
    text.push_str("<title id='run-title'>A run of ")?;
    write_count(text, steps, "step", "steps")?;
    text.push_str(" by ")?;
    write_count(text, u64::from(actors), "actor", "actors")?;
    text.push_str(" on ")?;
    write_count(text, words, "word", "words")?;
    text.push_str("</title>\n")
}

// Writes the calls as their bars show them.
fn write_calls<const P: u32>(text: &mut String, calls: &[Finished<P>]) -> Result<(), AllocError> {
    for call in calls {
        let shown = CallShown { call: *call };
        let (first, last) = (call.first, call.last);
        write!(text, " Steps {first} to {last}: {shown}.")?;
    }
    Ok(())
}

// Writes the lost exchanges.
fn write_losses(text: &mut String, ties: &[Tie]) -> Result<(), AllocError> {
    for tie in ties {
        let step = tie.lost.saturating_add(1);
        write!(text, " The exchange at step {step} was lost")?;
        if let Some(store) = tie.store {
            let store = store.saturating_add(1);
            write!(text, " to the store at step {store}")?;
        }
        text.push('.')?;
    }
    Ok(())
}

/// Writes what a picture shows: the calls that ended, and the lost exchanges.
pub(crate) fn write_description<const P: u32>(
    text: &mut String,
    drawing: &Drawing<P>,
) -> Result<(), AllocError> {
    text.push_str("<desc id='run-desc'>")?;
    write_count(text, drawing.bars.len() as u64, "call", "calls")?;
    text.push_str(" ended, ")?;
    write_count(text, drawing.ties.len() as u64, "exchange", "exchanges")?;
    text.push_str(" lost.")?;
    write_calls(text, &drawing.bars)?;
    write_losses(text, &drawing.ties)?;
    text.push_str("</desc>\n")
}
