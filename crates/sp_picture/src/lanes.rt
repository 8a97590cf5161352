//! The axis of steps, and the lanes of actors and words.

use crate::layout::Layout;
use crate::stretches::{Lane, Stretch};
use crate::texts::draw_lines;
use std::alloc::AllocError;

// Draws the number of a step, and a line below it.
fn draw_step(text: &mut String, layout: &Layout, step: u64) -> Result<(), AllocError> {
    let x = layout.across(step);
    let bottom = layout.bottom();
    writeln!(text, "<text class='number' x='{x}' y='20'>{step}</text>")?;
    writeln!(
        text,
        "<line class='grid' x1='{x}' y1='28' x2='{x}' y2='{bottom}'/>"
    )
}

/// Draws the numbers of the steps.
pub(crate) fn draw_axis(text: &mut String, layout: &Layout) -> Result<(), AllocError> {
    let x = layout.across(0) - 12;
    writeln!(
        text,
        "<text class='note' x='{x}' y='20' text-anchor='end'>step</text>"
    )?;
    for step in 0..layout.steps() {
        draw_step(text, layout, step.saturating_add(1))?;
    }
    Ok(())
}

// Draws the name of a lane to the left of it, and again along it.
fn draw_name(
    text: &mut String,
    layout: &Layout,
    (middle, names): (u64, u64),
    (kind, number): (&str, u32),
) -> Result<(), AllocError> {
    let (x, base) = (layout.across(0) - 12, middle.saturating_add(4));
    writeln!(
        text,
        "<text class='name' x='{x}' y='{base}'>{kind} {number}</text>"
    )?;
    for time in 0..layout.repeats() {
        let x = layout.again(time.saturating_add(1));
        writeln!(
            text,
            "<text class='name again' x='{x}' y='{names}'>{kind} {number}</text>"
        )?;
    }
    Ok(())
}

// Draws the name of an actor, and the line that carries its marks.
fn draw_actor(text: &mut String, layout: &Layout, actor: u32) -> Result<(), AllocError> {
    let y = layout.actor_lane(actor);
    let (start, end) = (layout.across(0), layout.end());
    let heights = (y, layout.actor_names(actor));
    draw_name(text, layout, heights, ("actor", actor))?;
    writeln!(
        text,
        "<line class='lane' x1='{start}' y1='{y}' x2='{end}' y2='{y}'/>"
    )
}

/// Draws the lanes of the actors.
pub(crate) fn draw_actors(
    text: &mut String,
    layout: &Layout,
    actors: u32,
) -> Result<(), AllocError> {
    for actor in 1..=actors {
        draw_actor(text, layout, actor)?;
    }
    Ok(())
}

// Draws a stretch in the lane with this index.
fn draw_stretch<const P: u32>(
    text: &mut String,
    layout: &Layout,
    place: usize,
    stretch: &Stretch<P>,
) -> Result<(), AllocError> {
    let shown = &stretch.text.whole;
    let left = layout.across(stretch.text.from);
    let width = layout.across(stretch.text.until).saturating_sub(left);
    let (middle, height) = (layout.word_lane(place), layout.cell());
    let top = middle.saturating_sub(height / 2);
    let kind = if stretch.word.is_unreached() {
        "unreached"
    } else {
        "word"
    };
    write!(
        text,
        "<rect class='{kind}' x='{left}' y='{top}' width='{width}' height='{height}'>"
    )?;
    writeln!(text, "<title>{shown}</title></rect>")?;
    let lines = &stretch.text.lines;
    let more = (lines.len() as u64).saturating_sub(1);
    let base = (middle + 4).saturating_sub(more.saturating_mul(6));
    draw_lines(text, "value", (left + 4, base), lines)
}

// Draws the lane of a word: what it holds, from each store to the next.
fn draw_word<const P: u32>(
    text: &mut String,
    layout: &Layout,
    place: usize,
    lane: &Lane<P>,
) -> Result<(), AllocError> {
    let heights = (layout.word_lane(place), layout.word_names(place));
    draw_name(text, layout, heights, ("word", lane.vertex))?;
    for stretch in &lane.stretches {
        draw_stretch(text, layout, place, stretch)?;
    }
    Ok(())
}

/// Draws the lanes of the words.
pub(crate) fn draw_words<const P: u32>(
    text: &mut String,
    layout: &Layout,
    lanes: &[Lane<P>],
) -> Result<(), AllocError> {
    for (place, lane) in lanes.iter().enumerate() {
        draw_word(text, layout, place, lane)?;
    }
    Ok(())
}
