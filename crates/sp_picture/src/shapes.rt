//! Draws the marks of steps, and the lines between them.

use crate::layout::Layout;
use crate::marks::{Deed, StepMark};
use crate::shown::WordShown;
use crate::stretches::Lane;
use crate::ties::Tie;
use std::alloc::AllocError;

// A point of a picture.
#[derive(Clone, Copy)]
struct Point {
    x: u64,
    y: u64,
}

// Returns where the mark of the step at this index is drawn.
fn point_of<const P: u32>(layout: &Layout, place: usize, mark: &StepMark<P>) -> Point {
    Point {
        x: layout.across((place as u64).saturating_add(1)),
        y: layout.actor_lane(mark.actor),
    }
}

// Writes in words what a step was.
fn tell_step<const P: u32>(
    text: &mut String,
    place: usize,
    mark: &StepMark<P>,
) -> Result<(), AllocError> {
    let step = place.saturating_add(1);
    let (actor, vertex) = (mark.actor, mark.vertex);
    write!(text, "step {step}: actor {actor} ")?;
    match mark.deed() {
        Deed::Rest => text.push_str("has no call left")?,
        Deed::Load => write!(text, "loads word {vertex}")?,
        Deed::Won => write!(text, "wins its exchange at word {vertex}")?,
        Deed::Lost => write!(text, "loses its exchange at word {vertex}")?,
    }
    if let Some(word) = mark.stored() {
        let shown = WordShown { word };
        write!(text, ", and stores {shown}")?;
    }
    if mark.acts() {
        text.push_str("; its call acts here")?;
    }
    Ok(())
}

// Draws the shape of a step.
fn draw_shape(text: &mut String, deed: Deed, at: Point) -> Result<(), AllocError> {
    let (x, y) = (at.x, at.y);
    match deed {
        Deed::Rest => {
            let (start, end) = (x.saturating_sub(8), x.saturating_add(8));
            write!(
                text,
                "<line class='dash' x1='{start}' y1='{y}' x2='{end}' y2='{y}'/>"
            )
        }
        Deed::Load => write!(text, "<circle class='dot' cx='{x}' cy='{y}' r='4'/>"),
        Deed::Won => write!(text, "<circle class='dot' cx='{x}' cy='{y}' r='7'/>"),
        Deed::Lost => {
            let (start, top) = (x.saturating_sub(6), y.saturating_sub(6));
            write!(
                text,
                "<path class='cross' d='M{start} {top} l12 12 m0 -12 l-12 12'/>"
            )
        }
    }
}

// Draws the mark of the step at this index.
fn draw_mark<const P: u32>(
    text: &mut String,
    layout: &Layout,
    place: usize,
    mark: &StepMark<P>,
) -> Result<(), AllocError> {
    let at = point_of(layout, place, mark);
    let deed = mark.deed();
    let name = match deed {
        Deed::Rest => "rest",
        Deed::Load => "load",
        Deed::Won => "won",
        Deed::Lost => "lost",
    };
    write!(text, "<g class='mark {name}'><title>")?;
    tell_step(text, place, mark)?;
    text.push_str("</title>")?;
    draw_shape(text, deed, at)?;
    if mark.acts() {
        let (x, y) = (at.x, at.y);
        write!(text, "<circle class='ring' cx='{x}' cy='{y}' r='10'/>")?;
    }
    text.push_str("</g>\n")
}

/// Draws a mark for each step.
pub(crate) fn draw_marks<const P: u32>(
    text: &mut String,
    layout: &Layout,
    marks: &[StepMark<P>],
) -> Result<(), AllocError> {
    for (place, mark) in marks.iter().enumerate() {
        draw_mark(text, layout, place, mark)?;
    }
    Ok(())
}

// Draws a line from the lane of the word to the step that stored to it.
fn draw_store<const P: u32>(
    text: &mut String,
    layout: &Layout,
    lanes: &[Lane<P>],
    place: usize,
    mark: &StepMark<P>,
) -> Result<(), AllocError> {
    let vertex = mark.vertex;
    let Some(lane) = lanes.iter().position(|lane| lane.vertex == vertex) else {
        return Ok(());
    };
    let at = point_of(layout, place, mark);
    let (x, y) = (at.x, at.y);
    let top = layout.word_lane(lane) + layout.cell() / 2;
    writeln!(
        text,
        "<line class='stores' x1='{x}' y1='{top}' x2='{x}' y2='{y}'/>"
    )
}

/// Draws a line for each store, from the lane of its word.
pub(crate) fn draw_stores<const P: u32>(
    text: &mut String,
    layout: &Layout,
    lanes: &[Lane<P>],
    marks: &[StepMark<P>],
) -> Result<(), AllocError> {
    for (place, mark) in marks.iter().enumerate() {
        if mark.deed() == Deed::Won {
            draw_store(text, layout, lanes, place, mark)?;
        }
    }
    Ok(())
}

// Draws a line from a lost exchange back to the load whose word it expected.
fn draw_expected(text: &mut String, lost: Point, load: Point) -> Result<(), AllocError> {
    let (x, start) = (lost.x, load.x);
    let (y, top) = (lost.y.saturating_sub(11), lost.y.saturating_sub(26));
    write!(
        text,
        "<path class='expected' d='M{x} {y} C{x} {top} {start} {top} {start} {y}'>"
    )?;
    text.push_str("<title>it expected the word of this load</title></path>\n")
}

// Draws a line to a lost exchange from the store that beat it.
fn draw_beaten(text: &mut String, lost: Point, store: Point) -> Result<(), AllocError> {
    let (x, y) = (lost.x, lost.y);
    let (start, top) = (store.x, store.y);
    write!(
        text,
        "<line class='beaten' x1='{start}' y1='{top}' x2='{x}' y2='{y}'>"
    )?;
    text.push_str("<title>it was lost by this store</title></line>\n")
}

// Draws the lines of a lost exchange.
fn draw_tie<const P: u32>(
    text: &mut String,
    layout: &Layout,
    marks: &[StepMark<P>],
    tie: &Tie,
) -> Result<(), AllocError> {
    let Some(mark) = marks.get(tie.lost) else {
        return Ok(());
    };
    let lost = point_of(layout, tie.lost, mark);
    if let Some(load) = tie.load {
        if let Some(mark) = marks.get(load) {
            draw_expected(text, lost, point_of(layout, load, mark))?;
        }
    }
    if let Some(store) = tie.store {
        if let Some(mark) = marks.get(store) {
            draw_beaten(text, lost, point_of(layout, store, mark))?;
        }
    }
    Ok(())
}

/// Draws the lines of the lost exchanges.
pub(crate) fn draw_ties<const P: u32>(
    text: &mut String,
    layout: &Layout,
    marks: &[StepMark<P>],
    ties: &[Tie],
) -> Result<(), AllocError> {
    for tie in ties {
        draw_tie(text, layout, marks, tie)?;
    }
    Ok(())
}
