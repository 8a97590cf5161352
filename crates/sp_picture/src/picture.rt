//! Makes pictures, and writes them.
ghost use Rattle.std.specs.Prelude.{◌≡◌, ◌<◌, ◌↔◌, length, map, All, IfOk, IsErrOf};
ghost use Rattle.std.specs.String.{string_bytes};
ghost use Rattle.sp_device.specs.Printing.{Finished as Written};
ghost use Rattle.sp_machine.specs.Programme.{IsNumber};
ghost use Rattle.sp_machine.specs.Run.{opening_machine, run_of};
ghost use Rattle.sp_picture.specs.declared.faults.NoPicture.TheVariants.{TooManySteps};
ghost use Rattle.sp_picture.specs.Marks.{marks_from};
ghost use Rattle.sp_picture.specs.Ties.{IsTie, lost_from};

use crate::bars::draw_bars;
use crate::columns::places_of;
use crate::drawing::{Drawing, MOST_STEPS, draw_run};
use crate::faults::NoPicture;
use crate::headings::{write_description, write_title};
use crate::labels::{Label, add_label_spans, draw_labels, labels_of, wrap_labels};
use crate::lanes::{draw_actors, draw_axis, draw_words};
use crate::layout::{LEGEND_HEIGHT, LEGEND_WIDTH, Layout};
use crate::shapes::{draw_marks, draw_stores, draw_ties};
use crate::stretches::{Lane, add_word_spans, cell_height, lanes_of, wrap_words};
use crate::styles::{LEGEND, STYLE};
use sp_device::{Write, WriteFault, write_all};
use sp_machine::Programme;
use std::alloc::{AllocError, Global};

/// A picture of a run.
#[derive(Drop)]
pub struct Picture<const P: u32> {
    /// Its contents.
    pub drawing: Drawing<P>,
    /// Its text, as SVG.
    pub text: String,
}

// What is drawn for a run, with its layout.
#[derive(Drop)]
struct PicturePlan<const P: u32> {
    lanes: Vec<Lane<P>>,
    labels: Vec<Label>,
    layout: Layout,
}

// Draws the start of a picture, and its background.
fn draw_ground(text: &mut String, layout: &Layout) -> Result<(), AllocError> {
    let width = (layout.end() + 16).max(LEGEND_WIDTH);
    let height = layout.bottom() + LEGEND_HEIGHT;
    write!(
        text,
        "<svg xmlns='http://www.w3.org/2000/svg' viewBox='0 0 {width} {height}' "
    )?;
    write!(text, "width='{width}' height='{height}' role='img' ")?;
    text.push_str("aria-labelledby='run-title' aria-describedby='run-desc'>\n")
}

// Draws the legend, which explains the marks and lines, and the end of a picture.
fn draw_legend(text: &mut String, layout: &Layout) -> Result<(), AllocError> {
    let (x, y) = (layout.across(0), layout.bottom() + 26);
    writeln!(text, "<g transform='translate({x} {y})'>")?;
    text.push_str(LEGEND)?;
    text.push_str("</g>\n</svg>\n")
}

// Lays out a drawing: first the widths of the columns, and then the lines of texts between them.
fn plan_of<const P: u32>(
    alloc: Global,
    programme: &Programme<P>,
    drawing: &Drawing<P>,
) -> Result<PicturePlan<P>, AllocError> {
    let marks = drawing.marks.as_slice();
    let steps = marks.len() as u64;
    let mut lanes = lanes_of(alloc, programme, marks)?;
    let mut labels = labels_of(alloc, &drawing.bars, steps.saturating_add(1))?;
    let mut spans = Vec::new(alloc);
    add_label_spans(&mut spans, &labels)?;
    add_word_spans(&mut spans, &lanes)?;
    let places = places_of(alloc, steps, &spans)?;
    wrap_labels(alloc, &mut labels, &places)?;
    wrap_words(alloc, &mut lanes, &places)?;
    let (cell, words) = (cell_height(&lanes), lanes.len());
    let layout = Layout::new(alloc, places, cell, words, programme.actors(), &labels)?;
    Ok(PicturePlan {
        lanes,
        labels,
        layout,
    })
}

// Returns the text of a picture. It draws the bottom layers first.
fn text_of<const P: u32>(
    alloc: Global,
    programme: &Programme<P>,
    drawing: &Drawing<P>,
) -> Result<String, AllocError> {
    let plan = plan_of(alloc, programme, drawing)?;
    let (layout, lanes) = (&plan.layout, plan.lanes.as_slice());
    let marks = drawing.marks.as_slice();
    let mut text = String::new(alloc);
    draw_ground(&mut text, layout)?;
    write_title(
        &mut text,
        layout.steps(),
        programme.actors(),
        lanes.len() as u64,
    )?;
    write_description(&mut text, drawing)?;
    text.push_str(STYLE)?;
    draw_axis(&mut text, layout)?;
    draw_stores(&mut text, layout, lanes, marks)?;
    draw_words(&mut text, layout, lanes)?;
    draw_actors(&mut text, layout, programme.actors())?;
    draw_bars(&mut text, layout, &drawing.bars)?;
    draw_ties(&mut text, layout, marks, &drawing.ties)?;
    draw_labels(&mut text, layout, &plan.labels)?;
    draw_marks(&mut text, layout, marks)?;
    draw_legend(&mut text, layout)?;
    Ok(text)
}

/// Makes the picture of the programme's run, with one step of each of these actors in turn. It fails if there are more
/// steps than a picture shows, or if there is no memory.
pub fn picture_of<const P: u32>(
    alloc: Global,
    programme: &Programme<P>,
    steps: &[u32],
) -> Result<Picture<P>, NoPicture>
    requires { All (IsNumber programme.now.actors) steps.now }
    ensures bars { IfOk result
        (λ picture. picture.drawing.bars.items ≡ (run_of programme.now steps.now).log.calls) }
    ensures marks { IfOk result (λ picture. picture.drawing.marks.items
        ≡ marks_from (opening_machine programme.now) steps.now) }
    ensures lost { IfOk result (λ picture. map (λ tie. tie.lost) picture.drawing.ties.items
        ≡ lost_from 0 picture.drawing.marks.items) }
    ensures tied { IfOk result
        (λ picture. All (IsTie picture.drawing.marks.items) picture.drawing.ties.items) }
    ensures many { IsErrOf result TooManySteps ↔ (MOST_STEPS < length steps.now) }
{
    let drawing = draw_run(alloc, programme, steps)?;
    let text = text_of(alloc, programme, &drawing)?;
    Ok(Picture { drawing, text })
}

/// Writes the text of a picture, and returns its number of bytes.
///
/// It allocates no memory. If the writer fails, a prefix of the text is written.
pub fn write_picture<const P: u32, W: Write>(
    picture: &Picture<P>,
    out: &mut W,
) -> Result<u64, WriteFault>
    ensures { Written W.Write (string_bytes picture.now.text) out.old result out.new }
{
    let bytes = picture.text.as_bytes();
    write_all(out, bytes)?;
    Ok(bytes.len() as u64)
}
