//! Error messages, and the advice to use another layout for a graph.
ghost use Rattle.std.specs.Prelude.{◌≡◌, ◌≢◌, true};
ghost use Rattle.sp_command.specs.declared.faults.Fault.TheVariants.{WriteFailed};
ghost use Rattle.sp_order.specs.declared.hints.Telling.TheVariants.{Nothing};
ghost use Rattle.sp_order.specs.Told.{Tells};

use crate::announced::announced_vertices;
use crate::fields::Fields;
use crate::line_hints::{Refused, advice_in, advice_without};
use crate::order::Order;
use crate::usage_hints::{places_hint, usage_hint};
use crate::vertex_hints::{vertex_hint, vertices_in};
use sp_command::{
    Advice, Commands, Fault, FileKind, Hint, Inputs, PredBits, hint_of, output_hint, print_short,
};
use sp_device::{Read, Write};
use sp_dimacs::Lines;
use sp_packed::{PackedField, PackedKind};
use sp_text::{DimacsError, Kind};
use std::io::ErrorKind;

/// The text of an error message.
#[derive(Clone, Copy)]
enum Telling<'a> {
    Nothing,
    Line,
    Lines(Hint<'a>),
}

/// A fault, with the text that reports it.
#[derive(Drop)]
pub struct Refusal<'a> {
    /// Why the order wasn't carried out.
    pub fault: Fault,
    telling: Telling<'a>,
}

impl<'a> Refusal<'a> {
    /// Makes the refusal of an order. If standard output has no reader any more, the refusal has no text.
    pub fn new<C: Commands<'a>, T, F: Inputs>(
        fault: Fault,
        order: &Order<'a, C, T>,
        files: &F,
    ) -> Self
        ensures fault { result.fault ≡ fault }
        ensures unread { result.telling ≡ Nothing → fault ≡ WriteFailed }
    {
        let telling = match second_line(&fault, order, files) {
            None => Telling::Line,
            Some(hint) if is_unread(&fault, order, &hint) => Telling::Nothing,
            Some(hint) => Telling::Lines(hint),
        };
        Refusal { fault, telling }
    }

    /// Writes the lines. A failure of the device is ignored.
    pub fn tell<E: Write>(&self, err: &mut E)
        ensures { Tells E.Write self.now.telling self.now.fault err.old err.new }
    {
        match &self.telling {
            Telling::Nothing => {}
            Telling::Line => {
                let _ = self.fault.write_line(err);
            }
            Telling::Lines(hint) => {
                if self.fault.write_line(err).is_ok() {
                    print_short(err, hint);
                }
            }
        }
    }
}

impl From<Fault> for Refusal<'_> {
    ghost from_gives = { λ fault refusal. (refusal.fault ≡ fault) × (refusal.telling ≢ Nothing) };

    fn from(fault: Fault) -> Self {
        let hint = told_of_words(&fault);
        Refusal {
            fault,
            telling: match hint {
                Some(hint) => Telling::Lines(hint),
                None => Telling::Line,
            },
        }
    }
}

// Returns whether the reader of standard output has closed it.
fn is_unread<C, T>(fault: &Fault, order: &Order<'_, C, T>, hint: &Hint<'_>) -> bool
    ensures { result ≡ true → fault.now ≡ WriteFailed }
{
    let (Fault::WriteFailed, Hint::Reason { reason, .. }) = (fault, hint) else {
        return false;
    };
    reason.kind() == ErrorKind::BrokenPipe && order.output().is_none()
}

// Returns the second line for a fault in the words, if there is one.
fn told_of_words<'a>(fault: &Fault) -> Option<Hint<'a>> {
    match fault {
        Fault::Usage(error) => usage_hint(error),
        _ => None,
    }
}

// Returns the second line for a fault, if there is one.
fn second_line<'a, C: Commands<'a>, T, F: Inputs>(
    fault: &Fault,
    order: &Order<'a, C, T>,
    files: &F,
) -> Option<Hint<'a>> {
    let Order::Run {
        command,
        pred_bits,
        output,
        places,
    } = order
    else {
        return output_hint(None, files);
    };
    match fault {
        Fault::DeltaOutOfRange => Some(Hint::Delta(*pred_bits)),
        Fault::LimitOutOfRange => Some(Hint::Limit(*pred_bits)),
        Fault::NoPlaces => Some(places_hint((*places)?)),
        Fault::NoSuchVertex(vertex, list) => {
            Some(vertex_hint(*vertex, *list, command, *places, files))
        }
        Fault::Input { file, error } => input_hint(
            fault, *file, *error, command, *pred_bits, files,
        ),
        Fault::Packed(error) => match error.kind {
            PackedKind::OutOfRange(PackedField::Vertices) => {
                packed_layout_hint(command, *pred_bits, files)
            }
            _ => hint_of(fault, command, None, files),
        },
        _ => hint_of(fault, command, *output, files),
    }
}

// Returns the second line for an error in a file's text, if there is one: how to decompress or convert the file, the
// layout for its graph, or advice about its line.
fn input_hint<'a, C: Commands<'a>, F: Inputs>(
    fault: &Fault,
    file: FileKind,
    error: DimacsError,
    command: &C,
    pred_bits: PredBits,
    files: &F,
) -> Option<Hint<'a>> {
    if let Some(hint) = hint_of(fault, command, None, files) {
        return Some(hint);
    }
    let path = command.path(file)?;
    if let Some(hint) = layout_hint(file, error, path, files) {
        return Some(hint);
    }
    let refused = Refused {
        command: command.name(),
        file,
        kind: error.kind,
        pred_bits,
        vertices: vertices_in(command.path(FileKind::Graph), files),
    };
    let advice = match files.open_again(path) {
        Some(opened) => advice_in(refused, opened, error.line)?,
        None => advice_without(refused)?,
    };
    Some(Hint::Advice { path, advice })
}

// Returns the advice for a graph with too many vertices for the layout, if another layout can hold them. The graph is
// read again, up to its line `p`.
fn layout_hint<'a, F: Inputs>(
    file: FileKind,
    error: DimacsError,
    path: &'a str,
    files: &F,
) -> Option<Hint<'a>> {
    let DimacsError {
        line,
        kind: Kind::OutOfRange(b'N'),
    } = error
    else {
        return None;
    };
    if file != FileKind::Graph {
        return None;
    }
    layout_for(vertices_on(files.open_again(path)?, line)?, path)
}

// Returns the advice for a packed graph with too many vertices for the layout: another layout if one can hold them, and
// otherwise the range of their number.
fn packed_layout_hint<'a, C: Commands<'a>, F: Inputs>(
    command: &C,
    pred_bits: PredBits,
    files: &F,
) -> Option<Hint<'a>> {
    let path = command.path(FileKind::Graph)?;
    if let Some(file) = files.open_again(path)
        && let Some(vertices) = announced_vertices(file)
        && let Some(hint) = layout_for(vertices, path)
    {
        return Some(hint);
    }
    let advice = Advice::Range {
        field: b'N',
        first: 1,
        last: u64::from(pred_bits.max_pred()),
    };
    Some(Hint::Advice { path, advice })
}

// Returns the advice to use a layout that can hold this many vertices, if there is one.
fn layout_for(vertices: u64, path: &str) -> Option<Hint<'_>> {
    if vertices == 0 {
        return None;
    }
    let pred_bits = PredBits::least_for(vertices)?;
    Some(Hint::Layout {
        path,
        vertices,
        pred_bits,
    })
}

// Returns the number N in the line `p sp N M`, which has this line number.
fn vertices_on<R: Read + Drop>(file: R, line: u64) -> Option<u64> {
    let mut lines = Lines::new(file);
    for _ in 1..line {
        lines.next().ok()??;
    }
    Fields::of(lines.next().ok()??).number(2)
}
