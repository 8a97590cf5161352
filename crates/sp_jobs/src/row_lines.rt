//! The lines of a row, written and counted.
ghost use Rattle.std.specs.Prelude.{◌≡◌, [], ◌∷◌};
ghost use Rattle.std.specs.List.{flat_map, count_by};
ghost use Rattle.sp_device.specs.Printing.{Sends};
ghost use Rattle.sp_jobs.specs.Told.{AreWritten};
ghost use Rattle.sp_jobs.specs.Row.{line_text, is_far_line, told_of_row};

use crate::answers::{BatchError, Summary};
use crate::row::Row;
use sp_answer::PairAnswer;
use sp_device::{Printer, Write, finish};
use sp_files::send_pair;

fn send_row<W: Write>(out: &mut W, printer: &mut Printer, source: u32, lines: &[(u32, PairAnswer)])
    ensures { Sends W.Write
        (flat_map (line_text source) lines.now) out.old printer.old out.new printer.new }
{
    for line in lines {
        send_pair(out, printer, (source, line.0), line.1);
    }
}

fn count_far(lines: &[(u32, PairAnswer)]) -> u64
    ensures { result ≡ count_by is_far_line lines.now }
{
    let mut count = 0;
    for line in lines {
        if let PairAnswer::TooFar(_) = line.1 {
            count += 1;
        }
    }
    count
}

/// Writes the lines of a row, in the order of the targets, and counts them.
///
/// It allocates no memory. If the writer fails, a prefix of the lines has been written.
pub(crate) fn write_row<W: Write>(row: &Row, out: &mut W) -> Result<Summary, BatchError>
    ensures { AreWritten W.Write (told_of_row row.now ∷ []) out.old result out.new }
{
    let mut printer = Printer::new();
    send_row(out, &mut printer, row.source, &row.lines);
    match finish(out, printer) {
        Ok(bytes) => Ok(Summary {
            sources: row.lines.len() as u64,
            too_far: count_far(&row.lines),
            bytes,
        }),
        Err(_) => Err(BatchError::Write),
    }
}
