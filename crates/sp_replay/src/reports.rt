//! Writes the report of a run to a device.
ghost use Rattle.std.specs.Prelude.{◌++◌};
ghost use Rattle.std.specs.List.{flat_map};
ghost use Rattle.sp_device.specs.Printing.{IsSending, Sends, Finished as Written};
ghost use Rattle.sp_replay.specs.ReportText.{call_text, reached_text, reached_from, totals_text, closed_text, report_text};

use crate::lines::{CALL_ROOM, END_ROOM, REACHED_ROOM, push_call, push_end, push_reached};
use sp_device::{Printer, Write, WriteFault, finish, make_room};
use sp_machine::{Finished, Report};
use sp_word::Word;

fn send_call<const P: u32, W: Write>(out: &mut W, printer: &mut Printer, call: &Finished<P>)
    ensures { Sends W.Write (call_text call.now) out.old printer.old out.new printer.new }
{
    make_room(out, printer, CALL_ROOM);
    push_call(&mut printer.block, call);
}

fn send_calls<const P: u32, W: Write>(out: &mut W, printer: &mut Printer, calls: &[Finished<P>])
    ensures { Sends W.Write (flat_map call_text calls.now) out.old printer.old out.new printer.new }
{
    for call in calls {
        send_call(out, printer, call);
    }
}

fn send_reached<const P: u32, W: Write>(
    out: &mut W,
    printer: &mut Printer,
    vertex: u64,
    word: Word<P>,
)
    ensures { Sends W.Write (reached_text vertex word.entry)
        out.old printer.old out.new printer.new }
{
    make_room(out, printer, REACHED_ROOM);
    push_reached(&mut printer.block, vertex, word);
}

/// Sends the lines of the reached vertices.
pub fn send_words<const P: u32, W: Write>(out: &mut W, printer: &mut Printer, words: &[Word<P>])
    ensures { Sends W.Write (reached_from 1 words.now) out.old printer.old out.new printer.new }
{
    for (place, word) in words.iter().enumerate() {
        send_reached(out, printer, (place + 1) as u64, *word);
    }
}

fn send_end<W: Write>(out: &mut W, printer: &mut Printer, wins: u64, losses: u64, closed: bool)
    ensures { Sends W.Write (totals_text wins losses ++ closed_text closed)
        out.old printer.old out.new printer.new }
{
    make_room(out, printer, END_ROOM);
    push_end(&mut printer.block, wins, losses, closed);
}

// Sends the lines of a report with a new printer.
fn print_report<const P: u32, W: Write>(report: &Report<P>, out: &mut W) -> Printer
    ensures { IsSending W.Write (report_text report.now) out.old out.new result }
{
    let mut printer = Printer::new();
    send_calls(out, &mut printer, &report.calls);
    send_words(out, &mut printer, &report.words);
    send_end(out, &mut printer, report.wins, report.losses, report.closed);
    printer
}

/// Writes the lines of a report, and returns their number of bytes.
///
/// It allocates no memory. If the writer fails, a prefix of the lines is written.
pub fn write_report<const P: u32, W: Write>(
    report: &Report<P>,
    out: &mut W,
) -> Result<u64, WriteFault>
    ensures { Written W.Write (report_text report.now) out.old result out.new }
{
    let printer = print_report(report, out);
    finish(out, printer)
}
