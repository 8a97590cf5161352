//! The answers for pairs, written as one line each and counted.
ghost use Rattle.std.specs.Prelude.{◌≡◌, length, map, All};
ghost use Rattle.std.specs.List.{count_by};
ghost use Rattle.sp_device.specs.Printing.{Sends};
ghost use Rattle.sp_jobs.specs.PairAnswers.{pairs_text};
ghost use Rattle.sp_pairs.specs.Slots.{IsClosed, known_in, line_in, is_far_slot, ArePairsWritten};

use crate::asking::PairState;
use crate::told::PairLine;
use sp_device::{Printer, Write, finish};
use sp_jobs::{BatchError, Summary};

// Sends the line of a pair, if its answer is known.
fn send_line<const P: u32, A: PairLine<P>, W: Write>(
    out: &mut W,
    printer: &mut Printer,
    pair: (u32, u32),
    slot: &PairState<A>,
)
    ensures { Sends W.Write (line_in A.kind A.told pair slot.now)
        out.old printer.old out.new printer.new }
{
    if let PairState::Known(answer) = slot {
        answer.send(out, printer, pair);
    }
}

fn send_lines<const P: u32, A: PairLine<P>, W: Write>(
    out: &mut W,
    printer: &mut Printer,
    pairs: &[(u32, u32)],
    slots: &[PairState<A>],
)
    requires size { length slots.now ≡ length pairs.now }
    requires closed { All IsClosed slots.now }
    ensures { Sends W.Write (pairs_text A.kind pairs.now (map A.told (known_in slots.now)))
        out.old printer.old out.new printer.new }
{
    for (place, slot) in slots.iter().enumerate() {
        send_line::<P, A, W>(out, printer, pairs[place], slot);
    }
}

// Returns whether the answer is known to be a vertex that is too far.
fn is_far<const P: u32, A: PairLine<P>>(slot: &PairState<A>) -> bool
    ensures { result ≡ is_far_slot A.kind A.told slot.now }
{
    match slot {
        PairState::Open { .. } => false,
        PairState::Known(answer) => answer.is_too_far(),
    }
}

fn count_far<const P: u32, A: PairLine<P>>(slots: &[PairState<A>]) -> u64
    ensures { result ≡ count_by A.kind.is_too_far (map A.told (known_in slots.now)) }
{
    let mut count = 0;
    for slot in slots {
        if is_far::<P, A>(slot) {
            count += 1;
        }
    }
    count
}

/// Writes the lines of pairs whose answers are known, in their order, and counts them.
///
/// It allocates no memory. If the writer fails, a prefix of the lines has been written.
pub(crate) fn write_pairs<const P: u32, A: PairLine<P>, W: Write>(
    pairs: &[(u32, u32)],
    slots: &[PairState<A>],
    out: &mut W,
) -> Result<Summary, BatchError>
    requires size { length slots.now ≡ length pairs.now }
    requires closed { All IsClosed slots.now }
    ensures { ArePairsWritten A.kind W.Write pairs.now (map A.told (known_in slots.now))
        out.old result out.new }
{
    let mut printer = Printer::new();
    send_lines::<P, A, W>(out, &mut printer, pairs, slots);
    match finish(out, printer) {
        Ok(bytes) => Ok(Summary {
            sources: pairs.len() as u64,
            too_far: count_far::<P, A>(slots),
            bytes,
        }),
        Err(_) => Err(BatchError::Write),
    }
}
