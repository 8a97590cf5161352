//! Writes the words that offers leave to a device.
ghost use Rattle.std.specs.Prelude.{◌≡◌, ◌≤◌, ◌++◌, length};
ghost use Rattle.sp_device.specs.Printing.{IsSending, Sends, Finished as Written};
ghost use Rattle.sp_replay.specs.ReportText.{reached_count, count_text, words_text};

use crate::lines::{COUNT_ROOM, push_count};
use crate::reports::send_words;
use sp_device::{Printer, Write, WriteFault, finish, make_room};
use sp_word::Word;

// Counts the words that are reached.
#[tactic(auto, using(crate::proofs::ReachedWords::count_next, crate::proofs::ReachedWords::unreached_counts_none, crate::proofs::ReachedWords::reached_counts_one))]
fn count_reached<const P: u32>(words: &[Word<P>]) -> usize
    ensures count { result ≡ reached_count words.now }
{
    let mut count = 0;
    for word in words {
        if !word.is_unreached() {
            count += 1;
        }
    }
    count
}

fn send_count<W: Write>(out: &mut W, printer: &mut Printer, count: u64)
    ensures { Sends W.Write (count_text count) out.old printer.old out.new printer.new }
{
    make_room(out, printer, COUNT_ROOM);
    push_count(&mut printer.block, count);
}

// Sends the lines of the words with a new printer.
fn print_words<const P: u32, W: Write>(words: &[Word<P>], out: &mut W) -> Printer
    ensures { IsSending W.Write (words_text words.now) out.old out.new result }
{
    let mut printer = Printer::new();
    send_words(out, &mut printer, words);
    send_count(out, &mut printer, count_reached(words) as u64);
    printer
}

/// Writes the lines of the reached vertices, by rising vertex, and then their number. The first word is that of vertex 1.
/// Returns the number of bytes.
///
/// It allocates no memory. If the writer fails, a prefix of the lines is written.
pub fn write_words<const P: u32, W: Write>(
    words: &[Word<P>],
    out: &mut W,
) -> Result<u64, WriteFault>
    ensures { Written W.Write (words_text words.now) out.old result out.new }
{
    let printer = print_words(words, out);
    finish(out, printer)
}
