//! Writes a packed graph.
ghost use Rattle.std.specs.Prelude.{◌≡◌, ◌<◌, ◌^◌, length};
ghost use Rattle.sp_device.specs.Printing.{Sends, Finished, Counted};
ghost use Rattle.sp_packed.specs.Words.{words, sum_on};
ghost use Rattle.sp_packed.specs.Packed.{ends_of, arcs_words, packed_text};

use crate::front::{FIRST, SECOND};
use crate::word_sums::{Sum, sum_numbers};
use sp_device::{Printer, Write, WriteFault, finish, print_text};
use sp_graph::Graph;
use sp_paths::Arc;

// Sends words after the others, and returns the sum that includes them.
fn print_words<W: Write>(out: &mut W, printer: &mut Printer, sum: Sum, numbers: &[u32]) -> Sum
    ensures sends { Sends W.Write (words numbers.now) out.old printer.old out.new printer.new }
    ensures sum { result ≡ sum_on sum numbers.now }
{
    for number in numbers {
        print_text(out, printer, &number.to_le_bytes());
    }
    sum.on(numbers)
}

// Sends the ends of the rows of a graph, and returns the sum that includes them.
fn print_ends<W: Write>(out: &mut W, printer: &mut Printer, sum: Sum, graph: &Graph) -> Sum
    requires { length graph.now.arcs < 2 ^ 32 }
    ensures sends { Sends W.Write (words (ends_of graph.now)) out.old printer.old
        out.new printer.new }
    ensures sum { result ≡ sum_on sum (ends_of graph.now) }
{
    let mut all = print_words(out, printer, sum, &[0]);
    let mut end = 0;
    for v in 0..graph.n() {
        end += graph.row(v + 1).len() as u32;
        all = print_words(out, printer, all, &[end]);
    }
    all
}

// Sends the words of arcs, and returns the sum that includes them.
fn print_arcs<W: Write>(out: &mut W, printer: &mut Printer, sum: Sum, arcs: &[Arc]) -> Sum
    ensures sends { Sends W.Write (words (arcs_words arcs.now)) out.old printer.old
        out.new printer.new }
    ensures sum { result ≡ sum_on sum (arcs_words arcs.now) }
{
    let mut all = sum;
    for arc in arcs {
        all = print_words(out, printer, all, &[arc.head, arc.len]);
    }
    all
}

/// Writes the packed text of a graph, and returns how many bytes it has.
pub fn write_packed<W: Write>(out: &mut W, graph: &Graph) -> Result<u64, WriteFault>
    requires { length graph.now.arcs < 2 ^ 32 }
    ensures written { Finished W.Write (packed_text graph.now) out.old result out.new }
    ensures counted { Counted W.Write out.old result out.new }
{
    let mut printer = Printer::new();
    let front = [FIRST, SECOND, graph.n(), graph.m() as u32];
    let sum = print_words(out, &mut printer, Sum::new(), &front);
    let sum = print_ends(out, &mut printer, sum, graph);
    let sum = print_arcs(out, &mut printer, sum, graph.arcs());
    print_words(out, &mut printer, sum, &sum_numbers(sum));
    finish(out, printer)
}
