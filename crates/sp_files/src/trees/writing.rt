//! Trees that are written to a device.
ghost use Rattle.std.specs.Prelude.{◌++◌, ◌≡◌};
ghost use Rattle.sp_device.specs.Printing.{Finished as Written, Counted};
ghost use Rattle.sp_files.specs.Sending.{Begins};
ghost use Rattle.sp_files.specs.TreeText.{problem_text, tree_text, far_text};

use crate::common_lines::push_far;
use crate::pages::{write_in_pages, write_rows};
use crate::rows::words_of;
use sp_answer::{Tree, WordTree};
use sp_device::{Printer, Write, WriteFault, finish};
use sp_text::push_number;
use std::alloc::Global;

/// Returns a printer that sends the problem line of a tree first.
pub(crate) fn begin_tree(n: u32, source: u32) -> Printer
    ensures { Begins (problem_text n source) result }
{
    let mut printer = Printer::new();
    printer.block.push(b"p spt");
    push_number(&mut printer.block, n as u64);
    push_number(&mut printer.block, source as u64);
    printer.block.push(b"\n");
    printer
}

/// Writes the block of a tree, and returns its number of bytes.
///
/// It allocates no memory. If the writer fails, a prefix of the block was written.
pub fn write_tree<const P: u32, W: Write>(tree: &Tree<P>, out: &mut W) -> Result<u64, WriteFault>
    ensures written { Written W.Write (tree_text tree.now) out.old result out.new }
    ensures passed { Counted W.Write out.old result out.new }
{
    let printer = begin_tree(tree.n(), tree.source());
    write_rows(out, printer, tree.rows(), tree.rows().len())
}

/// Does what `write_tree` does, in larger pieces and in less time.
///
/// It allocates memory for the lines of at most 8,192 rows. Where that is refused, it writes as `write_tree` does.
pub fn write_tree_in_pages<const P: u32, W: Write>(
    alloc: Global,
    tree: &Tree<P>,
    out: &mut W,
) -> Result<u64, WriteFault>
    ensures written { Written W.Write (tree_text tree.now) out.old result out.new }
    ensures passed { Counted W.Write out.old result out.new }
{
    let printer = begin_tree(tree.n(), tree.source());
    write_in_pages(alloc, out, printer, tree.rows(), tree.rows().len())
}

/// Does what `write_tree_in_pages` does, for a tree that is given as the words of its vertices.
pub fn write_words_in_pages<const P: u32, W: Write>(
    alloc: Global,
    tree: &WordTree<P>,
    out: &mut W,
) -> Result<u64, WriteFault>
    ensures written { Written W.Write (tree_text tree.now) out.old result out.new }
    ensures passed { Counted W.Write out.old result out.new }
{
    let printer = begin_tree(tree.n(), tree.source());
    write_in_pages(alloc, out, printer, words_of(tree), tree.reached())
}

/// Writes the line `x S V` of a source and a vertex that is too far from it, and returns its number of bytes.
///
/// It allocates no memory. If the writer fails, a prefix of the line was written.
pub fn write_far<W: Write>(source: u32, vertex: u32, out: &mut W) -> Result<u64, WriteFault>
    ensures written { Written W.Write (far_text source vertex) out.old result out.new }
    ensures passed { Counted W.Write out.old result out.new }
{
    let mut printer = Printer::new();
    push_far(&mut printer.block, source, vertex);
    finish(out, printer)
}
