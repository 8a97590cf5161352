//! Forests that are written to a device.
ghost use Rattle.std.specs.Prelude.{◌++◌, ◌≡◌, ◌≤◌, ◌+◌, length};
ghost use Rattle.sp_device.specs.Printing.{Finished as Written, Counted};
ghost use Rattle.sp_files.specs.Sending.{Begins};
ghost use Rattle.sp_files.specs.ForestText.{problem_text, is_first, source_count, forest_text, no_forest_text};

use crate::common_lines::LINE_ROOM;
use crate::pages::write_rows;
use sp_answer::Forest;
use sp_device::{Block, Printer, Write, WriteFault, finish};
use sp_text::push_number;
use sp_word::Word;

#[tactic(auto, unfolding(crate::specs::ForestText::no_forest_text))]
fn push_far(block: &mut Block, vertex: u32)
    requires { length block.old + LINE_ROOM ≤ 8192 }
    ensures { block.new ≡ block.old ++ no_forest_text vertex }
{
    block.push(b"x");
    push_number(block, vertex as u64);
    block.push(b"\n");
}

// Returns whether the word is that of a source.
fn is_first<const P: u32>(word: Word<P>) -> bool
    ensures { result ≡ is_first word.entry }
{
    word.pred() == Some(0)
}

// Returns how many of the rows are those of sources.
fn count_sources<const P: u32>(rows: &[(u32, Word<P>, u32)]) -> u64
    ensures { result ≡ source_count rows.now }
{
    let mut count = 0;
    for (_, word, _) in rows {
        if is_first(*word) {
            count += 1;
        }
    }
    count
}

// Returns a printer that sends the problem line of a forest first.
fn begin_forest<const P: u32>(forest: &Forest<P>) -> Printer
    ensures { Begins (problem_text forest.now.n (source_count forest.now.rows)) result }
{
    let mut printer = Printer::new();
    printer.block.push(b"p near");
    push_number(&mut printer.block, forest.n() as u64);
    push_number(&mut printer.block, count_sources(forest.rows()));
    printer.block.push(b"\n");
    printer
}

/// Writes the block of a forest, and returns its number of bytes. A source that was named twice counts once.
///
/// It allocates no memory. If the writer fails, a prefix of the block was written.
pub fn write_forest<const P: u32, W: Write>(
    forest: &Forest<P>,
    out: &mut W,
) -> Result<u64, WriteFault>
    ensures written { Written W.Write (forest_text forest.now) out.old result out.new }
    ensures passed { Counted W.Write out.old result out.new }
{
    let printer = begin_forest(forest);
    write_rows(out, printer, forest.rows(), forest.rows().len())
}

/// Writes the line `x V` of a vertex that is too far from all sources, and returns its number of bytes.
///
/// It allocates no memory. If the writer fails, a prefix of the line was written.
pub fn write_no_forest<W: Write>(vertex: u32, out: &mut W) -> Result<u64, WriteFault>
    ensures written { Written W.Write (no_forest_text vertex) out.old result out.new }
    ensures passed { Counted W.Write out.old result out.new }
{
    let mut printer = Printer::new();
    push_far(&mut printer.block, vertex);
    finish(out, printer)
}
