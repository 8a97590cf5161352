//! The lines of a tree that is given as the words of its vertices, made by several workers, while the calling thread writes them.
ghost use Rattle.std.specs.Prelude.{◌≡◌, ◌+◌, ◌*◌, ◌<◌, ◌≤◌, ◌^◌, [], length, vec_len, IfOk};
ghost use Rattle.std.specs.List.{concat};
ghost use Rattle.sp_device.specs.Printing.{Sends, Finished as Written, Counted};
ghost use Rattle.sp_files.specs.TreeText.{words_text, tree_text};
ghost use denote.Param.Send.{IsSync};

use crate::common_lines::write_end;
use crate::rows::{Numbered, RowSource, words_of};
use crate::trees::page::{MOST_ROWS, Page};
use crate::trees::page_making::make_pages;
use crate::trees::writing::{begin_tree, write_words_in_pages};
use sp_answer::WordTree;
use sp_device::{Printer, Write, WriteFault, print_text};
use sp_word::{Word, Workers};
use std::alloc::{AllocError, Global};
use std::mem::swap;
use std::thread;
use std::thread::{Threads, join_mut};

// A worker for fewer words takes longer to start than it saves.
const LEAST_WORDS: usize = 25_000;

// Returns how many of the workers make pages, while the calling thread writes: for no more workers than processors, and one for
// some thousand words.
fn count_makers<R: Threads>(rt: &R, workers: Workers, words: usize) -> usize
    ensures { result < 64 }
{
    let few = workers.at_most(words / LEAST_WORDS);
    if few.get() == 1 {
        return 0;
    }
    match thread::available_parallelism(rt) {
        Ok(count) => few.at_most(count.get()).get() as usize - 1,
        Err(_) => few.get() as usize - 1,
    }
}

// Returns so many pages with no text.
fn new_pages(alloc: Global, count: usize) -> Result<Vec<Page>, AllocError>
    ensures size { IfOk result (λ pages. vec_len pages ≡ count) }
    ensures empty { IfOk result (λ pages. concat pages.items ≡ []) }
{
    let mut pages = Vec::with_capacity(alloc, count)?;
    for _ in 0..count {
        pages.push(Page::new(alloc)?)?;
    }
    Ok(pages)
}

// Sends the texts of pages, one after the other.
fn send_made<W: Write>(out: &mut W, printer: &mut Printer, pages: &[Page])
    ensures { Sends W.Write (concat pages.now) out.old printer.old out.new printer.new }
{
    for page in pages {
        print_text(out, printer, page.text());
    }
}

// The pages whose texts are sent next, and as many into which others are made.
#[derive(Drop)]
struct Sets {
    ready: Vec<Page>,
    spare: Vec<Page>,
}

// Returns two sets of so many pages with no text.
fn new_sets(alloc: Global, count: usize) -> Result<Sets, AllocError>
    ensures ready { IfOk result (λ sets. vec_len sets.ready ≡ count) }
    ensures spare { IfOk result (λ sets. vec_len sets.spare ≡ count) }
    ensures empty { IfOk result (λ sets. concat sets.ready.items ≡ []) }
{
    Ok(Sets {
        ready: new_pages(alloc, count)?,
        spare: new_pages(alloc, count)?,
    })
}

// Sends the pages that are ready, while other threads make the lines of these words in the spare ones. Then the sets change
// places.
fn send_and_make<R: Threads + Sync, const P: u32, W: Write>(
    rt: &R,
    out: &mut W,
    printer: &mut Printer,
    words: Numbered<Word<P>>,
    sets: &mut Sets,
)
    requires { length words.items.now ≤ vec_len sets.old.spare * 16384 }
    ensures sends { Sends W.Write (concat sets.old.ready.items)
        out.old printer.old out.new printer.new }
    ensures made { concat sets.new.ready.items
        ≡ words_text words.entry.first words.entry.items.now }
    ensures ready { vec_len sets.new.ready ≡ vec_len sets.old.spare }
    ensures spare { vec_len sets.new.spare ≡ vec_len sets.old.ready }
{
    let ready = &sets.ready;
    let spare = &mut sets.spare;
    let mut make = ||
        requires { IsSync R.row × (words.first + length words.items.now < 2 ^ 32)
            × (length words.items.now ≤ vec_len spare.now * 16384) }
        ensures { (vec_len spare.exit.now ≡ vec_len spare.entry.now)
            × (concat spare.exit.now.items ≡ words_text words.entry.first words.entry.items.now) }
    { make_pages(rt, words.first, words.items, spare) };
    let mut send = ||
        ensures { Sends W.Write (concat ready.entry.now.items)
            out.entry.now printer.entry.now out.exit.now printer.exit.now }
    { send_made(out, printer, ready) };
    join_mut(rt, &mut make, &mut send);
    swap(&mut sets.ready, &mut sets.spare);
}

// Returns how many of so many words are made at a time, into so many pages.
fn round_size(words: usize, pages: usize) -> usize
    requires some { 1 ≤ pages }
    requires few { pages < 64 }
    ensures some { 1 ≤ result }
    ensures room { result ≤ pages * 16384 }
{
    (words / 4).min(pages * MOST_ROWS).max(pages)
}

// Sends the lines of words, page after page, while other threads make the next ones.
fn send_words_by<R: Threads + Sync, const P: u32, W: Write>(
    rt: &R,
    out: &mut W,
    printer: &mut Printer,
    words: Numbered<Word<P>>,
    mut sets: Sets,
)
    requires some { 1 ≤ vec_len sets.ready }
    requires few { vec_len sets.ready < 64 }
    requires same { vec_len sets.spare ≡ vec_len sets.ready }
    requires empty { concat sets.ready.items ≡ [] }
    ensures { Sends W.Write (words_text words.entry.first words.entry.items.now)
        out.old printer.old out.new printer.new }
{
    let size = round_size(words.count(), sets.ready.len());
    let mut rest = words;
    while rest.count() > 0 {
        let (group, later) = rest.parted(size.min(rest.count()));
        send_and_make(rt, out, printer, group, &mut sets);
        rest = later;
    }
    send_made(out, printer, &sets.ready);
}

/// Does what `write_words_in_pages` does, by several workers where the tree is large: this thread writes pages, while the others
/// make the next ones.
///
/// It allocates memory for two pages of at most 16,384 rows for each worker but one. Where that is refused, it writes as
/// `write_words_in_pages` does.
pub fn write_words_by<const P: u32, R: Threads + Sync, W: Write>(
    rt: &R,
    alloc: Global,
    tree: &WordTree<P>,
    workers: Workers,
    out: &mut W,
) -> Result<u64, WriteFault>
    ensures written { Written W.Write (tree_text tree.now) out.old result out.new }
    ensures passed { Counted W.Write out.old result out.new }
{
    let makers = count_makers(rt, workers, tree.words().len());
    if makers == 0 {
        return write_words_in_pages(alloc, tree, out);
    }
    let Ok(sets) = new_sets(alloc, makers) else {
        return write_words_in_pages(alloc, tree, out);
    };
    let mut printer = begin_tree(tree.n(), tree.source());
    send_words_by(rt, out, &mut printer, words_of(tree), sets);
    write_end(out, printer, tree.reached())
}
