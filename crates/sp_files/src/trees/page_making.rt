//! The lines of words, made by several threads, each of which fills a page.
ghost use Rattle.std.specs.Prelude.{◌≡◌, ◌+◌, ◌*◌, ◌<◌, ◌≤◌, ◌^◌, length};
ghost use Rattle.std.specs.List.{concat};
ghost use Rattle.sp_files.specs.TreeText.{words_text};
ghost use denote.Param.Send.{IsSync};

use crate::trees::page::{MOST_ROWS, Page};
use sp_word::Word;
use std::thread::{Threads, join_mut};

// Returns how many of the words go to the first of these pages: about as many as to each other, but so many that the rest fit.
fn first_share(words: usize, pages: usize) -> usize
    requires some { 1 ≤ pages }
    requires room { words ≤ pages * 16384 }
    ensures within { result ≤ words }
    ensures fits { result ≤ 16384 }
    ensures others { words + 16384 ≤ result + pages * 16384 }
{
    let least = words.saturating_sub((pages - 1).saturating_mul(MOST_ROWS));
    (words / pages).min(MOST_ROWS).max(least)
}

/// Makes the lines of the reached vertices among those from `first` on, which have these words, in place of the texts of the pages.
/// Each page is filled by a thread of its own, the first ones by others than this.
pub(crate) fn make_pages<R: Threads + Sync, const P: u32>(
    rt: &R,
    first: u32,
    words: &[Word<P>],
    pages: &mut [Page],
)
    requires numbered { first + length words.now < 2 ^ 32 }
    requires room { length words.now ≤ length pages.old * 16384 }
    ensures size { length pages.new ≡ length pages.old }
    ensures text { concat pages.new ≡ words_text first words.now }
{
    if pages.is_empty() {
        return;
    }
    if pages.len() == 1 {
        pages[0].fill(first, words);
        return;
    }
    let share = first_share(words.len(), pages.len());
    let next = first + share as u32;
    let (group, later) = words.split_at(share);
    let (left, right) = pages.split_at_mut(1);
    join_mut(
        rt,
        &mut ||
            requires { (first + length group.now < 2 ^ 32) × (length group.now ≤ 16384)
                × (length left.now ≡ 1) }
            ensures { (length left.exit.now ≡ 1)
                × (concat left.exit.now ≡ words_text first group.entry.now) }
        { left[0].fill(first, group) },
        &mut ||
            requires { IsSync R.row × (next + length later.now < 2 ^ 32)
                × (length later.now ≤ length right.now * 16384) }
            ensures { (length right.exit.now ≡ length right.entry.now)
                × (concat right.exit.now ≡ words_text next later.entry.now) }
        { make_pages(rt, next, later, right) },
    );
}
