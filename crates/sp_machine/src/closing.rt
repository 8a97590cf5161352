//! Whether a run is closed.
ghost use Rattle.std.specs.Prelude.{◌≡◌, ◌↔◌, List, All, IsTrue, IfOk};
ghost use Rattle.sp_word.specs.Word.{dist_of};
ghost use Rattle.sp_machine.specs.declared.effect.Relaxation.{Relaxation as Finish};
ghost use Rattle.sp_paths.specs.Paths.{word_at};
ghost use Rattle.sp_machine.specs.Run.{IsItemClosed};
ghost use Rattle.sp_machine.specs.Closing.{HasJust};

use crate::effect::Relaxation;
use crate::item::Item;
use sp_word::Word;
use std::alloc::{AllocError, Global};
use std::collections::HashSet;

/// Returns these relaxations as a set.
pub(crate) fn set_of(
    alloc: Global,
    relaxed: &[Relaxation],
) -> Result<HashSet<Relaxation>, AllocError>
    ensures { IfOk result (λ set. HasJust set relaxed.now) }
{
    let mut set = HashSet::new(alloc);
    for relaxation in relaxed {
        set.insert(*relaxation)?;
    }
    Ok(set)
}

fn dist_at<const P: u32>(words: &[Word<P>], vertex: u32) -> Option<u64>
    ensures { result ≡ dist_of (word_at words.now vertex) }
{
    words.get(vertex.saturating_sub(1) as usize)?.dist()
}

fn is_item_closed<const P: u32>(
    item: &Item<P>,
    words: &[Word<P>],
    done: &HashSet<Relaxation>,
) -> bool
    ensures { (relaxed : List Finish) → HasJust done.now relaxed
        → IsTrue result ↔ IsItemClosed words.now relaxed item.now }
{
    let Item::Relax { tail, head, len } = *item else {
        return true;
    };
    let Some(dist) = dist_at(words, tail) else {
        return true;
    };
    done.contains(&Relaxation {
        tail,
        head,
        len,
        loaded: Some(dist),
    })
}

fn is_row_closed<const P: u32>(
    row: &[Item<P>],
    words: &[Word<P>],
    done: &HashSet<Relaxation>,
) -> bool
    ensures { (relaxed : List Finish) → HasJust done.now relaxed
        → IsTrue result ↔ All (IsItemClosed words.now relaxed) row.now }
{
    for item in row {
        if !is_item_closed(item, words, done) {
            return false;
        }
    }
    true
}

/// Returns whether each relaxation item whose tail is reached was finished at the tail's final distance.
pub(crate) fn is_closed<const P: u32>(
    rows: &[Vec<Item<P>>],
    words: &[Word<P>],
    done: &HashSet<Relaxation>,
) -> bool
    ensures { (relaxed : List Finish) → HasJust done.now relaxed
        → IsTrue result ↔ All (λ row. All (IsItemClosed words.now relaxed) row.items) rows.now }
{
    for row in rows {
        if !is_row_closed(row, words, done) {
            return false;
        }
    }
    true
}
