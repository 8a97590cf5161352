//! Passes over the arcs.
ghost use Rattle.std.specs.Prelude.{◌≡◌, ◌+◌, ◌≤◌, true, vec_len, All, IfSome, IfNone, cond};
ghost use Rattle.std.specs.Bool.{OnFalse};
ghost use Rattle.sp_word.specs.Word.{is_layout, max_dist, max_pred};
ghost use Rattle.sp_paths.specs.Paths.{IsArc};
ghost use Rattle.sp_judge.specs.Lowering.{IsLowered};
ghost use Rattle.sp_judge.specs.Passing.{IsClosedTable, IsLesserOffer, IsNoLesser, IsSmallTable, total_rank};

use sp_graph::look_up;
use sp_paths::{Arc, Offer};
use sp_word::Word;

/// Returns the word by which an arc replaces its head's word if its tail has the word `from`, or `None` if the arc doesn't
/// replace it.
pub fn lesser_offer<const P: u32>(from: Word<P>, arc: Arc, found: Word<P>) -> Option<Word<P>>
    requires layout { is_layout P ≡ true }
    requires tail { arc.tail ≤ max_pred P }
    ensures some { IfSome result
        (λ word. IsLesserOffer (max_dist P) from.entry arc found.entry word) }
    ensures none { IfNone result (IsNoLesser (max_dist P) from.entry arc found.entry) }
{
    match arc.offer(from) {
        Offer::Within(word) if word.is_below(found) => Some(word),
        _ => None,
    }
}

// Relaxes every arc once, and returns whether a word changed.
fn pass<const P: u32>(words: &mut Vec<Word<P>>, arcs: &[Arc]) -> bool
    requires layout { is_layout P ≡ true }
    requires room { vec_len words.old ≤ max_pred P }
    requires arcs { All (IsArc (vec_len words.old)) arcs.now }
    requires small { IsSmallTable (max_dist P) words.old.items }
    ensures size { vec_len words.new ≡ vec_len words.old }
    ensures small { IsSmallTable (max_dist P) words.new.items }
    ensures lowered { IsLowered (max_dist P) arcs.now words.old.items words.new.items }
    ensures closed { OnFalse result
        (IsClosedTable (vec_len words.old) (max_dist P) arcs.now words.new.items) }
    ensures less { total_rank (max_dist P) words.new.items + cond result 1 0
        ≤ total_rank (max_dist P) words.old.items }
{
    let mut changed = false;
    for arc in arcs {
        let from = look_up(words, arc.tail);
        let found = look_up(words, arc.head);
        if let Some(word) = lesser_offer(from, *arc, found) {
            words[(arc.head - 1) as usize] = word;
            changed = true;
        }
    }
    changed
}

/// Relaxes the arcs until no word changes. Any other program may have lowered the words before.
pub fn relax_all<const P: u32>(words: &mut Vec<Word<P>>, arcs: &[Arc])
    requires layout { is_layout P ≡ true }
    requires room { vec_len words.old ≤ max_pred P }
    requires arcs { All (IsArc (vec_len words.old)) arcs.now }
    requires small { IsSmallTable (max_dist P) words.old.items }
    ensures size { vec_len words.new ≡ vec_len words.old }
    ensures small { IsSmallTable (max_dist P) words.new.items }
    ensures lowered { IsLowered (max_dist P) arcs.now words.old.items words.new.items }
    ensures closed { IsClosedTable (vec_len words.old) (max_dist P) arcs.now words.new.items }
{
    let mut changed = true;
    while changed {
        changed = pass(words, arcs);
    }
}
