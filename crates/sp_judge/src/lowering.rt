//! Relaxation of one arc, in a table of words that another program lowers.
ghost use Rattle.std.specs.Prelude.{◌≡◌, ◌≢◌, ℕ, ◌≤◌, true, vec_len, IfSome, IfNone};
ghost use Rattle.sp_word.specs.Word.{dist_of, is_layout, max_dist, max_pred};
ghost use Rattle.sp_paths.specs.Paths.{IsArc};
ghost use Rattle.sp_judge.specs.Lowering.{IsLoweredBy, TakesLesser, KeepsUnlessLesser, IsShorterDist, HasSameDist};

use crate::pass::lesser_offer;
use sp_graph::look_up;
use sp_paths::Arc;
use sp_word::Word;

// Returns the distance of `word` if it differs from that of the word found.
fn distance_below<const P: u32>(found: Word<P>, word: Word<P>) -> Option<u64>
    ensures dist { IfSome result (λ dist. dist_of word.entry ≡ Some dist) }
    ensures other { IfSome result (λ dist. dist_of found.entry ≢ Some dist) }
    ensures same { IfNone result
        ((dist : ℕ) → dist_of word.entry ≡ Some dist → dist_of found.entry ≡ Some dist) }
{
    if word.dist() == found.dist() {
        None
    } else {
        word.dist()
    }
}

/// Relaxes an arc: if the pair that it makes of its tail's word is within the greatest distance and less than its
/// head's word, that pair replaces the head's word. Returns the head's new distance if it became shorter.
pub fn relax<const P: u32>(words: &mut Vec<Word<P>>, arc: Arc) -> Option<u64>
    requires layout { is_layout P ≡ true }
    requires room { vec_len words.old ≤ max_pred P }
    requires arc { IsArc (vec_len words.old) arc }
    ensures size { vec_len words.new ≡ vec_len words.old }
    ensures lowered { IsLoweredBy (max_dist P) arc words.old.items words.new.items }
    ensures lesser { TakesLesser (max_dist P) arc words.old.items words.new.items }
    ensures no_lesser { KeepsUnlessLesser (max_dist P) arc words.old.items words.new.items }
    ensures shorter { IfSome result (IsShorterDist arc.head words.old.items words.new.items) }
    ensures same_dist { IfNone result (HasSameDist arc.head words.old.items words.new.items) }
{
    let found = look_up(words, arc.head);
    let word = lesser_offer(look_up(words, arc.tail), arc, found)?;
    words[(arc.head - 1) as usize] = word;
    distance_below(found, word)
}
