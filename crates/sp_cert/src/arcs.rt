//! Finds, in parallel, the faults that arcs show at their heads.
ghost use Rattle.std.specs.Prelude.{◌≡◌, ◌≤◌, ◌↔◌, true, length, All, None, IsTrue};
ghost use Rattle.sp_word.specs.Word.{is_layout, max_dist, max_pred};
ghost use Rattle.sp_paths.specs.Paths.{IsArc, word_at};
ghost use Rattle.sp_cert.specs.Claims.{IsInReach};
ghost use Rattle.sp_cert.specs.Faults.{IsFirstOf, IsBroken, BreaksBy, FaultBy, FaultOfArc, earlier_of};

use crate::fault::{BrokenRule, earlier};
use crate::rule::Rule;
use rayon::prelude::*;
use sp_graph::look_up;
use sp_paths::{Arc, Offer};
use sp_word::Word;
use std::thread::Threads;

/// Returns whether the distance of a word is at most the limit, if there is one.
fn is_in_reach<const P: u32>(limit: Option<u64>, word: Word<P>) -> bool
    ensures { IsTrue result ↔ IsInReach limit word.entry }
{
    match (limit, word.dist()) {
        (Some(limit), Some(dist)) => dist <= limit,
        _ => true,
    }
}

// Returns the rule that the arc breaks at its head, if any.
fn broken_by<const P: u32>(words: &[Word<P>], limit: Option<u64>, arc: Arc) -> Option<Rule>
    requires layout { is_layout P ≡ true }
    requires most { length words.now ≤ max_pred P }
    requires arc { IsArc (length words.now) arc }
    ensures { IsBroken (BreaksBy (max_dist P) limit (word_at words.now) arc) result }
{
    let head = look_up(words, arc.head);
    match arc.offer(look_up(words, arc.tail)) {
        Offer::Within(word) if is_in_reach(limit, word) && word.is_below(head) => {
            Some(Rule::NoLesserOffer)
        }
        Offer::Beyond if limit.is_none() && head.is_unreached() => Some(Rule::OnlyTooFar),
        _ => None,
    }
}

// Returns the fault that the arc shows, if any.
fn fault_by<const P: u32>(words: &[Word<P>], limit: Option<u64>, arc: Arc) -> Option<BrokenRule>
    requires layout { is_layout P ≡ true }
    requires most { length words.now ≤ max_pred P }
    requires arc { IsArc (length words.now) arc }
    ensures { IsFirstOf
        (FaultBy (max_dist P) limit (word_at words.now) arc) result }
{
    match broken_by(words, limit, arc) {
        Some(rule) => Some(BrokenRule {
            vertex: arc.head,
            rule,
        }),
        None => None,
    }
}

/// Returns the earliest fault that an arc shows. The result doesn't depend on how the arcs are split into pieces.
pub fn first_of_arcs<const P: u32, R: Threads + Sync>(
    rt: &R,
    words: &[Word<P>],
    limit: Option<u64>,
    arcs: &[Arc],
) -> Option<BrokenRule>
    requires layout { is_layout P ≡ true }
    requires most { length words.now ≤ max_pred P }
    requires arcs { All (IsArc (length words.now)) arcs.now }
    ensures { IsFirstOf (FaultOfArc (max_dist P) limit (word_at words.now) arcs.now) result }
{
    arcs.par_iter()
        .map(
            |arc: &Arc| -> Option<BrokenRule>
                requires { (is_layout P ≡ true) × (length words.now ≤ max_pred P)
                    × IsArc (length words.now) arc.now }
                ensures { IsFirstOf
                    (FaultBy (max_dist P) limit (word_at words.entry.now) arc.now) result }
            { fault_by(words, limit, *arc) },
        )
        .reduce(
            rt,
            || -> Option<BrokenRule>
                ensures { result ≡ None }
            { None },
            |first: Option<BrokenRule>, second: Option<BrokenRule>| -> Option<BrokenRule>
                ensures { result ≡ earlier_of first second }
            { earlier(first, second) },
        )
}
