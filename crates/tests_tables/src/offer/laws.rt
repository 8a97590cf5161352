//! A law that reads borrowed data, under callers on two threads.
ghost use Rattle.std.specs.Prelude.{◌≡◌, ℕ, ◌<◌, ◌≤◌, IfSome, slice_index};
ghost use Rattle.sp_word.specs.Word.{IsPair, dist_of};
ghost use Rattle.sp_offer.specs.Order.{lawful, IsKnownWord};

use sp_offer::{Caller, Lawful, OfferTable};
use sp_word::Word;
use std::sync::Wait;
use std::test::Fail;
use std::thread::{Threads, join};

// A pair's distance is at least the limit of its vertex.
#[derive(Clone, Copy)]
struct AtLeast<'a> {
    limits: &'a [u64],
}

impl<'a> Lawful for AtLeast<'a> {
    ghost allows = { λ law v w. IfSome (dist_of w) (λ d. slice_index law.limits.now v ≤ d) };
}

// Offers a pair and reads a word, which the law allows whoever offered it.
fn offer_and_read<L: Lawful>(
    table: &OfferTable<L, 28>,
    mut me: Caller,
    word: Word<28>,
) -> (Caller, Word<28>)
    requires caller { me.table ≡ table.now.id }
    requires some { 0 < table.now.vertices }
    requires word { IsPair word × L.allows table.now.law 1 word }
    ensures caller { result.0.table ≡ me.table }
    ensures lawful { IsKnownWord (lawful 28 (L.allows table.now.law)) 1 result.1 }
{
    table.offer(&mut me, 1, word);
    let word = table.read(&mut me, 1);
    (me, word)
}

fn offer_both<L: Lawful + Send + Sync, R: Threads + Wait + Sync>(
    rt: &R,
    table: &OfferTable<L, 28>,
    me: Caller,
    first: Word<28>,
    second: Word<28>,
) -> Option<Caller>
    requires caller { me.table ≡ table.now.id }
    requires some { 0 < table.now.vertices }
    requires first { IsPair first × L.allows table.now.law 1 first }
    requires second { IsPair second × L.allows table.now.law 1 second }
    ensures { IfSome result (λ c. c.table ≡ table.now.id) }
{
    let (one, two) = table.split(me).ok()?;
    let ((one, _), (two, _)) = join(
        rt,
        || -> (Caller, Word<28>)
            requires caller { one.table ≡ table.now.id }
            requires some { 0 < table.now.vertices }
            requires word { IsPair first × L.allows table.now.law 1 first }
            ensures { result.0.table ≡ table.entry.now.id }
        { offer_and_read(table, one, first) },
        || -> (Caller, Word<28>)
            requires caller { two.table ≡ table.now.id }
            requires some { 0 < table.now.vertices }
            requires word { IsPair second × L.allows table.now.law 1 second }
            ensures { result.0.table ≡ table.entry.now.id }
        { offer_and_read(table, two, second) },
    );
    Some(table.join(one, two))
}

#[test]
fn a_law_that_borrows(rt: HostRuntime) -> Result<(), Fail> {
    let limits = [0, 3];
    let law = AtLeast { limits: &limits };
    let (table, me) = OfferTable::<AtLeast, 28>::new(rt.alloc(), 1, law)?;
    let mut me = offer_both(&rt, &table, me, Word::pack(5, 1), Word::pack(3, 2)).ok_or(
        "split refused",
    )?;
    assert!(rt; table.read(&mut me, 1) == Word::pack(3, 2));
    Ok(())
}
