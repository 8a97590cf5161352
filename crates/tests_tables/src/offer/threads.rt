//! Callers on threads of their own.
ghost use Rattle.std.specs.Prelude.{◌≡◌, ℕ, ◌<◌, ◌≤◌, IfSome};
ghost use Rattle.sp_word.specs.Word.{IsPair};

use sp_offer::{AnyWord, Caller, Loop, Lowering, OfferTable, OneMin};
use sp_word::Word;
use std::sync::Wait;
use std::test::Fail;
use std::thread::{Threads, join};

// Offers two pairs to vertex 1, one after the other, and gives the caller back.
fn offer_in_turn<M: Lowering>(
    table: &OfferTable<AnyWord, 28>,
    mut me: Caller,
    first: Word<28>,
    second: Word<28>,
) -> Caller
    requires caller { me.table ≡ table.now.id }
    requires some { 0 < table.now.vertices }
    requires words { IsPair first × IsPair second }
    ensures { result.table ≡ me.table }
{
    table.offer_by::<M>(&mut me, 1, first);
    table.offer_by::<M>(&mut me, 1, second);
    me
}

// Four offers: two by a thread on Loop, and two by a thread on OneMin.
fn offer_by_both<R: Threads + Wait + Sync>(
    rt: &R,
    table: &OfferTable<AnyWord, 28>,
    me: Caller,
) -> Option<Caller>
    requires caller { me.table ≡ table.now.id }
    requires some { 0 < table.now.vertices }
    ensures { IfSome result (λ c. c.table ≡ table.now.id) }
{
    let (one, two) = table.split(me).ok()?;
    let (one, two) = join(
        rt,
        || -> Caller
            requires caller { one.table ≡ table.now.id }
            requires some { 0 < table.now.vertices }
            ensures { result.table ≡ table.entry.now.id }
        { offer_in_turn::<Loop>(table, one, Word::pack(9, 1), Word::pack(7, 4)) },
        || -> Caller
            requires caller { two.table ≡ table.now.id }
            requires some { 0 < table.now.vertices }
            ensures { result.table ≡ table.entry.now.id }
        { offer_in_turn::<OneMin>(table, two, Word::pack(7, 2), Word::pack(8, 3)) },
    );
    Some(table.join(one, two))
}

#[test]
fn one_step_lowering(rt: HostRuntime) -> Result<(), Fail> {
    let (table, me) = OfferTable::<AnyWord, 28>::new(rt.alloc(), 1, AnyWord)?;
    let mut me = offer_by_both(&rt, &table, me).ok_or("split refused")?;
    assert!(rt; table.read(&mut me, 1) == Word::pack(7, 2));
    Ok(())
}

// Offers (100 - (4*j + k), k + 1) for j from 0 to 15.
fn offer_falling<M: Lowering>(table: &OfferTable<AnyWord, 28>, mut me: Caller, k: u32) -> Caller
    requires caller { me.table ≡ table.now.id }
    requires some { 0 < table.now.vertices }
    requires few { k < 4 }
    ensures { result.table ≡ me.table }
{
    for j in 0..16u32 {
        table.offer_by::<M>(&mut me, 1, Word::pack((100 - (4 * j + k)) as u64, k + 1));
    }
    me
}

// Callers k and k + 1 by one lowering.
fn offer_two<M: Lowering + Send + Sync, R: Threads + Wait + Sync>(
    rt: &R,
    table: &OfferTable<AnyWord, 28>,
    me: Caller,
    k: u32,
) -> Option<Caller>
    requires caller { me.table ≡ table.now.id }
    requires some { 0 < table.now.vertices }
    requires few { k < 3 }
    ensures { IfSome result (λ c. c.table ≡ table.now.id) }
{
    let (one, two) = table.split(me).ok()?;
    let (one, two) = join(
        rt,
        || -> Caller
            requires caller { one.table ≡ table.now.id }
            requires some { 0 < table.now.vertices }
            requires few { k < 3 }
            ensures { result.table ≡ table.entry.now.id }
        { offer_falling::<M>(table, one, k) },
        || -> Caller
            requires caller { two.table ≡ table.now.id }
            requires some { 0 < table.now.vertices }
            requires few { k < 3 }
            ensures { result.table ≡ table.entry.now.id }
        { offer_falling::<M>(table, two, k + 1) },
    );
    Some(table.join(one, two))
}

fn offer_four<R: Threads + Wait + Sync>(
    rt: &R,
    table: &OfferTable<AnyWord, 28>,
    me: Caller,
) -> Option<Caller>
    requires caller { me.table ≡ table.now.id }
    requires some { 0 < table.now.vertices }
    ensures { IfSome result (λ c. c.table ≡ table.now.id) }
{
    let (one, two) = table.split(me).ok()?;
    let (one, two) = join(
        rt,
        || -> Option<Caller>
            requires caller { one.table ≡ table.now.id }
            requires some { 0 < table.now.vertices }
            ensures { IfSome result (λ c. c.table ≡ table.entry.now.id) }
        { offer_two::<Loop, R>(rt, table, one, 0) },
        || -> Option<Caller>
            requires caller { two.table ≡ table.now.id }
            requires some { 0 < table.now.vertices }
            ensures { IfSome result (λ c. c.table ≡ table.entry.now.id) }
        { offer_two::<OneMin, R>(rt, table, two, 2) },
    );
    Some(table.join(one?, two?))
}

#[test]
fn four_callers_with_mixed_lowerings(rt: HostRuntime) -> Result<(), Fail> {
    let (table, me) = OfferTable::<AnyWord, 28>::new(rt.alloc(), 1, AnyWord)?;
    let mut me = offer_four(&rt, &table, me).ok_or("split refused")?;
    let mut words = [Word::unreached()];
    table.copy_words(&mut me, &mut words);
    let [word] = words;
    assert!(rt; word == Word::pack(37, 4));
    Ok(())
}
