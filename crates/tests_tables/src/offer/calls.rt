//! One caller, and two that meet.
use sp_offer::{AnyWord, Loop, Lowering, OfferTable, Offered, OneMin};
use sp_word::{Reply, Word};
use std::alloc::{AllocError, Global};
use std::test::Fail;

// The answers to four offers of one caller, and the word that they leave.
fn answers<M: Lowering>(alloc: Global) -> Result<([Offered<28>; 4], Word<28>), AllocError> {
    let (table, mut me) = OfferTable::<AnyWord, 28>::new(alloc, 1, AnyWord)?;
    let answers = [
        table.offer_by::<M>(&mut me, 1, Word::pack(9, 1)),
        table.offer_by::<M>(&mut me, 1, Word::pack(7, 4)),
        table.offer_by::<M>(&mut me, 1, Word::pack(7, 2)),
        table.offer_by::<M>(&mut me, 1, Word::pack(8, 3)),
    ];
    Ok((answers, table.read(&mut me, 1)))
}

// Whether the answers have these numbers of tries, and the replies and words found that they should.
fn are_right(answers: &[Offered<28>; 4], tries: [u64; 4]) -> bool {
    let wanted = [
        (Reply::Shorter, Word::unreached()),
        (Reply::Shorter, Word::pack(9, 1)),
        (Reply::SmallerPred, Word::pack(7, 4)),
        (Reply::Kept, Word::pack(7, 2)),
    ];
    for i in 0..4 {
        let answer = answers[i];
        if (answer.reply, answer.found) != wanted[i] || answer.tries != tries[i] {
            return false;
        }
    }
    true
}

#[test]
fn one_caller(rt: HostRuntime) -> Result<(), Fail> {
    let (by_loop, last) = answers::<Loop>(rt.alloc())?;
    assert!(rt; are_right(&by_loop, [2, 2, 2, 1]));
    assert!(rt; last == Word::pack(7, 2));
    let (by_one, last) = answers::<OneMin>(rt.alloc())?;
    assert!(rt; are_right(&by_one, [1, 1, 1, 1]));
    assert!(rt; last == Word::pack(7, 2));
    Ok(())
}

#[test]
fn meeting(rt: HostRuntime) -> Result<(), Fail> {
    let (table, me) = OfferTable::<AnyWord, 28>::new(rt.alloc(), 1, AnyWord)?;
    let (mut first, mut second) = table.split(me).ok().ok_or("split refused")?;
    table.offer(&mut first, 1, Word::pack(4, 2));
    table.meet(&mut first, &mut second);
    assert!(rt; table.read(&mut second, 1) == Word::pack(4, 2));
    let mut both = table.join(first, second);
    assert!(rt; table.read(&mut both, 1) == Word::pack(4, 2));
    Ok(())
}

// A copy of three words, of which the second was offered the greatest.
fn copy_of_three(alloc: Global) -> Result<[Word<20>; 3], AllocError> {
    let (table, mut me) = OfferTable::<AnyWord, 20>::new(alloc, 3, AnyWord)?;
    table.offer(&mut me, 2, Word::pack(17_592_186_044_414, 1_048_574));
    let mut words = [Word::pack(0, 0); 3];
    table.copy_words(&mut me, &mut words);
    Ok(words)
}

// The word after two offers that are equally far.
fn smaller_of_two(alloc: Global) -> Result<Word<24>, AllocError> {
    let (table, mut me) = OfferTable::<AnyWord, 24>::new(alloc, 1, AnyWord)?;
    table.offer(&mut me, 1, Word::pack(5, 16_777_214));
    table.offer_by::<OneMin>(&mut me, 1, Word::pack(5, 2));
    Ok(table.read(&mut me, 1))
}

// What an offer of the greatest word finds, and the word after it.
fn greatest(alloc: Global) -> Result<[Word<32>; 2], AllocError> {
    let (table, mut me) = OfferTable::<AnyWord, 32>::new(alloc, 1, AnyWord)?;
    let answer = table.offer(&mut me, 1, Word::pack(4_294_967_294, 4_294_967_294));
    Ok([answer.found, table.read(&mut me, 1)])
}

#[test]
fn words_of_other_layouts(rt: HostRuntime) -> Result<(), Fail> {
    let far = Word::pack(17_592_186_044_414, 1_048_574);
    assert!(rt; copy_of_three(rt.alloc())? == [Word::unreached(), far, Word::unreached()]);
    assert!(rt; smaller_of_two(rt.alloc())? == Word::pack(5, 2));
    let far = Word::pack(4_294_967_294, 4_294_967_294);
    assert!(rt; greatest(rt.alloc())? == [Word::unreached(), far]);
    Ok(())
}
