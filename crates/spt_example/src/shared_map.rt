//! A map that threads lower at once, without a lock: of each article the least price, and the first shop that has it.
ghost use Rattle.std.specs.Prelude.{◌≡◌, ◌≤◌};

use anyhow::Result;
use sp_offer::{AnyWord, Caller, OfferTable};
use sp_word::Word;
use std::thread::{Threads, join};

// Offers a shop's price for each article. A caller calls at the table that it was made for, and comes back.
fn offer_prices(
    map: &OfferTable<AnyWord, 28>,
    mut me: Caller,
    shop: u32,
    prices: [u32; 3],
) -> Caller
    requires caller { me.table ≡ map.now.id }
    requires articles { map.now.vertices ≡ 3 }
    requires shop { shop ≤ 1000 }
    ensures { result.table ≡ me.table }
{
    for place in 0..3usize {
        let price = u64::from(prices[place]);
        map.offer(&mut me, place as u32 + 1, Word::pack(price, shop));
    }
    me
}

// Two shops on threads of their own.
fn offer_both<R: Threads + Sync>(rt: &R, map: &OfferTable<AnyWord, 28>, me: Caller) -> Caller
    requires caller { me.table ≡ map.now.id }
    requires articles { map.now.vertices ≡ 3 }
    ensures { result.table ≡ map.now.id }
{
    let Ok((one, two)) = map.split(me) else {
        unreachable!()
    };
    let (one, two) = join(
        rt,
        || -> Caller
            requires caller { one.table ≡ map.now.id }
            requires articles { map.now.vertices ≡ 3 }
            ensures { result.table ≡ map.entry.now.id }
        { offer_prices(map, one, 1, [500, 120, 80]) },
        || -> Caller
            requires caller { two.table ≡ map.now.id }
            requires articles { map.now.vertices ≡ 3 }
            ensures { result.table ≡ map.entry.now.id }
        { offer_prices(map, two, 2, [450, 120, 95]) },
    );
    map.join(one, two)
}

/// Prints the least price of each article, and its shop.
pub fn show<R: AllocGlobal + Print + Threads + Sync>(rt: &R) -> Result<()> {
    let (map, me) = OfferTable::<AnyWord, 28>::new(rt.alloc(), 3, AnyWord)?;
    let mut me = offer_both(rt, &map, me);
    let mut words = [Word::<28>::unreached(); 3];
    map.copy_words(&mut me, &mut words);
    for (word, article) in words.iter().zip(1u32..) {
        if let (Some(price), Some(shop)) = (word.dist(), word.pred()) {
            println!(rt; "article {article}: {price} at shop {shop}")?;
        }
    }
    Ok(())
}
