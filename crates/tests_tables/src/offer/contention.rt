//! Many threads on few vertices.
ghost use Rattle.std.specs.Prelude.{◌≡◌, ℕ, ◌+◌, ◌<◌, ◌≤◌, IfSome};

use sp_offer::{AnyWord, Caller, Loop, Lowering, OfferTable, OneMin};
use sp_word::Word;
use std::sync::Wait;
use std::sync::atomic::{AtomicU64, Ordering};
use std::thread::{Threads, join};

const OFFERS: u32 = 100_000;

const MOST_LOADS: u64 = 100_000_000;

// Where threads wait for one another, so that they offer at the same time.
#[derive(Drop)]
struct StartingLine {
    missing: AtomicU64,
}

impl StartingLine {
    fn new(threads: u64) -> StartingLine {
        StartingLine {
            missing: AtomicU64::new(threads),
        }
    }

    // Waits until all threads have come, for a bounded number of loads.
    fn wait(&self) {
        self.missing.fetch_sub(1, Ordering::SeqCst);
        for _ in 0..MOST_LOADS {
            if self.missing.load(Ordering::SeqCst) == 0 {
                return;
            }
        }
    }
}

// Offer j of thread k: its vertex, distance and predecessor. Distances fall on the whole, and go up and down between.
fn offer_of(k: u32, j: u32) -> (u32, u64, u32)
    requires { (k < 8) × (j < 100000) }
    ensures { (0 < result.0) × (result.0 ≤ 3) × (result.1 ≤ 200000) × (result.2 ≤ 200) }
{
    let mixed = (j * 31 + k * 77) % 1009;
    (j % 3 + 1, (101_000 - j + mixed) as u64, mixed % 17 + k + 1)
}

// The offers of thread k.
fn offer_all<M: Lowering>(
    table: &OfferTable<AnyWord, 28>,
    start: &StartingLine,
    mut me: Caller,
    k: u32,
) -> Caller
    requires caller { me.table ≡ table.now.id }
    requires three { table.now.vertices ≡ 3 }
    requires few { k < 8 }
    ensures { result.table ≡ me.table }
{
    start.wait();
    for j in 0..OFFERS {
        let (vertex, dist, pred) = offer_of(k, j);
        table.offer_by::<M>(&mut me, vertex, Word::pack(dist, pred));
    }
    me
}

// Threads k and k + 1, the first by Loop and the second by OneMin.
fn by_two<R: Threads + Wait + Sync>(
    rt: &R,
    table: &OfferTable<AnyWord, 28>,
    start: &StartingLine,
    me: Caller,
    k: u32,
) -> Option<Caller>
    requires caller { me.table ≡ table.now.id }
    requires three { table.now.vertices ≡ 3 }
    requires few { k + 2 ≤ 8 }
    ensures { IfSome result (λ r. r.table ≡ table.now.id) }
{
    let (one, two) = table.split(me).ok()?;
    let (one, two) = join(
        rt,
        || -> Caller
            requires caller { one.table ≡ table.now.id }
            requires three { table.now.vertices ≡ 3 }
            requires few { k + 2 ≤ 8 }
            ensures { result.table ≡ table.entry.now.id }
        { offer_all::<Loop>(table, start, one, k) },
        || -> Caller
            requires caller { two.table ≡ table.now.id }
            requires three { table.now.vertices ≡ 3 }
            requires few { k + 2 ≤ 8 }
            ensures { result.table ≡ table.entry.now.id }
        { offer_all::<OneMin>(table, start, two, k + 1) },
    );
    Some(table.join(one, two))
}

fn by_four<R: Threads + Wait + Sync>(
    rt: &R,
    table: &OfferTable<AnyWord, 28>,
    start: &StartingLine,
    me: Caller,
    k: u32,
) -> Option<Caller>
    requires caller { me.table ≡ table.now.id }
    requires three { table.now.vertices ≡ 3 }
    requires few { k + 4 ≤ 8 }
    ensures { IfSome result (λ r. r.table ≡ table.now.id) }
{
    let (one, two) = table.split(me).ok()?;
    let (one, two) = join(
        rt,
        || -> Option<Caller>
            requires caller { one.table ≡ table.now.id }
            requires three { table.now.vertices ≡ 3 }
            requires few { k + 4 ≤ 8 }
            ensures { IfSome result (λ r. r.table ≡ table.entry.now.id) }
        { by_two::<R>(rt, table, start, one, k) },
        || -> Option<Caller>
            requires caller { two.table ≡ table.now.id }
            requires three { table.now.vertices ≡ 3 }
            requires few { k + 4 ≤ 8 }
            ensures { IfSome result (λ r. r.table ≡ table.entry.now.id) }
        { by_two::<R>(rt, table, start, two, k + 2) },
    );
    Some(table.join(one?, two?))
}

fn by_eight<R: Threads + Wait + Sync>(
    rt: &R,
    table: &OfferTable<AnyWord, 28>,
    start: &StartingLine,
    me: Caller,
    k: u32,
) -> Option<Caller>
    requires caller { me.table ≡ table.now.id }
    requires three { table.now.vertices ≡ 3 }
    requires few { k + 8 ≤ 8 }
    ensures { IfSome result (λ r. r.table ≡ table.now.id) }
{
    let (one, two) = table.split(me).ok()?;
    let (one, two) = join(
        rt,
        || -> Option<Caller>
            requires caller { one.table ≡ table.now.id }
            requires three { table.now.vertices ≡ 3 }
            requires few { k + 8 ≤ 8 }
            ensures { IfSome result (λ r. r.table ≡ table.entry.now.id) }
        { by_four::<R>(rt, table, start, one, k) },
        || -> Option<Caller>
            requires caller { two.table ≡ table.now.id }
            requires three { table.now.vertices ≡ 3 }
            requires few { k + 8 ≤ 8 }
            ensures { IfSome result (λ r. r.table ≡ table.entry.now.id) }
        { by_four::<R>(rt, table, start, two, k + 4) },
    );
    Some(table.join(one?, two?))
}

// The least distance, and of that the least predecessor, that the first threads offer to a vertex.
fn least(threads: u32, vertex: u32) -> (u64, u32)
    requires { threads ≤ 8 }
{
    let mut best = (u64::MAX, u32::MAX);
    for k in 0..threads {
        for j in 0..OFFERS {
            let (v, dist, pred) = offer_of(k, j);
            if v == vertex && (dist < best.0 || dist == best.0 && pred < best.1) {
                best = (dist, pred);
            }
        }
    }
    best
}

// The words that so many threads leave: 2, 4 or 8.
fn words_left<R: Threads + Wait + Sync + AllocGlobal>(
    rt: &R,
    threads: u32,
) -> Option<[Word<28>; 3]> {
    let (table, me) = OfferTable::<AnyWord, 28>::new(rt.alloc(), 3, AnyWord).ok()?;
    let start = StartingLine::new(u64::from(threads));
    let mut me = match threads {
        2 => by_two(rt, &table, &start, me, 0),
        4 => by_four(rt, &table, &start, me, 0),
        _ => by_eight(rt, &table, &start, me, 0),
    }?;
    let mut words = [Word::unreached(); 3];
    table.copy_words(&mut me, &mut words);
    Some(words)
}

// Whether the words are the least that the first threads offer.
fn are_least(threads: u32, words: [Word<28>; 3]) -> bool
    requires { threads ≤ 8 }
{
    for place in 0..3usize {
        let (dist, pred) = least(threads, place as u32 + 1);
        if (words[place].dist(), words[place].pred()) != (Some(dist), Some(pred)) {
            return false;
        }
    }
    true
}

#[test]
fn contention(rt: HostRuntime) {
    for threads in [2u32, 4, 8] {
        let left = words_left(&rt, threads);
        assert!(rt;
            left.is_some_and(|words| are_least(threads.min(8), words)),
            "{threads} threads"
        );
    }
}
