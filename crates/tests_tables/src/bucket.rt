//! Entries in buckets, and the length of their ring.
ghost use Rattle.std.specs.Prelude.{◌<◌};

use sp_rounds::{Buckets, Entry};
use std::alloc::{AllocError, Global};
use std::test::Fail;

fn entry(vertex: u32, dist: u64) -> Entry {
    Entry { vertex, dist }
}

fn put_all(buckets: &mut Buckets, entries: &[Entry]) -> Result<(), AllocError> {
    for queued in entries {
        buckets.put(*queued)?;
    }
    Ok(())
}

// Whether this is the lowest bucket, and exactly this entry is taken from it.
fn gives_one(buckets: &mut Buckets, bucket: u64, want: Entry) -> bool {
    let is_lowest = buckets.lowest() == Some(bucket);
    let taken = buckets.take(bucket);
    is_lowest && taken.as_slice() == [want].as_slice()
}

// Whether the lowest buckets and their entries are these, one after another.
fn give_in_turn(buckets: &mut Buckets, wanted: &[(u64, Entry)]) -> bool {
    for (bucket, want) in wanted {
        if !gives_one(buckets, *bucket, *want) {
            return false;
        }
    }
    true
}

// Whether exactly these two entries are taken from the bucket, in either order, and then none.
fn gives_two(buckets: &mut Buckets, bucket: u64, one: Entry, other: Entry) -> bool {
    let taken = buckets.take(bucket);
    let again = buckets.take(bucket);
    again.is_empty() && taken.len() == 2 && taken.contains(&one) && taken.contains(&other)
}

// Whether three entries come out of buckets of width 3 correctly.
fn takes_three(mut buckets: Buckets) -> Result<bool, AllocError> {
    put_all(&mut buckets, &[entry(2, 4), entry(7, 5), entry(9, 6)])?;
    let first = buckets.lowest() == Some(1);
    let two = gives_two(&mut buckets, 1, entry(2, 4), entry(7, 5));
    let one = gives_one(&mut buckets, 2, entry(9, 6));
    Ok(first && two && one && buckets.lowest().is_none())
}

#[test]
fn buckets(rt: HostRuntime) -> Result<(), Fail> {
    assert!(rt; takes_three(Buckets::new(rt.alloc(), 3))?);
    assert!(rt; takes_three(Buckets::with_longest(rt.alloc(), 3, 7)?)?);
    assert!(rt; takes_three(Buckets::with_longest(rt.alloc(), 3, 0)?)?);
    Ok(())
}

// The number of buckets in the ring for this width and longest arc, if there is a ring.
fn ring_len(alloc: Global, delta: u64, longest: u64) -> Result<Option<u32>, AllocError>
    requires { 0 < delta }
{
    let buckets = Buckets::with_longest(alloc, delta, longest)?;
    Ok(buckets.ring_len())
}

#[test]
fn ring_of_buckets(rt: HostRuntime) {
    let alloc = rt.alloc();
    assert!(rt; ring_len(alloc, 65_537, 4_294_967_295) == Ok(Some(65_536)));
    assert!(rt; ring_len(alloc, 65_536, 4_294_967_295) == Ok(None));
    assert!(rt; ring_len(alloc, 3, 7) == Ok(Some(4)));
    assert!(rt; ring_len(alloc, 3, 0) == Ok(Some(1)));
}

// Whether entries within a ring's window and beyond it come out correctly.
fn takes_outside_the_window(mut buckets: Buckets) -> Result<bool, AllocError> {
    put_all(&mut buckets, &[entry(1, 0), entry(2, 8), entry(3, 30)])?;
    let first = give_in_turn(&mut buckets, &[(0, entry(1, 0)), (2, entry(2, 8))]);
    let far = buckets.lowest() == Some(10);
    buckets.put(entry(4, 1))?;
    let last = give_in_turn(&mut buckets, &[(0, entry(4, 1)), (10, entry(3, 30))]);
    Ok(first && far && last && buckets.lowest().is_none())
}

#[test]
fn outside_the_window(rt: HostRuntime) -> Result<(), Fail> {
    let buckets = Buckets::with_longest(rt.alloc(), 3, 7)?;
    assert!(rt; takes_outside_the_window(buckets)?);
    Ok(())
}
