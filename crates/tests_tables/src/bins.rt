//! Entries come out bucket by bucket, each once, however far apart their buckets are.

use sp_rounds::{Bins, Entry};
use std::alloc::{AllocError, Global};
use std::test::Fail;

// Whether all of these entries belong to the bucket.
fn lie_in(bins: &Bins, list: &[Entry], bucket: u64) -> bool {
    for entry in list {
        if bins.bucket_of(entry.dist) != bucket {
            return false;
        }
    }
    true
}

// Counts the entries by vertex.
fn count(list: &[Entry], counts: &mut [u32]) {
    for entry in list {
        let vertex = entry.vertex as usize;
        if vertex < counts.len() {
            counts[vertex] = counts[vertex].saturating_add(1);
        }
    }
}

fn are_all_one(counts: &[u32]) -> bool {
    for count in counts {
        if *count != 1 {
            return false;
        }
    }
    true
}

// Takes out all entries of the bucket that is being emptied, and counts them. Returns whether there are any and all of them
// belong to it.
fn take_bucket(
    alloc: Global,
    bins: &mut Bins,
    bucket: u64,
    counts: &mut [u32],
) -> Result<bool, AllocError> {
    let mut list = Vec::new(alloc);
    bins.refill(&mut list)?;
    count(&list, counts);
    Ok(!list.is_empty() && lie_in(bins, &list, bucket))
}

// Puts an entry at each of these distances, with vertices numbered from 0.
fn put_all(bins: &mut Bins, dists: &[u64]) -> Result<(), AllocError> {
    let mut vertex = 0u32;
    for dist in dists {
        bins.put(Entry {
            vertex,
            dist: *dist,
        })?;
        vertex = vertex.saturating_add(1);
    }
    Ok(())
}

// Takes out this many entries bucket by bucket, in ascending order of buckets. Returns whether each entry came out once and in
// order.
fn take_all(alloc: Global, bins: &mut Bins, entries: usize) -> Result<bool, AllocError> {
    let mut counts = vec![in alloc; 0; entries]?;
    let mut next = 0;
    for _ in 0..entries {
        let Some(bucket) = bins.advance()? else {
            break;
        };
        if bucket < next || !take_bucket(alloc, bins, bucket, &mut counts)? {
            return Ok(false);
        }
        next = bucket.saturating_add(1);
    }
    Ok(are_all_one(&counts))
}

// Whether entries at these distances come out bucket by bucket and leave none behind.
fn drains(alloc: Global, shift: u32, dists: &[u64]) -> Result<bool, AllocError> {
    let mut bins = Bins::new(alloc, shift)?;
    put_all(&mut bins, dists)?;
    let all = take_all(alloc, &mut bins, dists.len())?;
    Ok(all && bins.advance()?.is_none())
}

// Random-looking distances of all magnitudes.
fn random_dists(alloc: Global) -> Result<Vec<u64>, AllocError> {
    let mut dists = Vec::new(alloc);
    let mut state: u64 = 1;
    for place in 0..600u32 {
        state = state
            .wrapping_mul(6364136223846793005)
            .wrapping_add(1442695040888963407);
        dists.push((state >> 20) >> (place % 44))?;
    }
    Ok(dists)
}

#[test]
fn entries_come_by_bucket(rt: HostRuntime) -> Result<(), Fail> {
    let dists = random_dists(rt.alloc())?;
    for shift in [0, 3, 8, 30, 63] {
        assert!(rt;
            drains(rt.alloc(), shift, &dists)?,
            "width 2 to the power of {shift}"
        );
    }
    Ok(())
}

#[test]
fn neighbouring_and_far_buckets(rt: HostRuntime) -> Result<(), Fail> {
    let dists = [
        0,
        255,
        256,
        257,
        65535,
        65536,
        16777216,
        68719476734,
        17592186044414,
        17592186044414,
    ];
    assert!(rt; drains(rt.alloc(), 0, &dists)?);
    assert!(rt; drains(rt.alloc(), 4, &dists)?);
    Ok(())
}

// A thousand distances in the first bucket of width 8, a thousand in one of the next wheel, and some between them.
fn crowded_dists(alloc: Global) -> Result<Vec<u64>, AllocError> {
    let mut dists = Vec::new(alloc);
    for place in 0..1000u64 {
        dists.push(place % 8)?;
        dists.push(8000 + place % 8)?;
        dists.push(7 * place)?;
    }
    Ok(dists)
}

// One slot has many more entries than a chunk holds, in the first wheel and in the second.
#[test]
fn crowded_buckets(rt: HostRuntime) -> Result<(), Fail> {
    let dists = crowded_dists(rt.alloc())?;
    assert!(rt; drains(rt.alloc(), 3, &dists)?);
    Ok(())
}

// Puts an entry below the lowest bucket and one above it. Returns the buckets that come out, and the entries of the first.
fn take_below_the_lowest(alloc: Global) -> Result<([Option<u64>; 2], Vec<Entry>), AllocError> {
    let mut bins = Bins::new(alloc, 0)?;
    bins.open(1000, 0);
    bins.put(Entry { vertex: 1, dist: 7 })?;
    bins.put(Entry {
        vertex: 2,
        dist: 1001,
    })?;
    let first = bins.advance()?;
    let mut list = Vec::new(alloc);
    bins.refill(&mut list)?;
    Ok(([first, bins.advance()?], list))
}

#[test]
fn entries_below_the_lowest_come_at_once(rt: HostRuntime) -> Result<(), Fail> {
    let (buckets, list) = take_below_the_lowest(rt.alloc())?;
    assert!(rt; buckets == [Some(1000), Some(1001)]);
    assert!(rt; list.as_slice() == [Entry { vertex: 1, dist: 7 }].as_slice());
    Ok(())
}

// Puts the entry of a head whose arc from the tail has this length.
fn put_head(bins: &mut Bins, dist: u64, length: u64) -> Result<(), AllocError> {
    bins.put_head(Entry { vertex: 1, dist }, dist.saturating_sub(length))
}

// Puts a thousand heads, each into its tail's bucket.
fn put_near_heads(bins: &mut Bins) -> Result<(), AllocError> {
    for dist in 1..1001u64 {
        put_head(bins, dist, 1)?;
    }
    Ok(())
}

// Puts 999 heads, none of them into its tail's bucket.
fn put_far_heads(bins: &mut Bins) -> Result<(), AllocError> {
    for bucket in 1..1000u64 {
        put_head(bins, bucket << 16, 1)?;
    }
    Ok(())
}

// The widths after a thousand near heads, after 999 far heads, and after one more far head.
fn widths(alloc: Global) -> Result<[u32; 3], AllocError> {
    let mut bins = Bins::new(alloc, 20)?;
    put_near_heads(&mut bins)?;
    bins.adjust()?;
    let narrow = bins.shift();
    put_far_heads(&mut bins)?;
    bins.adjust()?;
    let same = bins.shift();
    put_head(&mut bins, 1000 << 16, 1)?;
    bins.adjust()?;
    Ok([narrow, same, bins.shift()])
}

// Buckets become narrower if most heads fall into their tail's bucket, and wider if none does. The first change of width moves a
// thousand entries, so another thousand must be put before the next change.
#[test]
fn buckets_find_their_width(rt: HostRuntime) -> Result<(), Fail> {
    assert!(rt; widths(rt.alloc())? == [16, 16, 17]);
    Ok(())
}

// Bins with a thousand entries of heads near their tails.
fn bins_of_heads(alloc: Global) -> Result<Bins, AllocError> {
    let mut bins = Bins::new(alloc, 30)?;
    for dist in 0..1000u64 {
        put_head(&mut bins, 1 + dist * 7919 % 1000, 1)?;
    }
    Ok(bins)
}

// Empties the bins, whose width may change before each bucket, and counts the entries. Returns 0 if an entry comes out of a wrong
// bucket.
fn count_while_adjusted(alloc: Global, bins: &mut Bins) -> Result<usize, AllocError> {
    let mut list = Vec::new(alloc);
    let mut seen = 0usize;
    for _ in 0..2000 {
        bins.adjust()?;
        bins.refill(&mut list)?;
        if !lie_in(bins, &list, bins.bucket_of(bins.start())) {
            return Ok(0);
        }
        seen = seen.saturating_add(list.len());
        if bins.advance()?.is_none() {
            break;
        }
    }
    Ok(seen)
}

// A change of width loses no entry, and the entries still come out bucket by bucket.
#[test]
fn a_change_of_width_loses_nothing(rt: HostRuntime) -> Result<(), Fail> {
    let mut bins = bins_of_heads(rt.alloc())?;
    assert!(rt; count_while_adjusted(rt.alloc(), &mut bins)? == 1000);
    Ok(())
}
