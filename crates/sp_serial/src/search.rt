//! Lowers words bucket by bucket.
ghost use Rattle.std.specs.Prelude.{◌≡◌, length};
ghost use Rattle.sp_serial.specs.Lowers.{CanLower, HasLowered};

use crate::batch::{BatchBuffers, relax_rows};
use crate::table::Table;
use sp_answer::Until;
use sp_bins::{Bins, Entry};
use sp_graph::{Graph, look_up};
use sp_word::Word;
use std::alloc::{AllocError, Global};

/// How far a search goes. This is only a schedule, about which contracts promise nothing.
#[derive(Clone, Copy)]
pub(crate) struct SearchBounds<'t> {
    /// It ends when all of these have their final words, if there are any, ..
    targets: &'t [u32],
    /// .. or when no entry within this distance is left.
    limit: u64,
    /// It gives up rather than process more entries than this.
    most: usize,
}

impl<'t> SearchBounds<'t> {
    /// Returns how far a search goes for what is asked, and when it gives up.
    pub(crate) fn of(until: Until<'t>, most: usize) -> SearchBounds<'t> {
        SearchBounds {
            targets: until.targets(),
            limit: until.limit(),
            most,
        }
    }
}

// Returns whether the target has a distance in a bucket before this one.
fn is_before<const P: u32>(
    graph: &Graph,
    words: &[Word<P>],
    target: u32,
    bins: &Bins,
    bucket: u64,
) -> bool
    requires { length words.now ≡ graph.now.n }
{
    if !graph.has_vertex(target) {
        return false;
    }
    match look_up(words, target).dist() {
        Some(dist) => bins.bucket_of(dist) < bucket,
        None => false,
    }
}

// Returns the index of the first target, from this one on, that has no distance in a bucket before this one.
fn first_open<const P: u32>(
    graph: &Graph,
    words: &[Word<P>],
    targets: &[u32],
    first: usize,
    bins: &Bins,
    bucket: u64,
) -> usize
    requires { length words.now ≡ graph.now.n }
{
    for place in first..targets.len() {
        if !is_before(graph, words, targets[place], bins, bucket) {
            return place;
        }
    }
    targets.len()
}

/// Returns buckets with the entries of the sources. Their initial width is 2 to the power of `shift`; it adapts during the run.
pub(crate) fn open_bins(alloc: Global, shift: u32, sources: &[u32]) -> Result<Bins, AllocError> {
    let mut bins = Bins::new(alloc, shift)?;
    for source in sources {
        bins.put(Entry {
            vertex: *source,
            dist: 0,
        })?;
    }
    Ok(bins)
}

/// Lowers words while it empties the buckets, by rising distance. Returns whether it has gone as far as asked, without giving up.
pub(crate) fn search<T: Table<P>, const P: u32>(
    alloc: Global,
    graph: &Graph,
    bounds: SearchBounds,
    table: &mut T,
    bins: &mut Bins,
) -> Result<bool, AllocError>
    requires { CanLower P graph.now (T.labels table.old) (T.IsKept table.old) }
    ensures { HasLowered P graph.now
        (T.labels table.old) (T.labels table.new) (T.IsKept table.new) }
{
    let mut batch = BatchBuffers::new(alloc);
    let mut entries = Vec::new(alloc);
    let mut left = bounds.most;
    let mut open = 0;
    // If entries were left after this many steps, the check of the arcs would still find what they lead to.
    for _ in 0..u64::MAX {
        bins.adjust()?;
        bins.refill(&mut entries)?;
        if entries.len() > left {
            return Ok(false);
        }
        if !entries.is_empty() {
            left -= entries.len();
            relax_rows(graph, &entries, &mut batch, table, bins)?;
            continue;
        }
        match bins.advance()? {
            Some(bucket) if bucket <= bins.bucket_of(bounds.limit) => {
                open = first_open(graph, table.words(), bounds.targets, open, bins, bucket);
            }
            _ => break,
        }
        if !bounds.targets.is_empty() && open == bounds.targets.len() {
            break;
        }
    }
    Ok(true)
}
