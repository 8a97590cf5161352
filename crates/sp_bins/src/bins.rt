//! Entries by bucket, with no promise about their order.
ghost use Rattle.std.specs.Prelude.{◌≡◌, ◌<◌, vec_len, IfSome};

use crate::chunks::{Chain, Chunks};
use crate::entry::Entry;
use std::alloc::{AllocError, Global};
use std::mem;

// The number of slots of a wheel, and the number of wheels.
const SLOTS: usize = 256;

const WHEELS: usize = 8;

// The number of slots that one word of the marks covers, and the number of these words.
const MARKED: usize = 64;

const MARKS: usize = SLOTS * WHEELS / MARKED;

// The width of the buckets is reconsidered after this many entries of heads were added.
const LOT: u64 = 256;

// The widest buckets are 2 to this power wide.
const WIDEST: u32 = 40;

/// Entries by bucket, in hierarchical wheels like those that G. Varghese and T. Lauck use for timers ("Hashed and hierarchical
/// timing wheels", 1987).
///
/// A slot of the first wheel has the entries of one bucket. A slot of each further wheel has the entries of as many buckets as
/// fit in the wheel below. An entry is in the lowest wheel that distinguishes its bucket from the lowest bucket. When a wheel is
/// empty, the entries of the next slot of the wheel above move to the wheels below. An entry is therefore moved at most once for
/// each wheel, however far away its bucket is.
///
/// The width of the buckets adapts during the run. If many heads fall into the bucket of their tail, its vertices are relaxed in
/// too loose an order, and many of them several times: all buckets then become narrower. If hardly any do, all buckets become
/// wider.
///
/// Entries are in chunks of 64. Each slot has at most one chunk that is partly filled, and free chunks are reused before more
/// memory is allocated. So there are chunks for the greatest number of entries that waited at the same time, and for 63 more for
/// each slot that had an entry. All chunks are in one list, which doubles as it grows and is freed with the bins.
#[derive(Drop)]
pub struct Bins {
    alloc: Global,
    // Buckets are 2 to this power wide.
    shift: u32,
    // The bucket that is being emptied.
    lowest: u64,
    // The slots of all wheels, with those of the first wheel first, and the chunks with their entries.
    slots: Vec<Chain>,
    chunks: Chunks,
    // A bit for each slot, set if the slot has an entry.
    marks: Vec<u64>,
    // The number of entries of heads that were added since the width was last reconsidered, and how many of them were added to
    // the bucket of their tail.
    put: u64,
    near: u64,
    // The number of entries that were moved when the width last changed.
    moved: u64,
    ghost narrow: { shift < 64 },
    ghost size: { vec_len slots ≡ 2048 },
    ghost marked: { vec_len marks ≡ 32 },
}

// Returns the bit of a slot in its word of the marks.
fn bit_of(place: usize) -> u64 {
    1 << (place % MARKED)
}

// Returns the least distance of the entries, or `dist` if it is less.
fn least_of(entries: &[Entry], dist: u64) -> u64 {
    let mut least = dist;
    for entry in entries {
        least = least.min(entry.dist);
    }
    least
}

impl Bins {
    /// Returns empty bins whose buckets are initially 2 to the power of `shift` wide.
    pub fn new(alloc: Global, shift: u32) -> Result<Bins, AllocError> {
        Ok(Bins {
            alloc,
            shift: shift.min(WIDEST),
            lowest: 0,
            slots: vec![in alloc; Chain::EMPTY; SLOTS * WHEELS]?,
            chunks: Chunks::new(alloc),
            marks: vec![in alloc; 0; MARKS]?,
            put: 0,
            near: 0,
            moved: 0,
        })
    }

    /// Returns the bucket of a distance.
    pub fn bucket_of(&self, dist: u64) -> u64 {
        dist >> self.shift
    }

    /// Returns the least distance of the bucket that is being emptied.
    pub fn start(&self) -> u64 {
        self.lowest << self.shift
    }

    /// Returns the width of the buckets, as a power of 2.
    pub fn shift(&self) -> u32 {
        self.shift
    }

    // Returns the slot for the entries of a bucket. A bucket below the lowest one shares its slot.
    fn place_of(&self, bucket: u64) -> usize
        ensures { result < 2048 }
    {
        let bucket = bucket.max(self.lowest);
        let wheel = (bucket ^ self.lowest).max(1).ilog2() / 8;
        let slot = (bucket >> (8 * wheel)) % SLOTS as u64;
        wheel as usize * SLOTS + slot as usize
    }

    // Adds an entry to a slot that has no chunk yet, or whose chunks are full.
    #[cold]
    #[inline(never)]
    fn lay_further(&mut self, place: usize, entry: Entry) -> Result<(), AllocError>
        requires { place < 2048 }
    {
        self.slots[place] = self.chunks.put_further(self.slots[place], entry)?;
        self.marks[place / MARKED] |= bit_of(place);
        Ok(())
    }

    // Adds an entry to the slot of its bucket.
    #[inline]
    fn lay(&mut self, entry: Entry) -> Result<(), AllocError> {
        let place = self.place_of(self.bucket_of(entry.dist));
        let slot = self.slots[place];
        if slot.is_full() {
            return self.lay_further(place, entry);
        }
        self.slots[place] = self.chunks.put(slot, entry);
        Ok(())
    }

    /// Adds an entry to its bucket.
    pub fn put(&mut self, entry: Entry) -> Result<(), AllocError> {
        self.lay(entry)
    }

    /// Adds the entry of a head to its bucket, and records whether its tail's distance is in the same bucket: if this happens
    /// often, buckets are too wide.
    pub fn put_head(&mut self, entry: Entry, tail_dist: u64) -> Result<(), AllocError> {
        // A sum instead of a branch, which would often be mispredicted. Neither number comes near 2^64.
        let is_near = self.bucket_of(entry.dist) == self.bucket_of(tail_dist);
        self.put = self.put.wrapping_add(1);
        self.near = self.near.wrapping_add(u64::from(is_near));
        self.lay(entry)
    }

    // Moves the entries of a slot to the end of a list.
    fn empty(&mut self, place: usize, list: &mut Vec<Entry>) -> Result<(), AllocError>
        requires { place < 2048 }
    {
        for _ in 0..self.chunks.len() {
            let slot = self.slots[place];
            if slot.is_empty() {
                break;
            }
            self.slots[place] = self.chunks.move_last(slot, list)?;
        }
        self.marks[place / MARKED] &= !bit_of(place);
        Ok(())
    }

    /// Replaces the entries of a list, all of them processed, by those of the bucket that is being emptied. If the list is then
    /// empty, `advance` goes on to the next bucket.
    pub fn refill(&mut self, list: &mut Vec<Entry>) -> Result<(), AllocError> {
        list.clear();
        let lowest = self.place_of(self.lowest);
        self.empty(lowest, list)
    }

    /// Makes the buckets 2 to the power of `shift` wide, and starts with the bucket of this distance. The bins must have no
    /// entry.
    pub fn open(&mut self, dist: u64, shift: u32) {
        self.shift = shift.min(WIDEST);
        self.lowest = self.bucket_of(dist);
    }

    // Returns the first slot that has an entry.
    fn first_place(&self) -> Option<usize>
        ensures { IfSome result (λ place. place < 2048) }
    {
        let first = (self.lowest % SLOTS as u64) as usize / MARKED;
        for word in first..MARKS {
            let marks = self.marks[word];
            if marks != 0 {
                return Some(word * MARKED + marks.trailing_zeros() as usize);
            }
        }
        None
    }

    // Returns the least distance of the entries of a list that isn't empty.
    fn least_in(&self, list: Chain) -> u64 {
        let mut least = u64::MAX;
        let mut left = list;
        for _ in 0..self.chunks.len() {
            if left.is_empty() {
                break;
            }
            least = least_of(self.chunks.last(left), least);
            left = self.chunks.rest(left);
        }
        least
    }

    // Adds the entries of a list that is no longer in a slot to the slots of their buckets.
    fn lay_chain(&mut self, list: Chain) -> Result<(), AllocError> {
        let mut entries = Vec::new(self.alloc);
        let mut left = list;
        for _ in 0..self.chunks.len() {
            if left.is_empty() {
                break;
            }
            left = self.chunks.move_last(left, &mut entries)?;
            self.lay_all(&entries)?;
            entries.clear();
        }
        Ok(())
    }

    // Moves the entries of a slot to the wheels below. From then on, the lowest of their buckets is being emptied.
    fn deal(&mut self, place: usize) -> Result<(), AllocError>
        requires { place < 2048 }
    {
        let list = mem::replace(&mut self.slots[place], Chain::EMPTY);
        self.marks[place / MARKED] &= !bit_of(place);
        if !list.is_empty() {
            self.lowest = self.bucket_of(self.least_in(list));
        }
        self.lay_chain(list)
    }

    // Adds entries to the slots of their buckets.
    fn lay_all(&mut self, entries: &[Entry]) -> Result<(), AllocError> {
        for entry in entries {
            self.lay(*entry)?;
        }
        Ok(())
    }

    // Removes the entries from all slots, and returns them.
    fn take_all(&mut self) -> Result<Vec<Entry>, AllocError> {
        let mut entries = Vec::new(self.alloc);
        for _ in 0..SLOTS * WHEELS {
            let Some(place) = self.first_place() else {
                break;
            };
            self.empty(place, &mut entries)?;
        }
        Ok(entries)
    }

    // Returns the width that suits the heads that were added recently, as a power of 2.
    fn fitting_shift(&self) -> u32
        ensures { result < 64 }
    {
        if self.near > self.put / 2 {
            self.shift.saturating_sub(4)
        } else if self.near > self.put / 4 {
            self.shift.saturating_sub(2)
        } else if self.near < self.put / 64 {
            (self.shift + 1).min(WIDEST)
        } else {
            self.shift
        }
    }

    // Changes the width of the buckets.
    fn set_shift(&mut self, shift: u32) -> Result<(), AllocError>
        requires { shift < 64 }
    {
        let entries = self.take_all()?;
        let start = least_of(&entries, self.start());
        self.shift = shift;
        self.lowest = self.bucket_of(start);
        self.moved = entries.len() as u64;
        self.lay_all(&entries)
    }

    /// Adapts the width of the buckets to the heads that were added recently. The caller holds no entry of the bucket that is
    /// being emptied.
    ///
    /// A new width moves all entries. Buckets become wider only if at least as many heads were added as the last change moved, so
    /// that moving entries takes no more time than adding them.
    pub fn adjust(&mut self) -> Result<(), AllocError> {
        if self.put < LOT {
            return Ok(());
        }
        let shift = self.fitting_shift();
        if shift > self.shift && self.put < self.moved {
            return Ok(());
        }
        self.put = 0;
        self.near = 0;
        if shift == self.shift {
            return Ok(());
        }
        self.set_shift(shift)
    }

    /// Advances to the lowest bucket that has an entry, and returns that bucket.
    pub fn advance(&mut self) -> Result<Option<u64>, AllocError> {
        let Some(place) = self.first_place() else {
            return Ok(None);
        };
        if place < SLOTS {
            self.lowest = self.lowest / SLOTS as u64 * SLOTS as u64 + place as u64;
        } else {
            self.deal(place)?;
        }
        Ok(Some(self.lowest))
    }
}
