//! Lists of entries in chunks that are reused.

use crate::entry::Entry;
use std::alloc::{AllocError, Global};

// The number of entries in a chunk.
const CHUNK: usize = 64;

// Fills the places of a chunk that have no entry yet.
const BLANK: Entry = Entry { vertex: 0, dist: 0 };

/// A list of entries in chunks. Only the last chunk may have room left.
#[derive(Clone, Copy)]
pub(crate) struct Chain {
    // The place behind the last entry, among the places of all chunks; 0 if the list is empty.
    end: usize,
}

impl Chain {
    /// The empty list.
    pub const EMPTY: Chain = Chain { end: 0 };

    /// Returns whether the list has no entry.
    pub fn is_empty(self) -> bool {
        self.end == 0
    }

    /// Returns whether another entry needs another chunk.
    pub fn is_full(self) -> bool {
        self.end % CHUNK == 0
    }

    // Returns the number of the last chunk.
    fn chunk(self) -> usize {
        self.end.saturating_sub(1) / CHUNK
    }

    // Returns the place of the first entry of the last chunk.
    fn start(self) -> usize {
        self.end.saturating_sub(1) / CHUNK * CHUNK
    }
}

/// The chunks of several lists.
///
/// A chunk that a list no longer needs is reused before more memory is allocated, so there are as many chunks as were in use at
/// the same time. The contract promises nothing about entries: places are looked up without a proof that they exist, and an entry
/// whose place didn't exist would be lost.
#[derive(Drop)]
pub(crate) struct Chunks {
    // The entries of all chunks, one chunk after the other.
    entries: Vec<Entry>,
    // For each chunk, the list without this chunk.
    rests: Vec<Chain>,
    // The chunks that are in no other list, full or not.
    free: Chain,
}

impl Chunks {
    /// Returns an empty set of chunks.
    pub fn new(alloc: Global) -> Chunks {
        Chunks {
            entries: Vec::new(alloc),
            rests: Vec::new(alloc),
            free: Chain::EMPTY,
        }
    }

    /// Returns the number of chunks.
    pub fn len(&self) -> usize {
        self.rests.len()
    }

    /// Appends an entry to a list that isn't full, and returns the list.
    pub fn put(&mut self, chain: Chain, entry: Entry) -> Chain {
        let Some(room) = self.entries.get_mut(chain.end) else {
            return chain;
        };
        *room = entry;
        Chain { end: chain.end + 1 }
    }

    // Adds a new chunk behind all others, for a list that is full, and returns the place of its first entry.
    fn make(&mut self, chain: Chain) -> Result<usize, AllocError> {
        let start = self.entries.len();
        self.rests.reserve(1)?;
        self.entries.resize(start + CHUNK, BLANK)?;
        self.rests.push(chain)?;
        Ok(start)
    }

    // Takes a free chunk for a list that is full, and returns the place of its first entry.
    fn take(&mut self, chain: Chain) -> Option<usize> {
        let free = self.free;
        if free.is_empty() {
            return None;
        }
        let rest = self.rests.get_mut(free.chunk())?;
        self.free = *rest;
        *rest = chain;
        Some(free.start())
    }

    /// Appends an entry to a list that is full, in another chunk, and returns the list.
    pub fn put_further(&mut self, chain: Chain, entry: Entry) -> Result<Chain, AllocError> {
        let end = match self.take(chain) {
            Some(start) => start,
            None => self.make(chain)?,
        };
        Ok(self.put(Chain { end }, entry))
    }

    /// Returns the entries of a list's last chunk.
    pub fn last(&self, chain: Chain) -> &[Entry] {
        self.entries.get(chain.start()..chain.end).unwrap_or(&[])
    }

    /// Returns a list without its last chunk.
    pub fn rest(&self, chain: Chain) -> Chain {
        self.rests
            .get(chain.chunk())
            .copied()
            .unwrap_or(Chain::EMPTY)
    }

    // Frees the last chunk of a list for reuse, and returns the list without it.
    fn give_back(&mut self, chain: Chain) -> Chain {
        let Some(rest) = self.rests.get_mut(chain.chunk()) else {
            return Chain::EMPTY;
        };
        let left = *rest;
        *rest = self.free;
        self.free = chain;
        left
    }

    /// Moves the entries of the last chunk of a list to the end of `list`, and returns the remaining chunks.
    pub fn move_last(&mut self, chain: Chain, list: &mut Vec<Entry>) -> Result<Chain, AllocError> {
        list.extend_from_slice(self.last(chain))?;
        Ok(self.give_back(chain))
    }
}

#[cfg(test)]
mod tests {
    use super::*;
    use std::test::Fail;

    // Returns a list of `entries` entries.
    fn fill(chunks: &mut Chunks, entries: u32) -> Result<Chain, AllocError> {
        let mut chain = Chain::EMPTY;
        for vertex in 0..entries {
            let entry = Entry { vertex, dist: 7 };
            chain = if chain.is_full() {
                chunks.put_further(chain, entry)?
            } else {
                chunks.put(chain, entry)
            };
        }
        Ok(chain)
    }

    // Removes all entries from a list, and returns their number.
    fn drain(alloc: Global, chunks: &mut Chunks, chain: Chain) -> Result<usize, AllocError> {
        let mut entries = Vec::new(alloc);
        let mut left = chain;
        for _ in 0..chunks.len() {
            if left.is_empty() {
                break;
            }
            left = chunks.move_last(left, &mut entries)?;
        }
        Ok(entries.len())
    }

    // Fills two lists and drains them, again and again. Returns whether all entries came out each time.
    fn come_back(alloc: Global, chunks: &mut Chunks) -> Result<bool, AllocError> {
        let mut all = true;
        for entries in 65..200u32 {
            let one = fill(chunks, 128)?;
            let two = fill(chunks, entries)?;
            all &= drain(alloc, chunks, one)? == 128;
            all &= drain(alloc, chunks, two)? == entries as usize;
        }
        Ok(all)
    }

    // A list of 128 entries and one of at most 199 never have more than two chunks and four.
    #[test]
    fn chunks_are_used_again(rt: HostRuntime) -> Result<(), Fail> {
        let mut chunks = Chunks::new(rt.alloc());
        assert!(rt; come_back(rt.alloc(), &mut chunks)?);
        assert!(rt; chunks.len() == 6);
        Ok(())
    }
}
