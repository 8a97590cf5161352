//! A worker's entries, and how it finds more.

use crate::chunk::Chunk;
use crate::common::Common;
use crate::deques::steal;
use crate::schedule::{AHEAD, LEAST_PIECE, LOOKS, MOST_LOOKS, NAP, PATIENCE, YIELDS};
use crate::tally::Tally;
use crossbeam_deque::Worker;
use sp_bins::{Bins, Entry};
use sp_word::{Meter, ThreadsAndSleep};
use std::alloc::{AllocError, Global};
use std::hint::spin_loop;
use std::thread::yield_now;

/// A worker's entries: its list, its buckets and its deque.
#[derive(Drop)]
pub struct WorkQueue<'m> {
    alloc: Global,
    worker: usize,
    own: Worker<Chunk>,
    bins: Bins,
    // the entries being relaxed, and how many of them are done
    list: Vec<Entry>,
    next: usize,
    tally: Tally<'m>,
}

impl<'m> WorkQueue<'m> {
    /// Makes the empty hands of a worker, which counts the vertices that it relaxes on the meter.
    pub fn new(
        common: &Common,
        worker: usize,
        own: Worker<Chunk>,
        meter: &'m Meter,
    ) -> Result<WorkQueue<'m>, AllocError> {
        Ok(WorkQueue {
            alloc: common.alloc,
            worker,
            own,
            bins: Bins::new(common.alloc, common.shift)?,
            list: Vec::new(common.alloc),
            next: 0,
            tally: Tally::new(meter),
        })
    }

    /// Whether this is the queue of the first worker, which starts with the queue.
    pub fn is_first(&self) -> bool {
        self.worker == 0
    }

    /// The waiting entries, by bucket.
    pub fn bins(&mut self) -> &mut Bins {
        &mut self.bins
    }

    /// The next entries of the list, at most `most`.
    pub fn upcoming(&self, most: usize) -> &[Entry] {
        let rest = self.list.as_slice().get(self.next..).unwrap_or(&[]);
        let (front, _) = rest.split_at(rest.len().min(most));
        front
    }

    /// Takes the next entries of the list, at most `most`, and replaces the content of `taken` with them.
    pub fn take(&mut self, most: usize, taken: &mut Vec<Entry>) -> Result<(), AllocError> {
        taken.clear();
        taken.extend_from_slice(self.upcoming(most))?;
        self.next = self.next.saturating_add(taken.len());
        Ok(())
    }

    // Replaces the finished list with the entries of the bucket that is being emptied. Returns whether there are any.
    fn refill(&mut self) -> Result<bool, AllocError> {
        self.next = 0;
        self.bins.adjust()?;
        self.bins.refill(&mut self.list)?;
        Ok(!self.list.is_empty())
    }

    /// Counts this number of vertices as relaxed.
    pub fn count(&mut self, vertices: usize) {
        self.tally.count(vertices);
    }

    // The number of entries left in the list.
    fn left(&self) -> usize {
        self.list.len().saturating_sub(self.next)
    }

    // Cuts a chunk off the end of the list.
    fn cut(&mut self, piece: usize) -> Result<Chunk, AllocError> {
        let at = self.list.len().saturating_sub(piece);
        let entries = Vec::from_slice(self.alloc, &self.list[at..])?;
        self.list.truncate(at);
        Ok(Chunk {
            start: self.bins.start(),
            shift: self.bins.shift(),
            entries,
        })
    }

    // Puts chunks where other workers find them.
    fn share(&mut self, common: &Common) -> Result<(), AllocError> {
        let hungry = common.signals.hungry().min(64) as usize;
        let piece = self.left() / (hungry + 1);
        if piece < LEAST_PIECE {
            return Ok(());
        }
        for _ in 0..hungry {
            let chunk = self.cut(piece)?;
            if self.own.push(chunk).is_err() {
                return Err(AllocError);
            }
            common.signals.put();
        }
        Ok(())
    }

    // Makes a chunk the list.
    fn hold(&mut self, chunk: Chunk) {
        let Chunk {
            start: _,
            shift: _,
            entries,
        } = chunk;
        self.list = entries;
        self.next = 0;
    }

    // Steals a chunk from another worker, if it can.
    fn steal(&mut self, common: &Common) -> Option<Chunk> {
        let chunk = steal(&common.stealers)?;
        common.signals.taken();
        common.signals.set_level(self.worker, chunk.start);
        Some(chunk)
    }

    // Returns whether the others are so far behind that the worker should wait for them.
    fn is_ahead(&self, common: &Common) -> bool {
        let pace = AHEAD << self.bins.shift().min(60);
        common.signals.lowest().saturating_add(pace) < self.bins.start()
    }

    // Waits a while for the others to catch up. Returns a chunk if one arrives in the meantime.
    fn wait(&mut self, common: &Common) -> Option<Chunk> {
        if !self.is_ahead(common) {
            return None;
        }
        common.signals.begin_hunger();
        let mut chunk = None;
        for _ in 0..PATIENCE {
            if !self.is_ahead(common) {
                break;
            }
            if common.signals.shared() > 0 {
                chunk = self.steal(common);
                if chunk.is_some() {
                    break;
                }
            }
            spin_loop();
        }
        common.signals.end_hunger();
        chunk
    }

    // Waits for another worker's chunk. Returns `None` if all work is done, or if the worker has looked too often; it has no
    // entries then, so the others do the work that is left.
    fn rest<C: ThreadsAndSleep>(&mut self, rt: &C, common: &Common) -> Option<Chunk> {
        let signals = &common.signals;
        signals.begin_hunger();
        for look in 0..MOST_LOOKS {
            if signals.shared() > 0 {
                signals.begin_work();
                let chunk = self.steal(common);
                if chunk.is_some() {
                    signals.end_hunger();
                    return chunk;
                }
                signals.end_work();
            }
            if signals.is_over() {
                signals.dismiss();
                return None;
            }
            if look < LOOKS {
                spin_loop();
            } else if look < YIELDS {
                yield_now();
            } else {
                signals.sleep(rt, NAP);
            }
        }
        signals.end_hunger();
        None
    }

    /// Waits for a worker's first entries, if it has none yet. Returns whether there are any.
    pub fn begin<C: ThreadsAndSleep>(&mut self, rt: &C, common: &Common) -> bool {
        match self.rest(rt, common) {
            Some(chunk) => {
                self.bins.open(chunk.start, chunk.shift);
                self.hold(chunk);
                true
            }
            None => false,
        }
    }

    // Moves on to the next bucket after the list and its bucket are finished. Returns false if all work is done.
    fn advance<C: ThreadsAndSleep>(&mut self, rt: &C, common: &Common) -> Result<bool, AllocError> {
        let signals = &common.signals;
        if self.bins.advance()?.is_none() {
            self.tally.tell();
            if signals.is_alone() {
                return Ok(false);
            }
            signals.leave(self.worker);
            return Ok(self.begin(rt, common));
        }
        if !signals.is_alone() {
            signals.set_level(self.worker, self.bins.start());
            if let Some(chunk) = self.wait(common) {
                self.hold(chunk);
            }
        }
        Ok(true)
    }

    /// Finds an entry for the list. Returns false if all work is done. A worker that has looked too often fails as if memory had
    /// been refused.
    pub fn find<C: ThreadsAndSleep>(
        &mut self,
        rt: &C,
        common: &Common,
    ) -> Result<bool, AllocError> {
        for _ in 0..MOST_LOOKS {
            if self.left() > 0 {
                if common.signals.hungry() > 0 {
                    self.share(common)?;
                }
                return Ok(true);
            }
            if self.refill()? {
                continue;
            }
            if let Some(chunk) = self.own.pop() {
                common.signals.taken();
                self.hold(chunk);
                continue;
            }
            if !self.advance(rt, common)? {
                return Ok(false);
            }
        }
        Err(AllocError)
    }
}
