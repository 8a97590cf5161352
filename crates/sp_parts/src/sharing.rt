//! What the threads that read a text share: the pieces still to be read, and those already read.
ghost use Rattle.std.specs.Prelude.{◌≡◌, ◌<◌, ℕ, List, Some, vec_len, IfOk};
ghost use Rattle.sp_text.specs.Plain.{HasProblem};

use crate::pieces::{Origin, Piece, ReadPiece, read_piece};
use crate::plan::Plan;
use crate::signals::ReadingSignals;
use crossbeam_deque::{Steal, Stealer};
use sp_text::{Collector, Feeder, KeepParts};
use sp_word::ThreadsAndSleep;
use std::alloc::{AllocError, Global};
use std::hint::spin_loop;
use std::sync::{Mutex, MutexGuard};

/// The most often that a thread looks for a piece. It never happens in practice; a thread that reaches it stops reading.
pub(crate) const ROUNDS: u64 = 1 << 60;

/// The most often that a thread tries to lock a place, which others hold only briefly. It never happens in practice.
const TRIES: u64 = 1 << 60;

/// The most often that a thread asks the deque for a piece at once, while the deque asks it to retry.
const ASKS: u32 = 100;

/// What the threads that read a text share.
#[derive(Drop)]
pub struct Shared<K: KeepParts, O: Origin> {
    pub(crate) alloc: Global,
    pub(crate) plan: Plan,
    pub(crate) signals: ReadingSignals,
    // reads plain lines after the problem line
    plain: Feeder<Collector<K>>,
    // the pieces still to be read
    todo: Stealer<Piece<O>>,
    // a place for each piece that was read, by its number
    places: Vec<Mutex<Option<ReadPiece<K, O>>>>,
    ghost same: { (ps : List ℕ) → O.problem ≡ Some ps → HasProblem plain ps },
    ghost some: { 0 < vec_len places },
}

// Returns this many empty places.
fn empty_places<K: KeepParts, O: Origin>(
    alloc: Global,
    count: usize,
) -> Result<Vec<Mutex<Option<ReadPiece<K, O>>>>, AllocError>
    requires { 0 < count }
    ensures { IfOk result (λ places. 0 < vec_len places) }
{
    let mut places = Vec::with_capacity(alloc, count)?;
    for _ in 0..count {
        places.push(Mutex::new(None))?;
    }
    Ok(places)
}

// Locks a place, once any other thread has released it. None means that all tries failed, which never happens in practice.
fn hold<T>(place: &Mutex<T>) -> Option<MutexGuard<'_, T>> {
    for _ in 0..TRIES {
        if let Some(held) = place.try_lock() {
            return Some(held);
        }
        spin_loop();
    }
    None
}

impl<K: KeepParts, O: Origin> Shared<K, O> {
    /// Makes what the threads share that read what comes after the problem line of this reader.
    pub(crate) fn new(
        alloc: Global,
        reader: &Feeder<Collector<K>>,
        plan: &Plan,
        todo: Stealer<Piece<O>>,
    ) -> Result<Shared<K, O>, AllocError>
        requires { (ps : List ℕ) → O.problem ≡ Some ps → HasProblem reader.now ps }
    {
        Ok(Shared {
            alloc,
            plan: *plan,
            signals: ReadingSignals::new(),
            plain: reader.plain_reader()?,
            todo,
            places: empty_places(alloc, plan.pieces())?,
        })
    }

    /// Returns the greatest number of pieces at a time.
    pub(crate) fn room(&self) -> usize {
        self.places.len()
    }

    // Returns the index of the place for a piece, given its number.
    fn place(&self, number: u64) -> usize
        ensures { result < vec_len self.now.places }
    {
        (number % self.places.len() as u64) as usize
    }

    // Puts a piece that was read into its place.
    fn put(&self, read: ReadPiece<K, O>) {
        let place = self.place(read.piece.number);
        if let Some(mut held) = hold(&self.places[place]) {
            *held = Some(read);
        }
        self.signals.ring();
    }

    /// Takes what was read of the piece with this number, if it was read.
    pub(crate) fn take(&self, number: u64) -> Option<ReadPiece<K, O>> {
        let place = self.place(number);
        let mut held = self.places[place].try_lock()?;
        held.take()
    }

    // Takes a piece that is still to be read, if it gets one.
    fn find(&self) -> Option<Piece<O>> {
        for _ in 0..ASKS {
            match self.todo.steal() {
                Steal::Success(piece) => return Some(piece),
                Steal::Empty => return None,
                Steal::Retry => {}
            }
        }
        None
    }

    /// Reads a piece, if it gets one that is still to be read. Returns whether it did.
    pub(crate) fn read_one(&self) -> bool {
        let Some(piece) = self.find() else {
            return false;
        };
        self.put(read_piece(self.alloc, &self.plain, piece));
        true
    }

    /// Reads pieces until the whole text is read.
    pub(crate) fn serve<H: ThreadsAndSleep>(&self, rt: &H) {
        let mut turn: u32 = 0;
        for _ in 0..ROUNDS {
            if self.signals.is_over() {
                return;
            }
            if self.read_one() {
                turn = 0;
            } else {
                self.signals.rest(rt, turn);
                turn = turn.saturating_add(1);
            }
        }
    }
}
