//! The work of the thread that reads the device, while other threads read pieces of what came.
ghost use Rattle.std.specs.Prelude.{◌≡◌, ◌≤◌, ℕ, List, [], Some, true, false, Err, IfErr, IfNone, IfOk, IfSome, OnErr, OnOk};
ghost use Rattle.sp_device.specs.Failing.{Never};
ghost use Rattle.sp_text.specs.Text.{judge};
ghost use Rattle.sp_text.specs.Collecting.{SpelledBy};
ghost use Rattle.sp_text.specs.Feeding.{IsBehind};
ghost use Rattle.sp_text.specs.Plain.{HasProblem};
ghost use Rattle.sp_text.specs.Whole.{ReadOn};
ghost use Rattle.sp_parts.specs.Groups.{HasCome, HasComeTo};
ghost use Rattle.sp_parts.specs.Held.{AreHeld};
ghost use Rattle.sp_parts.specs.Stands.{Goes, Stands};

use crate::buffer_pool::{BufferPool, PendingPiece};
use crate::pieces::{KeepAcross, Origin};
use crate::plan::Plan;
use crate::progress::ReadingProgress;
use crate::receiving::Received;
use crate::sharing::{ROUNDS, Shared};
use sp_device::Read;
use sp_text::{Collector, DimacsError, Feeder, LineTaker};
use sp_word::ThreadsAndSleep;
use std::alloc::{AllocError, Global};
use std::collections::VecDeque;
use std::thread::{join_mut, map_indices};

// Reads the device to its end and takes all pieces in order, including those that it reads itself. None means that it gave up
// before the end.
fn read_through<K: KeepAcross, O: Origin, H: ThreadsAndSleep, R: Read>(
    rt: &H,
    device: &mut R,
    progress: &mut ReadingProgress<K>,
    pool: &mut BufferPool<O>,
    shared: &Shared<K, O>,
) -> Option<Result<K::Value, DimacsError>>
    requires came { HasComeTo R.Read O.text device.old progress.old.came.bytes }
    requires held { AreHeld O.text progress.old.taken.bytes
        progress.old.flying.items progress.old.came.bytes }
    requires more { progress.old.received ≡ Received.More }
    requires going { R.failing device.old ≡ Never → R.has_failed device.old ≡ false }
    ensures read { IfSome result (λ read. (begun : R)
        → Stands R.Read O.text O.problem begun device.old
        progress.old.reader progress.old.came.bytes progress.old.taken.bytes
        → ReadOn (judge K.format K.ranges) (SpelledBy K.format K.Spelled)
        R.Read begun read device.new) }
    ensures left { IfNone result
        (Goes R.Read O.text O.problem device.old
        progress.old.reader progress.old.came.bytes progress.old.taken.bytes
        device.new progress.new.reader progress.new.came.bytes progress.new.taken.bytes
        progress.new.received
        × AreHeld O.text progress.new.taken.bytes
        progress.new.flying.items progress.new.came.bytes) }
    ensures never { R.failing device.old ≡ Never → R.has_failed device.new ≡ false }
{
    let mut turn: u32 = 0;
    for _ in 0..ROUNDS {
        let has_received = progress.receive_more(device, pool, shared);
        let has_taken = match progress.take_next(pool, shared) {
            Ok(has_taken) => has_taken,
            Err(e) => return Some(Err(e)),
        };
        if has_received || has_taken || shared.read_one() {
            turn = 0;
            continue;
        }
        if progress.taken.bytes == progress.came.bytes {
            match progress.received {
                Received::Over => return Some(progress.reader.finish()),
                Received::Failed => return Some(Err(progress.reader.fail())),
                Received::More => {}
            }
        }
        shared.signals.rest(rt, turn);
        turn = turn.saturating_add(1);
    }
    None
}

// Reads the device to its end in this way, and then signals to the other threads that all is read.
fn lead<K: KeepAcross, O: Origin, H: ThreadsAndSleep, R: Read>(
    rt: &H,
    device: &mut R,
    progress: &mut ReadingProgress<K>,
    pool: &mut BufferPool<O>,
    shared: &Shared<K, O>,
) -> Option<Result<K::Value, DimacsError>>
    requires came { HasComeTo R.Read O.text device.old progress.old.came.bytes }
    requires held { AreHeld O.text progress.old.taken.bytes
        progress.old.flying.items progress.old.came.bytes }
    requires more { progress.old.received ≡ Received.More }
    requires going { R.failing device.old ≡ Never → R.has_failed device.old ≡ false }
    ensures read { IfSome result (λ read. (begun : R)
        → Stands R.Read O.text O.problem begun device.old
        progress.old.reader progress.old.came.bytes progress.old.taken.bytes
        → ReadOn (judge K.format K.ranges) (SpelledBy K.format K.Spelled)
        R.Read begun read device.new) }
    ensures left { IfNone result
        (Goes R.Read O.text O.problem device.old
        progress.old.reader progress.old.came.bytes progress.old.taken.bytes
        device.new progress.new.reader progress.new.came.bytes progress.new.taken.bytes
        progress.new.received
        × AreHeld O.text progress.new.taken.bytes
        progress.new.flying.items progress.new.came.bytes) }
    ensures never { R.failing device.old ≡ Never → R.has_failed device.new ≡ false }
{
    let result = read_through(rt, device, progress, pool, shared);
    shared.signals.end();
    result
}

// Reads pieces with this many threads, including this one, until all is read.
fn serve_by<K: KeepAcross + Send + Sync, O: Origin + Send + Sync, H: ThreadsAndSleep>(
    rt: &H,
    shared: &Shared<K, O>,
    threads: usize,
) {
    let serve = |_number: usize| shared.serve(rt);
    let _ = map_indices(rt, shared.alloc, threads, &serve);
}

// Reads the device to its end, while other threads read pieces. None means that it gave up before the end.
fn read_beside<K: KeepAcross + Send + Sync, O: Origin + Send + Sync, H: ThreadsAndSleep, R: Read>(
    rt: &H,
    device: &mut R,
    progress: &mut ReadingProgress<K>,
    pool: &mut BufferPool<O>,
    shared: &Shared<K, O>,
) -> Option<Result<K::Value, DimacsError>>
    requires came { HasComeTo R.Read O.text device.old progress.old.came.bytes }
    requires held { AreHeld O.text progress.old.taken.bytes
        progress.old.flying.items progress.old.came.bytes }
    requires more { progress.old.received ≡ Received.More }
    requires going { R.failing device.old ≡ Never → R.has_failed device.old ≡ false }
    ensures read { IfSome result (λ read. (begun : R)
        → Stands R.Read O.text O.problem begun device.old
        progress.old.reader progress.old.came.bytes progress.old.taken.bytes
        → ReadOn (judge K.format K.ranges) (SpelledBy K.format K.Spelled)
        R.Read begun read device.new) }
    ensures left { IfNone result
        (Goes R.Read O.text O.problem device.old
        progress.old.reader progress.old.came.bytes progress.old.taken.bytes
        device.new progress.new.reader progress.new.came.bytes progress.new.taken.bytes
        progress.new.received
        × AreHeld O.text progress.new.taken.bytes
        progress.new.flying.items progress.new.came.bytes) }
    ensures never { R.failing device.old ≡ Never → R.has_failed device.new ≡ false }
{
    let others = shared.plan.others();
    let mut serve = || serve_by(rt, shared, others);
    let mut read = || -> Option<Result<K::Value, DimacsError>>
        requires { (HasComeTo R.Read O.text device.now progress.now.came.bytes)
            × (AreHeld O.text progress.now.taken.bytes
            progress.now.flying.items progress.now.came.bytes)
            × (progress.now.received ≡ Received.More)
            × (R.failing device.now ≡ Never → R.has_failed device.now ≡ false) }
        ensures read { IfSome result (λ read. (begun : R)
            → Stands R.Read O.text O.problem begun device.entry.now
            progress.entry.now.reader progress.entry.now.came.bytes progress.entry.now.taken.bytes
            → ReadOn (judge K.format K.ranges) (SpelledBy K.format K.Spelled)
            R.Read begun read device.exit.now) }
        ensures left { IfNone result
            (Goes R.Read O.text O.problem device.entry.now
            progress.entry.now.reader progress.entry.now.came.bytes progress.entry.now.taken.bytes
            device.exit.now progress.exit.now.reader progress.exit.now.came.bytes
            progress.exit.now.taken.bytes progress.exit.now.received
            × AreHeld O.text progress.exit.now.taken.bytes
            progress.exit.now.flying.items progress.exit.now.came.bytes) }
        ensures never { R.failing device.entry.now ≡ Never
            → R.has_failed device.exit.now ≡ false }
    { lead(rt, device, progress, pool, shared) };
    join_mut(rt, &mut serve, &mut read).1
}

// Takes the rest of a device's text, by this thread alone.
fn take_rest<K: KeepAcross, O: Origin, R: Read>(
    device: &R,
    progress: &mut ReadingProgress<K>,
    pool: &mut BufferPool<O>,
) -> Result<(), DimacsError>
    requires { AreHeld O.text progress.old.taken.bytes
        progress.old.flying.items progress.old.came.bytes }
    ensures taken { OnOk result ((begun : R) → Stands R.Read O.text O.problem begun device.now
        progress.old.reader progress.old.came.bytes progress.old.taken.bytes
        → (text : List ℕ) × HasCome R.Read (R.left begun) device.now text
        × IsBehind (judge K.format K.ranges) ⟦<Collector<K> as LineTaker>⟧.After
        text progress.new.reader) }
    ensures refused { IfErr result (λ e. (begun : R)
        → Stands R.Read O.text O.problem begun device.now
        progress.old.reader progress.old.came.bytes progress.old.taken.bytes
        → ReadOn (judge K.format K.ranges) (SpelledBy K.format K.Spelled)
        R.Read begun (Err e) device.now) }
{
    loop {
        let has_taken = match progress.take_front(pool, None) {
            Ok(has_taken) => has_taken,
            Err(e) => return Err(e),
        };
        if has_taken {
            continue;
        }
        return Ok(());
    }
}

// Makes what the threads share, and what this thread has alone: the pieces that came, none so far, and what it needs for them.
fn begin<K: KeepAcross, O: Origin>(
    alloc: Global,
    reader: &Feeder<Collector<K>>,
    plan: &Plan,
) -> Result<(Shared<K, O>, BufferPool<O>, VecDeque<PendingPiece>), AllocError>
    requires { (ps : List ℕ) → O.problem ≡ Some ps → HasProblem reader.now ps }
    ensures { IfOk result (λ begun. begun.2.items ≡ []) }
{
    let pool = BufferPool::new(alloc, plan)?;
    let shared = Shared::new(alloc, reader, plan, pool.stealer()?)?;
    Ok((shared, pool, VecDeque::with_capacity(alloc, plan.pieces())?))
}

/// Reads the rest of a text with several threads, after what a reader has read, including a problem line. If that can't be done,
/// it returns the reader, which has taken all that came from the device. If there is no memory for what the threads share,
/// nothing came.
pub(crate) fn read_together<
    K: KeepAcross + Send + Sync,
    O: Origin + Send + Sync,
    H: ThreadsAndSleep,
    R: Read,
>(
    rt: &H,
    alloc: Global,
    device: &mut R,
    reader: Feeder<Collector<K>>,
    plan: &Plan,
) -> Result<Result<K::Value, DimacsError>, Feeder<Collector<K>>>
    requires text { O.text ≡ R.left device.old }
    requires problem { (ps : List ℕ) × (O.problem ≡ Some ps) × HasProblem reader ps }
    requires going { R.failing device.old ≡ Never → R.has_failed device.old ≡ false }
    ensures read { IfOk result (λ read. (begun : R) (alone : List ℕ)
        → HasCome R.Read (R.left begun) device.old alone
        → IsBehind (judge K.format K.ranges) ⟦<Collector<K> as LineTaker>⟧.After alone reader
        → ReadOn (judge K.format K.ranges) (SpelledBy K.format K.Spelled)
        R.Read begun read device.new) }
    ensures back { IfErr result (λ back. (begun : R) (alone : List ℕ)
        → HasCome R.Read (R.left begun) device.old alone
        → IsBehind (judge K.format K.ranges) ⟦<Collector<K> as LineTaker>⟧.After alone reader
        → (text : List ℕ) × HasCome R.Read (R.left begun) device.new text
        × IsBehind (judge K.format K.ranges) ⟦<Collector<K> as LineTaker>⟧.After
        text back) }
    ensures further { OnErr result ((R.failing device.new ≡ R.failing device.old)
        × (R.passed device.old ≤ R.passed device.new)) }
    ensures never { R.failing device.old ≡ Never → R.has_failed device.new ≡ false }
{
    let Ok((shared, mut pool, flying)) = begin::<K, O>(alloc, &reader, plan) else {
        return Err(reader);
    };
    let mut progress = ReadingProgress::new(reader, flying);
    match read_beside(rt, device, &mut progress, &mut pool, &shared) {
        Some(read) => Ok(read),
        None => match take_rest(device, &mut progress, &mut pool) {
            Ok(()) => Err(progress.into_reader()),
            Err(e) => Ok(Err(e)),
        },
    }
}
