//! Reads a text in which most lines are items in the usual spelling.
ghost use Rattle.std.specs.Prelude.{◌≡◌, ◌<◌, ℕ, List, [], length, true, false, Some, Err, IfOk, IfErr, OnOk};
ghost use Rattle.sp_device.specs.Failing.{Never};
ghost use Rattle.sp_text.specs.declared.faults.Kind.{Kind};
ghost use Rattle.sp_text.specs.Text.{judge};
ghost use Rattle.sp_text.specs.Collecting.{SpelledBy};
ghost use Rattle.sp_text.specs.Feeding.{IsBehind, Reads, HasReadSome, Refuses};
ghost use Rattle.sp_text.specs.Whole.{AllRead, IsSpelled, ReadOn, NeverRead};

use crate::collecting::{Collector, Keep};
use crate::faults::DimacsError;
use crate::feeding::{Feeder, LineTaker};
use crate::whole::PIECE;
use sp_device::Read;

impl<K: Keep> Feeder<Collector<K>> {
    // Takes the bytes up to and including the next LF, or all of them, whatever they are. Returns the result and the bytes
    // after them.
    #[inline(always)]
    fn take_other<'a>(&mut self, bytes: &'a [u8]) -> (Result<(), DimacsError>, &'a [u8])
        requires { 0 < length bytes.now }
        ensures taken { OnOk result.0 (HasReadSome (judge K.format K.ranges)
            ⟦<Collector<K> as LineTaker>⟧.After bytes.now result.1.now self.old self.new) }
        ensures refused { IfErr result.0
            (λ e. Refuses (judge K.format K.ranges) ⟦<Collector<K> as LineTaker>⟧.After
            bytes.now self.old e self.new) }
    {
        match self.take_run(bytes) {
            Ok(more) => (Ok(()), more),
            Err(error) => (Err(error), bytes),
        }
    }

    // Does the same, but faster if an item in the usual spelling comes first.
    #[inline(always)]
    fn take_next<'a>(&mut self, bytes: &'a [u8]) -> (Result<(), DimacsError>, &'a [u8])
        requires { 0 < length bytes.now }
        ensures taken { OnOk result.0 (HasReadSome (judge K.format K.ranges)
            ⟦<Collector<K> as LineTaker>⟧.After bytes.now result.1.now self.old self.new) }
        ensures refused { IfErr result.0
            (λ e. Refuses (judge K.format K.ranges) ⟦<Collector<K> as LineTaker>⟧.After
            bytes.now self.old e self.new) }
    {
        if !self.room.is_empty() {
            return self.take_other(bytes);
        }
        match self.taker.take_front(bytes) {
            Some((Ok(()), more)) => {
                self.ends = self.ends.wrapping_add(1);
                (Ok(()), more)
            }
            Some((Err(kind), more)) => (Err(self.refuse(kind)), more),
            None => self.take_other(bytes),
        }
    }

    /// Takes the next piece of the text as `feed` does, if no fault was found before. It is faster if most lines are items in
    /// the usual spelling.
    #[inline(never)]
    pub fn feed_items(&mut self, piece: &[u8]) -> Result<(), DimacsError>
        ensures { Reads (judge K.format K.ranges) ⟦<Collector<K> as LineTaker>⟧.After
            piece.now self.old result self.new }
    {
        let mut rest = piece;
        while !rest.is_empty() {
            let (taken, more) = self.take_next(rest);
            taken?;
            rest = more;
        }
        Ok(())
    }
}

// Reads the device to its end, and feeds the bytes to the reader.
fn read_on<R: Read, K: Keep + Drop>(
    reader: &mut R,
    mut feeder: Feeder<Collector<K>>,
) -> Result<K::Value, DimacsError>
    requires { IsBehind (judge K.format K.ranges) ⟦<Collector<K> as LineTaker>⟧.After [] feeder }
    ensures read { ReadOn (judge K.format K.ranges) (SpelledBy K.format K.Spelled)
        R.Read reader.old result reader.new }
    ensures never { R.failing reader.old ≡ Never → R.has_failed reader.new ≡ false }
{
    let mut buffer = [0u8; PIECE];
    loop {
        match reader.read(&mut buffer) {
            Ok(0) => return feeder.finish(),
            Ok(n) => feeder.feed_items(&buffer[..n])?,
            Err(_) => return Err(feeder.fail()),
        }
    }
}

/// Reads the rest of a reader's bytes as `read_text` does, but faster if most lines are items in the usual spelling: a
/// letter, one space before each number, and LF.
pub fn read_items<R: Read, K: Keep + Drop>(
    reader: &mut R,
    feeder: Feeder<Collector<K>>,
) -> Result<K::Value, DimacsError>
    requires { IsBehind (judge K.format K.ranges) ⟦<Collector<K> as LineTaker>⟧.After [] feeder }
    ensures exact { (text : List ℕ) → R.left reader.old ≡ Some text
        → AllRead (judge K.format K.ranges) (SpelledBy K.format K.Spelled) text
        (R.left reader.new) (R.has_failed reader.new) result }
    ensures found { IfOk result
        (IsSpelled (judge K.format K.ranges) (SpelledBy K.format K.Spelled)) }
    ensures read { IfErr result (λ e. e.kind ≡ Kind.Read → R.has_failed reader.new ≡ true) }
    ensures never { NeverRead (R.failing reader.old) result }
{
    read_on(reader, feeder)
}
