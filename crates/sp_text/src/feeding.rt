//! A reader that is fed a text in pieces, for any line forms.
ghost use Rattle.std.specs.Prelude.{◌≡◌, ◌+◌, ◌-◌, ◌^◌, ◌<◌, [], ℕ, List, length, min, Ok, Err, Some, IfOk, IfErr};
ghost use Rattle.sp_text.specs.declared.faults.DimacsError.{DimacsError};
ghost use Rattle.sp_text.specs.First.{Judge, IsSilent};
ghost use Rattle.sp_text.specs.Feeding.{Takes, Ends, IsBehind, Reads, ReadsPart, ReadsRest, ReadsLf, HasReadSome, Refuses, Closes, Finishes, Fails};

use crate::endings::cut_line;
use crate::faults::{DimacsError, Kind};
use crate::rooms::{LONGEST_LINE, LineBuffer, extend_line};
use std::mem;

/// Takes the lines of a text one after another, as long as none has a fault.
pub trait LineTaker {
    /// The value that a text spells.
    type Value;

    /// The rules of the file.
    ghost rules: { Judge };

    /// The state after these lines, none of which has a fault.
    ghost After: { Self → List (List ℕ) → Type 0 };

    /// The lines spell this value.
    ghost Spelled: { List (List ℕ) → Self.Value → Type 0 };

    /// Returns whether no further line may follow.
    fn is_closed(&self) -> bool
        ensures { (before : List (List ℕ)) → After self.now before → result ≡ rules.closed before };

    /// Returns whether each line, including the last, needs its LF.
    fn needs_lf(&self) -> bool
        ensures { result ≡ rules.needs_lf };

    /// Takes the next line, or returns its fault. After a fault the contract promises nothing about the state.
    fn take_line(&mut self, line: &[u8]) -> Result<(), Kind>
        ensures { (before : List (List ℕ)) → After self.old before
            → Takes rules After before line.now result self.new };

    /// Ends the lines. If nothing is missing, it returns the value and starts over.
    fn end(&mut self) -> Result<Self::Value, Kind>
        ensures { (all : List (List ℕ)) → After self.old all
            → Ends rules After Spelled all result self.new };

    /// No line has the fault of a device.
    ghost silent: { IsSilent rules };
}

/// A reader that is fed a text in pieces, and returns what the text spells, or its first fault. After a fault every
/// call returns the same fault.
#[derive(Drop)]
pub struct Feeder<T> {
    pub(crate) taker: T,
    pub(crate) room: LineBuffer,
    pub(crate) ends: u64,
    pub(crate) spent: Option<DimacsError>,
}

impl<T: LineTaker> Feeder<T> {
    /// Returns a reader that has read no text.
    pub fn new(taker: T) -> Self
        requires { T.After taker [] }
        ensures { IsBehind T.rules T.After [] result }
    {
        Feeder {
            taker,
            room: LineBuffer::new(),
            ends: 0,
            spent: None,
        }
    }

    // Refuses the text: the line being read has this fault.
    pub(crate) fn refuse(&mut self, kind: Kind) -> DimacsError
        ensures line { result
            ≡ record { line = min (self.old.ends + 1) (2 ^ 64 - 1); kind = kind } }
        ensures spent { self.new.spent ≡ Some result }
    {
        let error = DimacsError {
            line: self.ends.saturating_add(1),
            kind,
        };
        self.spent = Some(error);
        error
    }

    // Ends the line that is being read, which has these bytes.
    #[inline(always)]
    fn end_line(&mut self, line: &[u8]) -> Result<(), DimacsError>
        ensures { ReadsLf T.rules T.After (record self.old { room = line.now }) result self.new }
    {
        match self.taker.take_line(line) {
            Ok(()) => {
                self.room.clear();
                self.ends = self.ends.wrapping_add(1);
                Ok(())
            }
            Err(kind) => Err(self.refuse(kind)),
        }
    }

    // Ends the line that is being read.
    #[inline(never)]
    fn end_room(&mut self) -> Result<(), DimacsError>
        ensures { ReadsLf T.rules T.After self.old result self.new }
    {
        let room = mem::replace(&mut self.room, LineBuffer::new());
        self.end_line(room.bytes())
    }

    // Takes bytes without an LF.
    #[inline(never)]
    fn take_open(&mut self, bytes: &[u8]) -> Result<(), DimacsError>
        ensures { ReadsPart T.rules T.After bytes.now self.old result self.new }
    {
        match extend_line(&mut self.room, bytes) {
            Ok(()) => Ok(()),
            Err(kind) => Err(self.refuse(kind)),
        }
    }

    // Takes bytes without an LF, and then an LF.
    #[inline(always)]
    fn take_rest(&mut self, bytes: &[u8]) -> Result<(), DimacsError>
        ensures { ReadsRest T.rules T.After bytes.now self.old result self.new }
    {
        if !self.room.is_empty() {
            self.take_open(bytes)?;
            return self.end_room();
        }
        if bytes.len() > LONGEST_LINE {
            return Err(self.refuse(Kind::LongLine));
        }
        self.end_line(bytes)
    }

    // Takes the bytes up to and including the next LF, or all of them, and returns the bytes after them.
    #[inline(always)]
    pub(crate) fn take_run<'a>(&mut self, bytes: &'a [u8]) -> Result<&'a [u8], DimacsError>
        requires { 0 < length bytes.now }
        ensures taken { IfOk result
            (λ more. HasReadSome T.rules T.After bytes.now more.now self.old self.new) }
        ensures refused { IfErr result
            (λ e. Refuses T.rules T.After bytes.now self.old e self.new) }
    {
        if self.taker.is_closed() {
            return Err(self.refuse(Kind::TooMany));
        }
        let Some((line, more)) = cut_line(bytes) else {
            self.take_open(bytes)?;
            return Ok(&[]);
        };
        self.take_rest(line)?;
        Ok(more)
    }

    /// Takes the next piece of the text. After a fault every call returns the same fault.
    #[inline(never)]
    pub fn feed(&mut self, piece: &[u8]) -> Result<(), DimacsError>
        ensures again { (e : DimacsError) → self.old.spent ≡ Some e
            → (result ≡ Err e) × (self.new ≡ self.old) }
        ensures fed { Reads T.rules T.After piece.now self.old result self.new }
    {
        if let Some(error) = self.spent {
            return Err(error);
        }
        let mut rest = piece;
        while !rest.is_empty() {
            rest = self.take_run(rest)?;
        }
        Ok(())
    }

    // Takes the last line, if it lacks its LF and needs none.
    fn close_line(&mut self) -> Result<(), DimacsError>
        ensures { Closes T.rules T.After self.old result self.new }
    {
        if self.room.is_empty() {
            return Ok(());
        }
        if self.taker.needs_lf() {
            return Err(self.refuse(Kind::TooFew));
        }
        self.end_room()
    }

    /// Ends the text. A reader that returns its value then starts a new text.
    pub fn finish(&mut self) -> Result<T::Value, DimacsError>
        ensures again { (e : DimacsError) → self.old.spent ≡ Some e
            → (result ≡ Err e) × (self.new ≡ self.old) }
        ensures finished { Finishes T.rules T.After T.Spelled self.old result self.new }
    {
        if let Some(error) = self.spent {
            return Err(error);
        }
        self.close_line()?;
        match self.taker.end() {
            Ok(value) => {
                self.ends = 0;
                Ok(value)
            }
            Err(kind) => Err(self.refuse(kind)),
        }
    }

    /// Reports a failure of the device to the reader. Returns the fault found earlier, or Read at the line being read.
    pub fn fail(&mut self) -> DimacsError
        ensures again { (e : DimacsError) → self.old.spent ≡ Some e
            → (result ≡ e) × (self.new ≡ self.old) }
        ensures failed { Fails T.rules T.After self.old result self.new }
    {
        match self.spent {
            Some(error) => error,
            None => self.refuse(Kind::Read),
        }
    }
}
