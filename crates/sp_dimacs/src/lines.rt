//! The lines of a text, one after another.
ghost use Rattle.std.specs.Prelude.{◌≡◌, ◌+◌, ◌-◌, ◌^◌, ◌≤◌, ◌++◌, ◌∷◌, [], ℕ, List, Option, Some, Err, Ok, IfOk, IfErr, OnOk, ◌<◌, length, min};
ghost use Rattle.sp_text.specs.declared.faults.DimacsError.{DimacsError};
ghost use Rattle.sp_dimacs.specs.LineReading.{RunTaken, LineRead};

use crate::read_buffer::ReadBuffer;
use sp_device::Read;
use sp_text::{DimacsError, Kind, LONGEST_LINE, LineBuffer, cut_line, extend_line};

// Whether more lines may come, and otherwise why not.
#[derive(Clone, Copy)]
pub enum State {
    Going,
    Over,
    Refused(DimacsError),
}

// Moves the bytes up to the next LF, and removes the LF; or moves all bytes if there is none. Returns whether there was
// an LF.
fn take_run(piece: &mut ReadBuffer, room: &mut LineBuffer) -> Result<bool, Kind>
    ensures taken { RunTaken piece.old room.old result piece.new room.new }
    ensures short { OnOk result (length room.new ≤ LONGEST_LINE) }
{
    let Some((line, _)) = cut_line(piece.bytes()) else {
        extend_line(room, piece.bytes())?;
        piece.clear();
        return Ok(false);
    };
    extend_line(room, line)?;
    let taken = line.len() + 1;
    piece.skip(taken);
    Ok(true)
}

// Reads the next line into the buffer, and returns whether it has its LF. If there is neither an LF nor a byte, there is no
// next line.
fn read_line<R: Read>(
    reader: &mut R,
    piece: &mut ReadBuffer,
    room: &mut LineBuffer,
) -> Result<bool, Kind>
    requires { room.old ≡ [] }
    ensures read { LineRead R.Read reader.old reader.new piece.old result piece.new room.new }
    ensures short { OnOk result (length room.new ≤ LONGEST_LINE) }
{
    loop {
        match take_run(piece, room) {
            Ok(true) => return Ok(true),
            Ok(false) => {}
            Err(kind) => return Err(kind),
        }
        let Ok(()) = piece.refill(reader) else {
            return Err(Kind::Read);
        };
        if piece.bytes().is_empty() {
            return Ok(false);
        }
    }
}

/// Reads the lines of a device's text, one after another. It allocates no memory.
#[derive(Drop)]
pub struct Lines<R> {
    reader: R,
    piece: ReadBuffer,
    room: LineBuffer,
    number: u64,
    has_end: bool,
    state: State,
}

impl<R: Read> Lines<R> {
    ghost use Rattle.sp_dimacs.specs.Giving.{IsBehindLines, IsRefusedAs, had_lf, Gave, GaveOf, Gives, Counted};
    ghost use Rattle.sp_dimacs.specs.contracts.lines.Lines.{the_row};
    ghost use Rattle.std.specs.Io.BufRead.{Rests};
    ghost use Rattle.std.specs.Borrow.{sem};
    ghost use Rattle.sp_dimacs.specs.declared.lines.State.TheVariants.{Refused};

    /// Returns a reader positioned before the first line.
    pub fn new(reader: R) -> Self
        ensures { IsBehindLines R.Read (R.left reader) [] result }
    {
        Lines {
            reader,
            piece: ReadBuffer::new(),
            room: LineBuffer::new(),
            number: 0,
            has_end: false,
            state: State::Going,
        }
    }

    // Reads the next line into the buffer, and returns whether there is one.
    fn advance(&mut self) -> Result<bool, DimacsError>
        ensures again { (e : DimacsError) → self.old.state ≡ Refused e
            → (result ≡ Err e) × (self.new ≡ self.old) }
        ensures gave { (start : Option (List ℕ)) (given : List (List ℕ))
            → IsBehindLines R.Read start given self.old
            → Gave R.Read start given self.new.room result self.new }
    {
        match self.state {
            State::Over => return Ok(false),
            State::Refused(error) => return Err(error),
            State::Going => {}
        }
        self.room.clear();
        match read_line(&mut self.reader, &mut self.piece, &mut self.room) {
            Ok(has_end) => Ok(self.count(has_end)),
            Err(kind) => Err(self.refuse(kind)),
        }
    }

    // Counts the line that was read, if it is a line.
    fn count(&mut self, has_end: bool) -> bool
        ensures { Counted self.old has_end result self.new }
    {
        if !has_end {
            self.state = State::Over;
            if self.room.is_empty() {
                return false;
            }
        }
        self.has_end = has_end;
        self.number = self.number.saturating_add(1);
        true
    }

    // Refuses the text: the next line has this fault.
    fn refuse(&mut self, kind: Kind) -> DimacsError
        ensures line { result
            ≡ record { line = min (self.old.number + 1) (2 ^ 64 - 1); kind = kind } }
        ensures refused { self.new ≡ record self.old { state = Refused result } }
    {
        let error = DimacsError {
            line: self.number.saturating_add(1),
            kind,
        };
        self.state = State::Refused(error);
        error
    }

    /// Returns the number of the last line returned, or 0 before the first.
    pub fn line(&self) -> u64
        ensures { (start : Option (List ℕ)) (given : List (List ℕ))
            → IsBehindLines R.Read start given self.now → result ≡ min (length given) (2 ^ 64 - 1) }
    {
        self.number
    }

    /// Returns whether the last line returned had its LF.
    pub fn ended(&self) -> bool
        ensures { result ≡ had_lf self.now }
    {
        self.has_end
    }

    /// Returns the next line without its LF, or `None` once the text has ended. A line of more than 1,024 bytes is
    /// refused with LongLine, and a failure of the device with Read at the line being read. After a refusal every call
    /// returns the same fault.
    pub fn next(&mut self) -> Result<Option<&[u8]>, DimacsError>
        ensures again { (e : DimacsError) → IsRefusedAs e self.old → result ≡ Err e }
        ensures text { (text : List ℕ) (given : List (List ℕ))
            → IsBehindLines R.Read (Some text) given self.old → GaveOf text given result }
        ensures* after { sem 𝓛
            (Rests (the_row R.row) self.entry (Gives R.Read self.old result)) }
    {
        match self.advance() {
            Ok(true) => Ok(Some(self.room.bytes())),
            Ok(false) => Ok(None),
            Err(error) => Err(error),
        }
    }
}
