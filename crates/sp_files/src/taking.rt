//! Takes the lines of a file, one after another.
ghost use Rattle.std.specs.Prelude.{◌≡◌, [], Some, true, false, IfOk, IfErr, None, if◌then◌else◌};
ghost use Rattle.sp_word.specs.Word.{is_layout};
ghost use Rattle.sp_files.specs.declared.lines.Line.TheVariants.{Problem, Row, End};
ghost use Rattle.sp_files.specs.Spelling.{second_range, root_fault, row_fault, is_whole};
ghost use Rattle.sp_files.specs.Taking.{IsRootWithin, IsRowWithin, spelled_by, Answers};

use crate::content::{FileContent, RowProgress};
use crate::fields::in_range;
use crate::lines::{Line, RowNumbers, read_line};
use sp_text::{Kind, LineTaker};
use sp_word::Word;
use std::alloc::Global;
use std::mem;

/// What the lines so far have spelled.
#[derive(Drop)]
pub enum Spelled<V> {
    Nothing,
    /// A value that may get more rows.
    Open(V),
    /// A value whose last line has come.
    Whole(V),
}

/// Takes the lines of a file, and keeps what they spell so far.
#[derive(Drop)]
pub struct FileLines<V, const P: u32> {
    alloc: Global,
    spelled: Spelled<V>,
    ghost layout: { is_layout P ≡ true },
}

// Returns the letter and the least value of the second number of a first line.
fn second_range(near: bool) -> (u8, u64)
    ensures { result ≡ second_range near }
{
    if near { (b'K', 0) } else { (b'S', 1) }
}

// Returns `Ok` if the root is a vertex or there is none, and otherwise the fault.
fn check_root(n: u64, root: Option<u64>) -> Result<(), Kind>
    ensures within { IfOk result (λ u. IsRootWithin n root) }
    ensures clean { IfOk result (λ u. root_fault n root ≡ None) }
    ensures told { IfErr result (λ kind. root_fault n root ≡ Some kind) }
{
    match root {
        Some(root) => in_range(b'S', 1, n, root),
        None => Ok(()),
    }
}

// Returns `Ok` if a row may come next, and otherwise its fault.
fn check_row<const P: u32>(place: RowProgress, row: RowNumbers) -> Result<(), Kind>
    requires { is_layout P ≡ true }
    ensures within { IfOk result (λ u. IsRowWithin P place row) }
    ensures clean { IfOk result (λ u. row_fault P place row ≡ None) }
    ensures told { IfErr result (λ kind. row_fault P place row ≡ Some kind) }
{
    let n = place.n as u64;
    in_range(b'V', place.last as u64 + 1, n, row.vertex)?;
    in_range(b'D', 0, Word::<P>::max_dist(), row.dist)?;
    in_range(b'P', 0, n, row.pred)?;
    check_root(n, row.root)
}

// Returns this kind of fault for a line of the file's own kind, and otherwise that the line is bad.
fn kind_if(own: bool, kind: Kind) -> Kind
    ensures { result ≡ if own then kind else Kind.BadLine }
{
    if own { kind } else { Kind::BadLine }
}

impl<V: FileContent<P>, const P: u32> FileLines<V, P> {
    ghost use Rattle.sp_files.specs.Reading.{HasTaken};

    /// Returns a taker that stands before the first line.
    pub fn new(alloc: Global) -> Self
        requires { is_layout P ≡ true }
        ensures { HasTaken V.form result [] }
    {
        FileLines {
            alloc,
            spelled: Spelled::Nothing,
        }
    }

    // Takes the line `p spt N S` or `p near N K`.
    fn begin(&mut self, near: bool, n: u64, second: u64) -> Result<(), Kind>
        requires { is_whole self.old.spelled ≡ false }
        ensures { Answers P V.form.begins (spelled_by V.form self.old.spelled)
            (Some (Problem near n second)) result (spelled_by V.form self.new.spelled) }
    {
        if let Spelled::Open(value) = &self.spelled {
            return Err(kind_if(near == value.place().rooted, Kind::SecondProblem));
        }
        if !V::begins(near) {
            return Err(Kind::BadLine);
        }
        in_range(b'N', 1, Word::<P>::max_pred() as u64, n)?;
        let (letter, least) = second_range(near);
        in_range(letter, least, n, second)?;
        self.spelled = Spelled::Open(V::begin(self.alloc, near, n as u32, second as u32));
        Ok(())
    }

    // Takes the line `v V D P` or `v V D P S`.
    fn add(&mut self, row: RowNumbers) -> Result<(), Kind>
        requires { is_whole self.old.spelled ≡ false }
        ensures { Answers P V.form.begins (spelled_by V.form self.old.spelled)
            (Some (Row row)) result (spelled_by V.form self.new.spelled) }
    {
        let rooted = row.root.is_some();
        let Spelled::Open(value) = &mut self.spelled else {
            return Err(kind_if(rooted != V::begins(false), Kind::NoProblem));
        };
        let place = value.place();
        if rooted != place.rooted {
            return Err(Kind::BadLine);
        }
        check_row::<P>(place, row)?;
        if value.push(row).is_err() {
            return Err(Kind::Memory);
        }
        Ok(())
    }

    // Takes the line `e R`.
    fn close(&mut self, count: u64) -> Result<(), Kind>
        requires { is_whole self.old.spelled ≡ false }
        ensures { Answers P V.form.begins (spelled_by V.form self.old.spelled)
            (Some (End count)) result (spelled_by V.form self.new.spelled) }
    {
        let Spelled::Open(value) = mem::replace(&mut self.spelled, Spelled::Nothing) else {
            return Err(Kind::NoProblem);
        };
        let rows = value.place().rows as u64;
        in_range(b'R', rows, rows, count)?;
        self.spelled = Spelled::Whole(value);
        Ok(())
    }
}

impl<V: FileContent<P>, const P: u32> LineTaker for FileLines<V, P> {
    ghost use Rattle.sp_files.specs.Spelling.{Content, spelling_state, judge};
    ghost use Rattle.sp_files.specs.Reading.{HasTaken, Spells};
    ghost use Rattle.sp_files.specs.Silence.{silent};

    type Value = V;

    ghost rules = { judge P V.form.begins };

    ghost After = { λ lines before. HasTaken V.form lines before };

    ghost Spelled = { λ all value. Spells V.form all value };

    fn is_closed(&self) -> bool {
        match &self.spelled {
            Spelled::Whole(_) => true,
            _ => false,
        }
    }

    fn needs_lf(&self) -> bool {
        true
    }

    fn take_line(&mut self, line: &[u8]) -> Result<(), Kind> {
        if let Spelled::Whole(_) = &self.spelled {
            return Err(Kind::TooMany);
        }
        let Some(line) = read_line(line) else {
            return Err(Kind::BadLine);
        };
        match line {
            Line::Problem { near, n, second } => self.begin(near, n, second),
            Line::Row(row) => self.add(row),
            Line::End { count } => self.close(count),
        }
    }

    fn end(&mut self) -> Result<V, Kind> {
        match mem::replace(&mut self.spelled, Spelled::Nothing) {
            Spelled::Nothing => Err(Kind::NoProblem),
            Spelled::Open(_) => Err(Kind::TooFew),
            Spelled::Whole(value) => Ok(value),
        }
    }

    ghost silent = { silent P V.form.begins };
}
