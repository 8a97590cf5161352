//! Plain lines are comments and items of the first form: they are read in the same way whatever lines come before them.
ghost use Rattle.std.specs.Prelude.{◌≡◌, ◌<◌, ◌≤◌, ◌^◌, ℕ, List, [], ◌++◌, Some, true, false, length, IfOk, OnOk, OnErr, IfSome, MatchBool};
ghost use Rattle.sp_text.specs.Formats.{format_of};
ghost use Rattle.sp_text.specs.Lines.{ended};
ghost use Rattle.sp_text.specs.Text.{ItemLine, Comment, judge, reading, problem_of};
ghost use Rattle.sp_text.specs.Feeding.{IsBehind};

use crate::collecting::{Collector, Keep};
use crate::endings::cut_line;
use crate::feeding::{Feeder, LineTaker};
use crate::fields::drop_cr;
use crate::formats::{FileFormat, Form};
use crate::matching::greatest;
use crate::reading::{is_remark, usual_item};
use crate::rooms::{LONGEST_LINE, LineBuffer, Values};
use std::alloc::AllocError;

/// Also keeps items that were read separately, after its own.
pub trait KeepParts: Keep + Drop + Sized {
    /// Returns an empty keeper, with room for the items of about this many bytes.
    fn fresh(&self, bytes: usize) -> Result<Self, AllocError>
        ensures { IfOk result (λ keep. Self.Kept keep []) };

    /// Returns the number of items kept.
    fn count(&self) -> u64
        ensures { (all : List ItemLine) → Self.Kept self.now all → result ≡ length all };

    /// Appends the items of another keeper. If there is no memory, it keeps what it had.
    fn append(&mut self, other: &Self) -> Result<(), AllocError>
        ensures appended { (before more : List ItemLine) → Self.Kept self.old before
            → Self.Kept other.now more → OnOk result (Self.Kept self.new (before ++ more)) }
        ensures refused { (before : List ItemLine) → Self.Kept self.old before
            → OnErr result (Self.Kept self.new before) };
}

/// What a plain line holds.
#[derive(Drop)]
pub enum PlainLine {
    Comment,
    /// An item of the first form, with its numbers.
    Item(Values),
}

// Returns whether items of this form, the one at this index, are plain.
#[inline(always)]
fn is_plain_form(place: usize, form: &Form) -> bool
    ensures { result ≡ true → (place ≡ 0) × (form.now.fresh ≡ false) × (form.now.group ≡ 0) }
{
    place == 0 && !form.fresh && form.group == 0
}

// Returns whether a line is a comment.
#[inline(never)]
#[tactic(auto, unfolding(crate::specs::Text::reading, crate::specs::Text::reading_of, crate::specs::Lines::fields))]
fn is_comment_line(format: &FileFormat, line: &[u8]) -> bool
    ensures { result ≡ true → reading (format_of format.now) line.now ≡ Comment }
{
    is_remark(drop_cr(line))
}

impl<K: Keep> Collector<K> {
    ghost use Rattle.sp_text.specs.Plain.{FindsPlain, FindsPlainFront};

    // Returns what a line holds, if it is plain.
    #[inline(never)]
    fn plain_line(&self, line: &[u8]) -> Option<PlainLine>
        ensures { IfSome result (FindsPlain self.now line.now) }
    {
        let problem = self.problem.as_ref()?;
        let format = self.keep.format();
        if let Some((place, form, values)) = usual_item(
            &format,
            &self.keep.ranges(),
            problem,
            line,
        ) {
            if is_plain_form(place, form) {
                return Some(PlainLine::Item(values));
            }
            return None;
        }
        if is_comment_line(&format, line) {
            return Some(PlainLine::Comment);
        }
        None
    }

    // Returns what the line at the front of a text holds, if it is plain and has its LF, and the text after it.
    #[inline(always)]
    fn plain_front<'a>(&self, text: &'a [u8]) -> Option<(PlainLine, &'a [u8])>
        ensures { IfSome result (FindsPlainFront self.now text.now) }
    {
        if let Some((place, form, values, more)) = self.front_item(text) {
            if is_plain_form(place, form) {
                return Some((PlainLine::Item(values), more));
            }
            return None;
        }
        let (line, more) = cut_line(text)?;
        if line.len() > LONGEST_LINE {
            return None;
        }
        Some((self.plain_line(line)?, more))
    }
}

impl<K: KeepParts> Collector<K> {
    ghost use Rattle.sp_text.specs.Plain.{AddsItems};

    // Appends the items of plain lines, unless there would be too many or there is no memory.
    fn add_items(&mut self, keep: &K) -> bool
        ensures { AddsItems keep.now self.old result self.new }
    {
        let Some(problem) = &self.problem else {
            return false;
        };
        let format = self.keep.format();
        let [form, ..] = format.items else {
            return false;
        };
        let Some(count) = self.counts[0].checked_add(keep.count()) else {
            return false;
        };
        if greatest(form.limit, &self.keep.ranges(), problem) < count {
            return false;
        }
        if self.keep.append(keep).is_err() {
            return false;
        }
        self.counts[0] = count;
        true
    }
}

impl<K: KeepParts> Feeder<Collector<K>> {
    ghost use Rattle.sp_text.specs.Plain.{IsBlock, HasProblem, PlainTaken};

    /// Returns an empty keeper, with room for the items of about this many bytes.
    pub fn fresh_keeper(&self, bytes: usize) -> Result<K, AllocError>
        ensures { IfOk result (λ keep. K.Kept keep []) }
    {
        self.taker.keep.fresh(bytes)
    }

    /// Returns a reader that has kept nothing, but knows the problem line that this one has read, if any. Others may use it to
    /// read plain lines while this reader takes what was read before.
    pub fn plain_reader(&self) -> Result<Feeder<Collector<K>>, AllocError>
        ensures { IfOk result
            (λ plain. (ps : List ℕ) → HasProblem self.now ps → HasProblem plain ps) }
    {
        let taker = Collector {
            keep: self.taker.keep.fresh(0)?,
            problem: self.taker.problem.as_ref().map(Values::copy),
            counts: [0; 3],
        };
        Ok(Feeder {
            taker,
            room: LineBuffer::new(),
            ends: 0,
            spent: None,
        })
    }

    /// Returns whether a problem line was read.
    pub fn has_problem(&self) -> bool
        ensures { result ≡ true → (ps : List ℕ) × HasProblem self.now ps }
    {
        self.taker.problem.is_some()
    }

    /// If the line at the front of a text has its LF and is plain after the problem line that was read, keeps what it holds in
    /// a separate keeper, and returns the text after it.
    ///
    /// # Errors
    /// If there is no memory for the item, the contract promises nothing about the keeper.
    #[inline(always)]
    pub fn take_plain<'a>(
        &self,
        text: &'a [u8],
        keep: &mut K,
    ) -> Result<Option<&'a [u8]>, AllocError>
        ensures shorter { IfOk result
            (λ taken. IfSome taken (λ more. length more.now < length text.now)) }
        ensures taken { (ps : List ℕ) → HasProblem self.now ps
            → PlainTaken K.format K.ranges K.Kept ps text.now keep.old keep.new result }
    {
        let Some((line, more)) = self.taker.plain_front(text) else {
            return Ok(None);
        };
        match line {
            PlainLine::Comment => Ok(Some(more)),
            PlainLine::Item(values) => {
                keep.keep(0, &values)?;
                Ok(Some(more))
            }
        }
    }

    /// Takes plain lines that were read separately, given their items and their number. Returns whether it has taken them: it
    /// takes none in the middle of a line, if there would be too many items, or if there is no memory.
    pub fn add_lines(&mut self, keep: &K, lines: u64) -> bool
        ensures { (text block ps : List ℕ) → length (text ++ block) ≤ 2 ^ 62
            → problem_of K.format (ended text) ≡ Some ps
            → IsBlock K.format K.ranges K.Kept ps block keep.now lines
            → IsBehind (judge K.format K.ranges) ⟦<Collector<K> as LineTaker>⟧.After text self.old
            → MatchBool result
            (IsBehind (judge K.format K.ranges) ⟦<Collector<K> as LineTaker>⟧.After
            (text ++ block) self.new)
            (IsBehind (judge K.format K.ranges) ⟦<Collector<K> as LineTaker>⟧.After
            text self.new) }
    {
        if !self.room.is_empty() {
            return false;
        }
        if !self.taker.add_items(keep) {
            return false;
        }
        self.ends = self.ends.wrapping_add(lines);
        true
    }
}
