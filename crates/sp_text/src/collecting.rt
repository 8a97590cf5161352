//! The lines of a file, taken one after another.
ghost use Rattle.std.specs.Prelude.{◌≡◌, ℕ, ◌<◌, List, [], ◌∷◌, ◌++◌, length, OnOk, IfSome, MatchOption, Some, None, true};
ghost use Rattle.sp_text.specs.declared.formats.Ranges.{Ranges};
ghost use Rattle.sp_text.specs.Formats.{Format, format_of, IsSmall, IsSmallForm, IsFreshPlace, form_of};
ghost use Rattle.sp_text.specs.Text.{ItemLine, judge, first_out, first_letter, is_named, named_at};
ghost use Rattle.sp_text.specs.Keeping.{CanKeep};
ghost use Rattle.sp_text.specs.Collecting.{SpelledBy};
ghost use Rattle.sp_text.specs.Silence.{judge_silent};

use crate::faults::Kind;
use crate::feeding::LineTaker;
use crate::formats::{Field, FileFormat, Form, Ranges};
use crate::matching::{Numbers, greatest};
use crate::reading::{LineContent, front_item, read_line, usual_item};
use crate::rooms::Values;
use std::alloc::AllocError;

/// Keeps the items of a file, and returns the value that they spell.
pub trait Keep {
    /// The value that a text spells.
    type Value;

    /// The line forms of the file.
    ghost format: { Format };

    /// The limits that the layout of the words sets for the file.
    ghost ranges: { Ranges };

    /// These items were kept.
    ghost Kept: { Self → List ItemLine → Type 0 };

    /// The numbers of the problem line and the items spell this value.
    ghost Spelled: { List ℕ → List ItemLine → Self.Value → Type 0 };

    /// Returns the line forms of the file.
    fn format(&self) -> FileFormat
        ensures format { format_of result ≡ format }
        ensures small { IsSmall result };

    /// Returns the limits that the layout of the words sets for the file.
    fn ranges(&self) -> Ranges
        ensures { result ≡ ranges };

    /// Keeps an item whose numbers are in range. If there is no memory, the contract promises nothing about the kept items.
    fn keep(&mut self, place: usize, values: &Values) -> Result<(), AllocError>
        requires { CanKeep format ranges place values.now }
        ensures { (before : List ItemLine) (item : ItemLine) → Kept self.old before
            → item.kind ≡ place → item.numbers ≡ values.now
            → OnOk result (Kept self.new (before ++ item ∷ [])) };

    /// Returns whether an item of this fresh form with this first number was kept.
    fn is_named(&self, place: usize, first: u64) -> bool
        requires { IsFreshPlace format place }
        ensures { (before : List ItemLine) → Kept self.now before
            → result ≡ is_named place first before };

    /// Returns the value of the items after a problem line whose numbers are in range, and starts over.
    fn give(&mut self, problem: &Values) -> Self::Value
        requires { first_out ranges [] format.problem.fields problem.now ≡ None }
        ensures { (all : List ItemLine) → Kept self.old all
            → (Spelled problem.now all result) × Kept self.new [] };
}

/// Takes the lines of a file, and keeps the items.
#[derive(Drop)]
pub struct Collector<K: Keep> {
    pub(crate) keep: K,
    pub(crate) problem: Option<Values>,
    pub(crate) counts: [u64; 3],
    ghost in_range: { (ps : List ℕ) → problem ≡ Some ps
        → first_out K.ranges [] K.format.problem.fields ps ≡ None },
}

fn first_letter(fields: &[Field]) -> Option<u8>
    ensures { result ≡ first_letter fields.now }
{
    match fields {
        [] => None,
        [field, ..] => Some(field.letter),
    }
}

// Returns the letter of the first field if the form is fresh and an earlier item has the same first number.
fn named_letter<K: Keep>(keep: &K, place: usize, form: &Form, first: u64) -> Option<u8>
    requires { form.now.fresh ≡ true → IsFreshPlace K.format place }
    ensures { (before : List ItemLine) → K.Kept keep.now before
        → result ≡ named_at (form_of form.now) place first before }
{
    if form.fresh && keep.is_named(place, first) {
        return first_letter(form.fields);
    }
    None
}

impl<K: Keep> Collector<K> {
    ghost use Rattle.sp_text.specs.Matching.{Are};
    ghost use Rattle.sp_text.specs.Collectors.{HasTakenLines, FindsItem, FindsFrontItem, IsOfItem, TakesProblem, TakesItem, TakesLine, TakesFront};

    /// Returns a collector that has taken no lines.
    pub fn new(keep: K) -> Self
        requires { K.Kept keep [] }
        ensures { HasTakenLines result [] }
    {
        Collector {
            keep,
            problem: None,
            counts: [0; 3],
        }
    }

    // Returns the form of a line after the problem line, with its index and its numbers, if they are in the usual
    // spelling.
    #[inline(always)]
    fn usual_item(&self, line: &[u8]) -> Option<(usize, &'static Form, Values)>
        ensures { IfSome result (FindsItem self.now line.now) }
    {
        let problem = self.problem.as_ref()?;
        usual_item(&self.keep.format(), &self.keep.ranges(), problem, line)
    }

    // Does the same for the line at the front of a text, and also returns the text after it.
    #[inline(always)]
    pub(crate) fn front_item<'a>(
        &self,
        text: &'a [u8],
    ) -> Option<(usize, &'static Form, Values, &'a [u8])>
        ensures { IfSome result (FindsFrontItem self.now text.now) }
    {
        let problem = self.problem.as_ref()?;
        front_item(&self.keep.format(), &self.keep.ranges(), problem, text)
    }

    /// Takes the line at the front of a text, if it is an item in the usual spelling. Returns the result and the text after
    /// the line.
    #[inline(always)]
    pub(crate) fn take_front<'a>(&mut self, text: &'a [u8]) -> Option<(Result<(), Kind>, &'a [u8])>
        ensures { MatchOption result (self.new ≡ self.old) (TakesFront text.now self.old self.new) }
    {
        let (place, form, values, more) = self.front_item(text)?;
        Some((self.take_item(place, form, Numbers::Within(values)), more))
    }

    fn take_problem(&mut self, numbers: Numbers) -> Result<(), Kind>
        requires { (ns : List ℕ) × Are K.ranges [] K.format.problem.fields ns numbers }
        ensures { TakesProblem numbers self.old result self.new }
    {
        if self.problem.is_some() {
            return Err(Kind::SecondProblem);
        }
        match numbers {
            Numbers::Out(letter, _) => Err(Kind::OutOfRange(letter)),
            Numbers::Within(values) => {
                self.problem = Some(values);
                Ok(())
            }
        }
    }

    #[inline(always)]
    fn take_item(&mut self, place: usize, form: &Form, numbers: Numbers) -> Result<(), Kind>
        requires small { IsSmallForm form.now }
        requires item { IsOfItem self.old place form.now numbers }
        ensures { TakesItem place form.now numbers self.old result self.new }
    {
        let Some(problem) = &self.problem else {
            return Err(Kind::NoProblem);
        };
        if let Some(letter) = named_letter(&self.keep, place, form, numbers.first()) {
            return Err(Kind::OutOfRange(letter));
        }
        let values = match numbers {
            Numbers::Out(letter, _) => return Err(Kind::OutOfRange(letter)),
            Numbers::Within(values) => values,
        };
        let group = form.group;
        let count = self.counts[group];
        if greatest(form.limit, &self.keep.ranges(), problem) <= count {
            return Err(Kind::TooMany);
        }
        if self.keep.keep(place, &values).is_err() {
            return Err(Kind::Memory);
        }
        self.counts[group] = count + 1;
        Ok(())
    }

    // Takes the next line, whatever it is.
    #[inline(never)]
    fn take_any(&mut self, line: &[u8]) -> Result<(), Kind>
        ensures { TakesLine line.now self.old result self.new }
    {
        let none = Values::new();
        let problem = self.problem.as_ref().unwrap_or(&none);
        match read_line(&self.keep.format(), &self.keep.ranges(), problem, line) {
            LineContent::Comment => Ok(()),
            LineContent::Bad => Err(Kind::BadLine),
            LineContent::Problem(numbers) => self.take_problem(numbers),
            LineContent::Item(place, form, numbers) => self.take_item(place, form, numbers),
        }
    }
}

impl<K: Keep> LineTaker for Collector<K> {
    ghost use Rattle.sp_text.specs.Collectors.{HasTakenLines};

    type Value = K::Value;

    ghost rules = { judge K.format K.ranges };

    ghost After = { HasTakenLines };

    ghost Spelled = { λ lines value. SpelledBy K.format K.Spelled lines value };

    fn is_closed(&self) -> bool {
        false
    }

    fn needs_lf(&self) -> bool {
        false
    }

    #[inline(always)]
    fn take_line(&mut self, line: &[u8]) -> Result<(), Kind> {
        match self.usual_item(line) {
            Some((place, form, values)) => self.take_item(place, form, Numbers::Within(values)),
            None => self.take_any(line),
        }
    }

    fn end(&mut self) -> Result<K::Value, Kind> {
        let Some(problem) = &self.problem else {
            return Err(Kind::NoProblem);
        };
        if self.counts[0] < greatest(self.keep.format().needed, &self.keep.ranges(), problem) {
            return Err(Kind::TooFew);
        }
        let value = self.keep.give(problem);
        self.problem = None;
        self.counts = [0; 3];
        Ok(value)
    }

    ghost silent = { judge_silent K.format K.ranges };
}
