//! Matches a line against the forms of a file.
ghost use Rattle.std.specs.Prelude.{◌≡◌, ◌+◌, ◌≤◌, ℕ, List, [], ◌∷◌, length, drop, slice_index, true, Some, None, IfSome, MatchOption, MatchBool};
ghost use Rattle.sp_text.specs.Lines.{fields_from};
ghost use Rattle.sp_text.specs.declared.formats.Field.{Field};
ghost use Rattle.sp_text.specs.declared.formats.Ranges.{Ranges};
ghost use Rattle.sp_text.specs.Formats.{form_of};
ghost use Rattle.sp_text.specs.Numeral.{numeral};
ghost use Rattle.sp_text.specs.Text.{top, numbers, behind_words, of_form};
ghost use Rattle.sp_text.specs.Matching.{NumberTaken, Spells, Matched, IsLetter, AreSpaced, AreInFront};

use crate::fields::{next_field, parts_fields, starts_otherwise};
use crate::formats::{Field, Form, Ranges, Top};
use crate::numbers::{Numeral, front_number, number, ranged, spells_number};
use crate::packed::{ROOM, number_at, other_bytes};
use crate::rooms::Values;

/// The numbers of a line that has a form.
#[derive(Drop)]
pub enum Numbers {
    /// The letter of the first number that is out of its range, and the numbers before it.
    Out(u8, Values),
    /// All numbers, each in its range.
    Within(Values),
}

// What the fields of a line are, as numbers.
#[derive(Clone, Copy)]
enum FieldCheck {
    No,
    Out(u8),
    Within,
}

/// Returns the greatest value of a field, given the numbers of the problem line.
#[inline(always)]
pub(crate) fn greatest(most: Top, ranges: &Ranges, problem: &Values) -> u64
    ensures { result ≡ top ranges.now problem.now most }
{
    match most {
        Top::Number(n) => n,
        Top::Vertex => ranges.vertex,
        Top::Dist => ranges.dist,
        Top::Problem(place) => problem.get(place),
    }
}

impl Numbers {
    ghost use Rattle.sp_text.specs.Matching.{front_of};

    /// Returns the first number that was read, or 0.
    pub(crate) fn first(&self) -> u64
        ensures { result ≡ slice_index (front_of self.now) 0 }
    {
        match self {
            Numbers::Out(_, values) | Numbers::Within(values) => values.get(0),
        }
    }
}

// Returns the first field as a number, and the text after it.
fn next_number(text: &[u8], least: u64, most: u64) -> Option<(Numeral, &[u8])>
    ensures { MatchOption result (fields_from [] text.now ≡ [])
        (λ x. (field : List ℕ) × (fields_from [] text.now ≡ field ∷ fields_from [] x.1.now)
        × (x.0 ≡ numeral field least most)) }
{
    let (field, rest) = next_field(text)?;
    Some((number(field, least, most), rest))
}

// Returns whether the fields of the text are numbers, one for each of these, and nothing else.
fn are_numbers(fields: &[Field], text: &[u8]) -> bool
    ensures { MatchBool result
        ((ns : List ℕ) × (numbers fields.now (fields_from [] text.now) ≡ Some ns))
        (numbers fields.now (fields_from [] text.now) ≡ None) }
{
    let [_, more @ ..] = fields else {
        return next_field(text).is_none();
    };
    let Some((field, rest)) = next_field(text) else {
        return false;
    };
    if !spells_number(field) {
        return false;
    }
    are_numbers(more, rest)
}

// Returns the number of the first field and the text after it; or what the line is, if the field is no number or out of
// its range. The fields `more` follow this one.
#[inline(always)]
fn take_number<'a>(
    field: &Field,
    more: &[Field],
    ranges: &Ranges,
    problem: &Values,
    text: &'a [u8],
) -> Result<(u64, &'a [u8]), FieldCheck>
    ensures { NumberTaken ranges.now problem.now field.now more.now
        (numbers (field.now ∷ more.now) (fields_from [] text.now)) result }
{
    let most = greatest(field.most, ranges, problem);
    let Some((numeral, rest)) = next_number(text, field.least, most) else {
        return Err(FieldCheck::No);
    };
    match numeral {
        Numeral::Bad => Err(FieldCheck::No),
        Numeral::Out => {
            if are_numbers(more, rest) {
                return Err(FieldCheck::Out(field.letter));
            }
            Err(FieldCheck::No)
        }
        Numeral::Value(n) => Ok((n, rest)),
    }
}

// Returns what a line is if no more fields are expected and this text remains.
#[inline(always)]
fn end_numbers(text: &[u8]) -> FieldCheck
    ensures { (ranges : Ranges) (ps values : List ℕ)
        → Spells ranges ps [] (numbers [] (fields_from [] text.now)) values values result }
{
    if next_field(text).is_none() {
        FieldCheck::Within
    } else {
        FieldCheck::No
    }
}

// Appends the numbers of the line to the values, one for each field, with nothing else on the line.
#[inline(always)]
fn take_numbers(
    fields: &[Field],
    ranges: &Ranges,
    problem: &Values,
    text: &[u8],
    values: &mut Values,
) -> FieldCheck
    requires { length values.old + length fields.now ≤ 4 }
    ensures { Spells ranges.now problem.now fields.now
        (numbers fields.now (fields_from [] text.now)) values.old values.new result }
{
    let mut fields = fields;
    let mut rest = text;
    while let [field, more @ ..] = fields {
        match take_number(field, more, ranges, problem, rest) {
            Ok((n, after)) => {
                values.push(n);
                fields = more;
                rest = after;
            }
            Err(spelled) => return spelled,
        }
    }
    end_numbers(rest)
}

// Returns the text after the words, if the line begins with them.
fn after_fields<'a>(words: &[u8], text: &'a [u8]) -> Option<&'a [u8]>
    ensures { (ds : List Field)
        → MatchOption result
        (behind_words (fields_from [] words.now) ds (fields_from [] text.now) ≡ None)
        (λ rest. behind_words (fields_from [] words.now) ds (fields_from [] text.now)
        ≡ numbers ds (fields_from [] rest.now)) }
{
    let mut words = words;
    let mut rest = text;
    while let Some((word, more_words)) = next_field(words) {
        let (field, more) = next_field(rest)?;
        if word != field {
            return None;
        }
        words = more_words;
        rest = more;
    }
    Some(rest)
}

/// Returns whether the first bytes show that the line doesn't begin with the words.
#[inline(always)]
pub(crate) fn begins_otherwise(words: &[u8], text: &[u8]) -> bool
    ensures { result ≡ true → (ds : List Field)
        → behind_words (fields_from [] words.now) ds (fields_from [] text.now) ≡ None }
{
    match words {
        [first, ..] => starts_otherwise(words, b' ') && starts_otherwise(text, *first),
        [] => false,
    }
}

/// Returns the text after a letter, if the words are that letter alone and the line begins with it.
#[inline(always)]
pub(crate) fn after_letter<'a>(words: &[u8], text: &'a [u8]) -> Option<&'a [u8]>
    ensures letter { IfSome result (λ rest. IsLetter words.now text.now rest.now) }
    ensures rest { IfSome result (λ rest. rest.now ≡ drop 1 text.now) }
{
    let [letter] = words else {
        return None;
    };
    let [first, rest @ ..] = text else {
        return None;
    };
    if first != letter || parts_fields(*first) {
        return None;
    }
    Some(rest)
}

/// Returns the numbers that the text spells in the usual way, one for each field. Each number follows one space and is in
/// its range.
#[inline(always)]
pub(crate) fn spaced_numbers(
    fields: &[Field],
    ranges: &Ranges,
    problem: &Values,
    text: &[u8],
) -> Option<Values>
    requires { length fields.now ≤ 4 }
    ensures { IfSome result (AreSpaced ranges.now problem.now fields.now text.now) }
{
    let mut values = Values::new();
    let mut rest = text;
    for (place, field) in fields.iter().enumerate() {
        let [first, digits @ ..] = rest else {
            return None;
        };
        if *first != b' ' {
            return None;
        }
        let (value, end) = front_number(digits)?;
        let most = greatest(field.most, ranges, problem);
        let Numeral::Value(value) = ranged(value, field.least, most) else {
            return None;
        };
        values.put(place, value);
        (_, rest) = digits.split_at(end);
    }
    if rest.is_empty() { Some(values) } else { None }
}

/// Returns the numbers that the front of a text spells in the usual way, one for each field, and the position where they
/// end, among the first 32 bytes. Each number follows one space, is in its range and has at most eight digits.
#[inline(always)]
pub(crate) fn front_numbers(
    fields: &[Field],
    ranges: &Ranges,
    problem: &Values,
    text: &[u8],
) -> Option<(Values, usize)>
    requires { length fields.now ≤ 4 }
    ensures { IfSome result (λ x. AreInFront ranges.now problem.now fields.now text.now x.0 x.1) }
{
    if text.len() <= ROOM {
        return None;
    }
    let (_, digits) = text.split_at(1);
    let others = other_bytes(digits);
    let mut values = Values::new();
    let mut end = 0;
    for (place, field) in fields.iter().enumerate() {
        if field.least > 1 || text[end] != b' ' {
            return None;
        }
        let (value, count) = number_at(digits, others, end)?;
        if value > greatest(field.most, ranges, problem) {
            return None;
        }
        values.put(place, value);
        end += 1 + count;
    }
    Some((values, end))
}

/// Returns the numbers of a line of this form, given those of the problem line.
#[inline(always)]
#[tactic(auto, unfolding(crate::specs::Text::of_form))]
pub(crate) fn match_form(
    form: &Form,
    ranges: &Ranges,
    problem: &Values,
    text: &[u8],
) -> Option<Numbers>
    requires { length form.now.fields.now ≤ 4 }
    ensures { Matched ranges.now problem.now form.now.fields.now
        (of_form (form_of form.now) (fields_from [] text.now)) result }
{
    if begins_otherwise(form.words, text) {
        return None;
    }
    let rest = after_fields(form.words, text)?;
    let mut values = Values::new();
    match take_numbers(form.fields, ranges, problem, rest, &mut values) {
        FieldCheck::No => None,
        FieldCheck::Out(letter) => Some(Numbers::Out(letter, values)),
        FieldCheck::Within => Some(Numbers::Within(values)),
    }
}
