//! Reads what a line is.
ghost use Rattle.std.specs.Prelude.{◌≡◌, [], IfSome};
ghost use Rattle.sp_text.specs.Lines.{fields_from};
ghost use Rattle.sp_text.specs.Formats.{format_of, IsSmall};
ghost use Rattle.sp_text.specs.Text.{is_comment, reading};
ghost use Rattle.sp_text.specs.Matching.{IsContent, IsUsualItem, IsFrontItem};

use crate::fields::{drop_cr, next_field, starts_otherwise};
use crate::formats::{FileFormat, Form, Ranges};
use crate::matching::{
    Numbers, after_letter, begins_otherwise, front_numbers, match_form, spaced_numbers,
};
use crate::rooms::Values;

/// What a line holds.
#[derive(Drop)]
pub enum LineContent {
    Comment,
    Bad,
    Problem(Numbers),
    /// An item: the index of its form, the form, and the numbers.
    Item(usize, &'static Form, Numbers),
}

#[inline(always)]
pub(crate) fn is_remark(text: &[u8]) -> bool
    ensures { result ≡ is_comment (fields_from [] text.now) }
{
    if starts_otherwise(text, b'c') {
        return false;
    }
    match next_field(text) {
        Some((field, _)) => matches!(field, [b'c']),
        None => true,
    }
}

/// Returns the form of a line, with its index and its numbers, if the line is an item in the usual spelling and the
/// numbers are in their ranges.
#[inline(always)]
pub(crate) fn usual_item(
    format: &FileFormat,
    ranges: &Ranges,
    problem: &Values,
    line: &[u8],
) -> Option<(usize, &'static Form, Values)>
    requires { IsSmall format.now }
    ensures { IfSome result
        (IsUsualItem (format_of format.now) ranges.now problem.now
        (reading (format_of format.now) line.now)) }
{
    let text = drop_cr(line);
    let items: &'static [Form] = format.items;
    for (place, form) in items.iter().enumerate() {
        if let Some(rest) = after_letter(form.words, text) {
            if starts_otherwise(text, b'c') && begins_otherwise(format.problem.words, text) {
                let values = spaced_numbers(form.fields, ranges, problem, rest)?;
                return Some((place, form, values));
            }
            return None;
        }
        if !begins_otherwise(form.words, text) {
            return None;
        }
    }
    None
}

/// Returns the form of the line at the front of a text, with its index and its numbers, and the text after the line. The
/// line must be an item of the first form in the usual spelling, with its numbers in their ranges, and all of it must
/// be among the first bytes.
#[inline(always)]
pub(crate) fn front_item<'a>(
    format: &FileFormat,
    ranges: &Ranges,
    problem: &Values,
    text: &'a [u8],
) -> Option<(usize, &'static Form, Values, &'a [u8])>
    requires { IsSmall format.now }
    ensures { IfSome result
        (IsFrontItem (format_of format.now) ranges.now problem.now text.now) }
{
    let items: &'static [Form] = format.items;
    let [form, ..] = items else {
        return None;
    };
    let [first, rest @ ..] = text else {
        return None;
    };
    let (values, end) = front_numbers(form.fields, ranges, problem, rest)?;
    if rest[end] != b'\n' || *first < b' ' {
        return None;
    }
    let (line, _) = text.split_at(end + 1);
    after_letter(form.words, line)?;
    if !starts_otherwise(line, b'c') || !begins_otherwise(format.problem.words, line) {
        return None;
    }
    let (_, more) = text.split_at(end + 2);
    Some((0, form, values, more))
}

/// Returns what a line is, given the numbers of the problem line.
#[inline(never)]
#[tactic(auto, unfolding(crate::specs::Text::reading, crate::specs::Text::reading_of, crate::specs::Lines::fields))]
pub(crate) fn read_line(
    format: &FileFormat,
    ranges: &Ranges,
    problem: &Values,
    line: &[u8],
) -> LineContent
    requires { IsSmall format.now }
    ensures { IsContent (format_of format.now) ranges.now problem.now
        (reading (format_of format.now) line.now) result }
{
    let text = drop_cr(line);
    if is_remark(text) {
        return LineContent::Comment;
    }
    if let Some(numbers) = match_form(&format.problem, ranges, &Values::new(), text) {
        return LineContent::Problem(numbers);
    }
    let items: &'static [Form] = format.items;
    for (place, form) in items.iter().enumerate() {
        if let Some(numbers) = match_form(form, ranges, problem, text) {
            return LineContent::Item(place, form, numbers);
        }
    }
    LineContent::Bad
}
