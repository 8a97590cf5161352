//! The fields of a line, and the ranges of their numbers.
ghost use Rattle.std.specs.Prelude.{◌≡◌, ◌≤◌, ◌∷◌, [], Option, Some, MatchOption, IfOk, IfErr};
ghost use Rattle.sp_text.specs.declared.faults.Kind.{Kind};
ghost use Rattle.sp_files.specs.Fields.{fields, last_in, HasNoNext, IsNext};
ghost use Rattle.sp_files.specs.Spelling.{in_range};

use sp_text::{Kind, leading_number};

/// Returns the bytes before the first space and, if there is a space, those after it.
pub(crate) fn first_field(text: &[u8]) -> (&[u8], Option<&[u8]>)
    ensures { MatchOption result.1 (fields text.now ≡ result.0.now ∷ [])
        (λ rest. fields text.now ≡ result.0.now ∷ fields rest.now) }
{
    for (end, byte) in text.iter().enumerate() {
        if *byte == b' ' {
            let (field, after) = text.split_at(end);
            let (_, rest) = after.split_at(1);
            return (field, Some(rest));
        }
    }
    (text, None)
}

/// Returns the number of the first field and, if a space follows it, the bytes after that.
pub(crate) fn next_number(text: &[u8]) -> Option<(u64, Option<&[u8]>)>
    ensures { MatchOption result (HasNoNext (fields text.now)) (IsNext (fields text.now)) }
{
    let (number, end) = leading_number(text)?;
    let (_, after) = text.split_at(end);
    let [first, rest @ ..] = after else {
        return Some((number, None));
    };
    if *first != b' ' {
        return None;
    }
    Some((number, Some(rest)))
}

/// Returns the number of a line that has one field.
pub(crate) fn last_number(text: &[u8]) -> Option<u64>
    ensures { result ≡ last_in (fields text.now) }
{
    match next_number(text)? {
        (number, None) => Some(number),
        _ => None,
    }
}

/// Returns `Ok` if a number is in its range, and otherwise the fault with the letter of its field.
pub(crate) fn in_range(letter: u8, least: u64, most: u64, n: u64) -> Result<(), Kind>
    ensures within { IfOk result (λ u. (least ≤ n) × (n ≤ most)) }
    ensures told { IfErr result
        (λ kind. (later : Option Kind) → in_range letter least most n later ≡ Some kind) }
{
    if least <= n && n <= most {
        Ok(())
    } else {
        Err(Kind::OutOfRange(letter))
    }
}
