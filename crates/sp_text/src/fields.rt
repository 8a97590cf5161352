//! The fields of a line.
ghost use Rattle.std.specs.Prelude.{◌≡◌, ℕ, ◌<◌, ◌≤◌, Bool, true, not, List, [], ◌∷◌, length, slice_index, MatchOption};
ghost use Rattle.sp_text.specs.Lines.{is_blank, without_cr, fields_from, StartsOtherwise};

/// Returns whether the byte is a blank.
#[inline(always)]
pub(crate) fn parts_fields(byte: u8) -> bool
    ensures { result ≡ is_blank byte }
{
    byte == b' ' || byte == b'\t'
}

// Counts the leading bytes that are blanks, or those that are not.
#[inline(always)]
fn run(text: &[u8], blanks: bool) -> usize
    ensures within { result ≤ length text.now }
    ensures before { (k : ℕ) → k < result → is_blank (slice_index text.now k) ≡ blanks }
    ensures end { result < length text.now → is_blank (slice_index text.now result) ≡ not blanks }
{
    for (i, byte) in text.iter().enumerate() {
        if parts_fields(*byte) != blanks {
            return i;
        }
    }
    text.len()
}

/// Returns a line without its final CR.
#[inline(always)]
pub(crate) fn drop_cr(line: &[u8]) -> &[u8]
    ensures { result.now ≡ without_cr line.now }
{
    match line {
        [front @ .., b'\r'] => front,
        _ => line,
    }
}

/// Returns the text without its leading blanks.
#[inline(always)]
pub(crate) fn skip_blanks(text: &[u8]) -> &[u8]
    ensures { fields_from [] result.now ≡ fields_from [] text.now }
{
    let (_, rest) = text.split_at(run(text, true));
    rest
}

/// Returns the first field, and the text after it.
pub(crate) fn next_field(text: &[u8]) -> Option<(&[u8], &[u8])>
    ensures { MatchOption result (fields_from [] text.now ≡ [])
        (λ x. (fields_from [] text.now ≡ x.0.now ∷ fields_from [] x.1.now)
        × (length x.1.now < length text.now)) }
{
    let (_, rest) = text.split_at(run(text, true));
    if rest.is_empty() {
        return None;
    }
    let (field, after) = rest.split_at(run(rest, false));
    Some((field, after))
}

/// Returns whether the first byte of the text shows that the first field begins with a byte other than this one.
#[inline(always)]
pub(crate) fn starts_otherwise(text: &[u8], byte: u8) -> bool
    ensures { result ≡ true → StartsOtherwise text.now byte }
{
    match text {
        [first, ..] => *first != byte && !parts_fields(*first),
        [] => false,
    }
}
