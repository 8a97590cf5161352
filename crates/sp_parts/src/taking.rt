//! Takes the parts of a text that were read separately, and the text between them.
ghost use Rattle.std.specs.Prelude.{◌≡◌, ◌≤◌, ◌^◌, ℕ, List, [], ◌++◌, Some, All, true, length, take, IfOk, IfErr};
ghost use Rattle.std.specs.Arc.{arc_value};
ghost use Rattle.sp_text.specs.Lines.{ended};
ghost use Rattle.sp_text.specs.Text.{judge, problem_of};
ghost use Rattle.sp_text.specs.Feeding.{IsBehind, Refused};
ghost use Rattle.sp_parts.specs.Parts.{IsPartOf, IsAt, TakesParts, TakesPiece};

use crate::parts::Part;
use crate::pieces::{KeepAcross, Origin, ReadPiece};
use crate::receiving::Group;
use sp_text::{Collector, DimacsError, Feeder, KeepParts, LineTaker};

// Takes the text up to the end of a part, given how many bytes of it are already taken. Returns how many bytes are taken
// afterwards.
fn take_part<K: KeepParts>(
    reader: &mut Feeder<Collector<K>>,
    text: &[u8],
    done: usize,
    part: &Part<K>,
) -> Result<usize, DimacsError>
    requires { done ≤ length text.now }
    ensures within { IfOk result (λ now. now ≤ length text.now) }
    ensures taken { IfOk result (λ now. (front ps : List ℕ)
        → length (front ++ text.now) ≤ 2 ^ 62
        → problem_of K.format (ended front) ≡ Some ps
        → IsPartOf K.format K.ranges K.Kept ps text.now part.now
        → IsBehind (judge K.format K.ranges) ⟦<Collector<K> as LineTaker>⟧.After
        (front ++ take done text.now) reader.old
        → IsBehind (judge K.format K.ranges) ⟦<Collector<K> as LineTaker>⟧.After
        (front ++ take now text.now) reader.new) }
    ensures refused { IfErr result (λ e. (front : List ℕ)
        → length (front ++ text.now) ≤ 2 ^ 62
        → IsBehind (judge K.format K.ranges) ⟦<Collector<K> as LineTaker>⟧.After
        (front ++ take done text.now) reader.old
        → (reader.new.spent ≡ Some e)
        × Refused (judge K.format K.ranges) (ended front) (front ++ text.now) e) }
{
    if part.from < done || text.len() < part.to || part.to < part.from {
        return Ok(done);
    }
    reader.feed_items(&text[done..part.from])?;
    if reader.add_lines(&part.keep, part.lines) {
        Ok(part.to)
    } else {
        Ok(part.from)
    }
}

// Takes a text from which these parts were read.
fn take_parts<K: KeepParts>(
    reader: &mut Feeder<Collector<K>>,
    text: &[u8],
    parts: &[Part<K>],
) -> Result<(), DimacsError>
    ensures { TakesParts text.now parts.now reader.old result reader.new }
{
    let mut done = 0;
    for part in parts {
        done = take_part(reader, text, done, part)?;
    }
    reader.feed_items(&text[done..])
}

// Takes a piece, given what was read from it.
fn take_read<K: KeepAcross, O: Origin>(
    reader: &mut Feeder<Collector<K>>,
    read: &ReadPiece<K, O>,
) -> Result<(), DimacsError>
    ensures { TakesPiece O.problem (arc_value read.now.piece.group)
        reader.old result reader.new }
{
    take_parts(reader, read.piece.group.bytes(), &read.parts)
}

// Returns whether this was read from a piece at this position with the same number of bytes.
fn is_of<K: KeepAcross, O: Origin>(read: &ReadPiece<K, O>, start: u64, group: &Group) -> bool
    ensures place { result ≡ true → read.now.piece.start ≡ start }
    ensures same { result ≡ true → length (arc_value read.now.piece.group) ≡ length group.now }
{
    let count = read.piece.group.bytes().len();
    read.piece.start == start && count == group.bytes().len()
}

/// Takes a piece at this position of the text: by what was read from it, if that belongs to it, and otherwise by itself.
pub(crate) fn take_piece<K: KeepAcross, O: Origin>(
    reader: &mut Feeder<Collector<K>>,
    group: &Group,
    start: u64,
    read: &Option<ReadPiece<K, O>>,
) -> Result<(), DimacsError>
    requires { IsAt O.text start group.now }
    ensures { (bytes : List ℕ) × IsAt O.text start bytes × (length bytes ≡ length group.now)
        × TakesPiece O.problem bytes reader.old result reader.new }
{
    if let Some(read) = read {
        if is_of(read, start, group) {
            return take_read(reader, read);
        }
    }
    reader.feed_items(group.bytes())
}
