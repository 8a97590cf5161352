//! Why a text is not a packed graph.
ghost use Rattle.std.specs.Prelude.{◌≡◌, ◌*◌, ◌<◌, ◌^◌, true, false};

use thiserror::Error;

/// A field of a packed graph, with its letter.
#[derive(Clone, Copy, Debug, PartialEq, Eq, Error)]
pub enum PackedField {
    /// The number of vertices.
    #[error("N")]
    Vertices,
    /// The number of arcs.
    #[error("M")]
    Arcs,
    /// Where a row ends.
    #[error("E")]
    End,
    /// The head of an arc.
    #[error("V")]
    Head,
    /// The length of an arc.
    #[error("W")]
    Length,
}

/// What is wrong with a word.
#[derive(Clone, Copy, Debug, PartialEq, Eq, Error)]
pub enum PackedKind {
    /// The file doesn't begin like a packed graph of this form.
    #[error("10 OtherForm")]
    OtherForm,
    /// The field is out of its range, or below the one before it.
    #[error("5 OutOfRange {0}")]
    OutOfRange(PackedField),
    /// The sum doesn't match.
    #[error("11 OtherSum")]
    OtherSum,
    /// Bytes follow the sum.
    #[error("6 TooMany")]
    TooMany,
    /// The file ends before this word or within it.
    #[error("7 TooFew")]
    TooFew,
    /// There was no memory for this word.
    #[error("8 Memory")]
    Memory,
    /// The device failed before all of this word came.
    #[error("9 Read")]
    Read,
}

/// The first fault of a packed graph. `Display` is for users of this library, and no contract states its text.
#[derive(Clone, Copy, Debug, PartialEq, Eq, Error)]
#[error("byte {at}: {kind}")]
pub struct PackedFault {
    /// The number of bytes before the word.
    pub at: u64,
    pub kind: PackedKind,
}

impl PackedFault {
    // Returns the fault of the word that `words` words precede.
    pub(crate) fn behind(words: u64, kind: PackedKind) -> Self
        requires { words < 2 ^ 60 }
        ensures at { result.at ≡ 4 * words }
        ensures kind { result.kind ≡ kind }
    {
        PackedFault {
            at: 4 * words,
            kind,
        }
    }

    // Returns the fault of the word that `words` words precede, if no more words came whole.
    pub(crate) fn cut(words: u64, failed: bool) -> Self
        requires { words < 2 ^ 60 }
        ensures at { result.at ≡ 4 * words }
        ensures few { failed ≡ false → result.kind ≡ PackedKind.TooFew }
        ensures read { failed ≡ true → result.kind ≡ PackedKind.Read }
    {
        let kind = if failed {
            PackedKind::Read
        } else {
            PackedKind::TooFew
        };
        PackedFault::behind(words, kind)
    }
}
