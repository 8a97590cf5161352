//! The faults of a text.
use thiserror::Error;

/// The fault of a line. Of several faults of one line, the one with the lowest number is reported.
///
/// `Display` is for users of this library, and no contract states its text. The program `spt` doesn't use it: `sp_command`
/// writes the line that reports a fault, and its contracts give the bytes.
#[derive(Clone, Copy, Debug, PartialEq, Eq, Error)]
pub enum Kind {
    /// The line has more bytes than a line may have.
    #[error("1 LongLine")]
    LongLine,
    /// The line is neither a comment nor a line of one of the file's forms.
    #[error("2 BadLine")]
    BadLine,
    /// A line comes before the problem line, or there is no problem line.
    #[error("3 NoProblem")]
    NoProblem,
    /// The line is a second problem line.
    #[error("4 SecondProblem")]
    SecondProblem,
    /// The number of the field with this letter is out of its range.
    #[error("5 OutOfRange {}", char::from(*.0))]
    OutOfRange(u8),
    /// There are more lines than are allowed.
    #[error("6 TooMany")]
    TooMany,
    /// There are fewer lines than were announced.
    #[error("7 TooFew")]
    TooFew,
    /// An allocation failed: there was no memory for the value of this line.
    #[error("8 Memory")]
    Memory,
    /// The device failed.
    #[error("9 Read")]
    Read,
}

/// The first fault of a text. As with `Kind`, `Display` is for users of this library.
#[derive(Clone, Copy, Debug, PartialEq, Eq, Error)]
#[error("line {line}: {kind}")]
pub struct DimacsError {
    /// The number of the line, from 1.
    pub line: u64,
    pub kind: Kind,
}
