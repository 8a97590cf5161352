//! Advice about a line that a reader refused.
use crate::faults::FileKind;
use crate::layout::PredBits;
use std::fmt;

/// Advice about a line that a reader refused. It displays without a line end.
#[derive(Clone, Copy, Debug)]
pub enum Advice<'a> {
    /// Comments begin differently.
    Comment,
    /// A file of this kind has no comments.
    NoComments(FileKind),
    /// The line belongs to a file of another kind than the command wants.
    OtherFile {
        command: &'a str,
        found: FileKind,
        wanted: FileKind,
    },
    /// The file has no problem line, or not at its start.
    NoProblem(FileKind),
    /// The lines that a file of this kind has.
    Lines(FileKind),
    /// The meaning of the number of arcs, of sources or of pairs.
    Count(FileKind),
    /// The greatest number of bytes of a line.
    LongLine,
    /// A vertex is numbered from 1, up to this number if it is known.
    Vertex(Option<u64>),
    /// Vertices may be numbered from 0.
    FromZero,
    /// A length is a whole number in range.
    Length,
    /// Lengths may have fractions.
    FractionOfLength,
    /// The spelling of a number.
    Spelling,
    /// A field is a number in a range, from `first` to `last`.
    Range {
        field: u8,
        first: u64,
        last: u64,
    },
    /// The vertex of each line of a tree is greater than the one before.
    Rising,
    /// The number in the last line of a tree.
    Rows,
    /// The file of trees has several blocks.
    Blocks,
    /// The file of a tree ends too early.
    CutTree,
    /// A source was too far for its layout. The value is a layout that reaches farther, if there is one.
    TooFar(Option<PredBits>),
    /// The greatest numbers of arcs.
    Arcs,
    /// The file begins with the byte of a packed graph, but isn't one.
    NoPackedGraph,
    /// The second word isn't that of a packed graph.
    OtherForm,
    /// A packed graph was cut or changed.
    Changed,
    /// A packed graph was given in place of a file of this kind.
    Packed(FileKind),
}

impl fmt::Display for Advice<'_> {
    fn fmt<W: fmt::Write>(&self, f: &mut fmt::Formatter<W>) -> fmt::Result {
        match self {
            Advice::OtherFile {
                command,
                found,
                wanted,
            } => write!(
                f,
                "a line of {}, but {} is expected; see spt {command} --help",
                of_kind(*found),
                of_kind(*wanted)
            ),
            Advice::NoComments(file) => write!(f, "{} has no comments", of_kind(*file)),
            Advice::NoProblem(file) => {
                write!(f, "no {} line; {}", problem(*file), LinesOfKind(*file))
            }
            Advice::Lines(file) => write!(f, "{}", LinesOfKind(*file)),
            Advice::Vertex(Some(last)) => write!(f, "vertices are numbered from 1 to {last}"),
            Advice::Range { field, first, last } => {
                write!(
                    f,
                    "{} is a number from {first} to {last}",
                    char::from(*field)
                )
            }
            Advice::TooFar(Some(pred_bits)) => {
                write!(f, "{TOO_FAR}; --pred-bits {pred_bits} reaches farther")
            }
            Advice::TooFar(None) => write!(f, "{TOO_FAR}; no layout reaches farther"),
            Advice::Packed(file) => write!(
                f,
                "{}, but {} is expected",
                packed(*file),
                of_kind(*file)
            ),
            other => f.write_str(other.words()),
        }
    }
}

const TOO_FAR: &str = "an x line: a vertex was too far from its source";

impl Advice<'_> {
    // Returns the words of advice that has no parameters to show.
    fn words(&self) -> &'static str {
        match self {
            Advice::Comment => "comments begin with `c` and a blank",
            Advice::Count(file) => count(*file),
            Advice::LongLine => "a line has at most 1024 bytes, and ends with an LF",
            Advice::FromZero => {
                "vertices are numbered from 1; if yours start at 0, add 1 to each"
            }
            Advice::Length => "lengths are whole numbers from 1 to 4294967295",
            Advice::FractionOfLength => {
                "lengths are whole numbers from 1 to 4294967295; multiply them all, for example by 1000"
            }
            Advice::Spelling => {
                "numbers consist of digits only: no sign, no decimal point, no leading 0"
            }
            Advice::Rising => "V is from 1 to N, and greater than V of the `v` line before",
            Advice::Rows => "R in the line `e R` must be the number of `v` lines",
            Advice::Blocks => "the file has several blocks; use --all",
            Advice::CutTree => "the file ends before the line `e R`: it is incomplete",
            Advice::Arcs => "M is a number from 0 to 1073741824; with --both-ways, to 536870912",
            Advice::NoPackedGraph => {
                "no packed graph of spt; other binary files begin with the same byte, such as a PNG"
            }
            Advice::OtherForm => {
                "changed by a transfer in text mode, or of a newer form; copy it again in binary mode, or pack it again by spt pack"
            }
            Advice::Changed => {
                "the packed graph was cut or changed; copy it again, or pack it again by spt pack"
            }
            _ => "vertices are numbered from 1 to N, given in the line `p`",
        }
    }
}

// Returns what a file is, for a sentence.
fn of_kind(file: FileKind) -> &'static str {
    match file {
        FileKind::Graph => "a .gr file",
        FileKind::Sources | FileKind::Targets => "a .ss file",
        FileKind::Pairs => "a file of pairs",
        FileKind::Tree => "a tree file",
        FileKind::Replay => "a replay file",
        FileKind::Offers => "a file of offers",
    }
}

// Returns what is said of a packed graph in the place of a file. Two commands have no graph.
fn packed(file: FileKind) -> &'static str {
    match file {
        FileKind::Replay | FileKind::Offers => "a packed graph",
        _ => "a packed graph, which goes in the place of GR",
    }
}

// Returns the problem line of a file.
fn problem(file: FileKind) -> &'static str {
    match file {
        FileKind::Graph => "`p sp N M`",
        FileKind::Sources | FileKind::Targets => "`p aux sp ss K`",
        FileKind::Pairs => "`p pairs K`",
        FileKind::Tree => "`p spt N S`",
        FileKind::Replay => "`p rep N K`",
        FileKind::Offers => "`p off N K`",
    }
}

// Returns what the number of counted lines of a file must equal, or how many there may be.
fn count(file: FileKind) -> &'static str {
    match file {
        FileKind::Graph => "M in the line `p sp N M` must be the number of `a` lines",
        FileKind::Sources | FileKind::Targets => {
            "K in the line `p aux sp ss K` must be the number of `s` lines"
        }
        FileKind::Pairs => "K in the line `p pairs K` must be the number of `q` lines",
        FileKind::Replay => "a replay file has at most 1048576 calls and 16777216 steps",
        FileKind::Offers => "a file of offers has at most 1048576 offers",
        FileKind::Tree => "the file has too many lines",
    }
}

/// The lines of a file of a kind, as a sentence names them.
#[derive(Clone, Copy)]
struct LinesOfKind(FileKind);

impl fmt::Display for LinesOfKind {
    fn fmt<W: fmt::Write>(&self, f: &mut fmt::Formatter<W>) -> fmt::Result {
        let LinesOfKind(file) = *self;
        let rest = match file {
            FileKind::Graph => "and `a U V W` for each of its M arcs",
            FileKind::Sources => "and `s V` for each of its K sources",
            FileKind::Targets => "and `s V` for each of its K targets",
            FileKind::Pairs => "and `q S T` for each of its K pairs",
            FileKind::Tree => "`v V D P` for each vertex, and `e R`, separated by one space",
            FileKind::Replay => "and lines i, o, r, a and s: see spt replay --help",
            FileKind::Offers => "and `o A V D P` for each offer",
        };
        write!(f, "{} has one {}, {rest}", of_kind(file), problem(file))
    }
}
