//! The second lines of error messages: the system's reason, or advice.
use crate::advice::Advice;
use crate::command::Commands;
use crate::faults::{Fault, FileKind};
use crate::inputs::Inputs;
use crate::layout::PredBits;
use crate::names::{Quoted, Shown};
use sp_packed::{PackedFault, PackedField, PackedKind};
use sp_text::Kind;
use std::{fmt, io};

/// The encoding of a file that isn't plain text.
#[derive(Clone, Copy, Debug, PartialEq, Eq)]
pub enum Encoding {
    Gzip,
    Bzip2,
    Xz,
    Zstd,
    Zip,
    /// Text that begins with a byte order mark.
    Marked,
    Utf16,
}

impl Encoding {
    /// Returns the encoding of a file that begins with these bytes, if it is one of the above.
    pub fn of(beginning: &[u8]) -> Option<Encoding> {
        match beginning {
            [0x1f, 0x8b, ..] => Some(Encoding::Gzip),
            [b'B', b'Z', b'h', ..] => Some(Encoding::Bzip2),
            [0xfd, b'7', b'z', b'X', b'Z', 0, ..] => Some(Encoding::Xz),
            [0x28, 0xb5, 0x2f, 0xfd, ..] => Some(Encoding::Zstd),
            [b'P', b'K', 3, 4, ..] => Some(Encoding::Zip),
            [0xef, 0xbb, 0xbf, ..] => Some(Encoding::Marked),
            [0xff, 0xfe, ..] | [0xfe, 0xff, ..] => Some(Encoding::Utf16),
            _ => None,
        }
    }

    // Returns the program that turns such a file into plain text.
    fn tool(self) -> &'static str {
        match self {
            Encoding::Gzip => "zcat",
            Encoding::Bzip2 => "bzcat",
            Encoding::Xz => "xzcat",
            Encoding::Zstd => "zstdcat",
            Encoding::Zip => "funzip",
            Encoding::Marked => "tail -c +4",
            Encoding::Utf16 => "iconv -f UTF-16 -t UTF-8",
        }
    }
}

impl fmt::Display for Encoding {
    fn fmt<W: fmt::Write>(&self, f: &mut fmt::Formatter<W>) -> fmt::Result {
        f.write_str(match self {
            Encoding::Gzip => "compressed with gzip",
            Encoding::Bzip2 => "compressed with bzip2",
            Encoding::Xz => "compressed with xz",
            Encoding::Zstd => "compressed with zstd",
            Encoding::Zip => "compressed with zip",
            Encoding::Marked => "begins with a byte order mark",
            Encoding::Utf16 => "text in UTF-16",
        })
    }
}

/// What is wrong with the places of sources on a command line.
#[derive(Clone, Copy, Debug, PartialEq, Eq)]
pub enum PlacesFault {
    /// They are not two numbers.
    Spelling,
    /// The first place is 0.
    FromZero,
    /// The last place is before the first.
    Backwards,
}

impl fmt::Display for PlacesFault {
    fn fmt<W: fmt::Write>(&self, f: &mut fmt::Formatter<W>) -> fmt::Result {
        f.write_str(match self {
            PlacesFault::Spelling => "give two numbers with a `-` between them, as in 1-100",
            PlacesFault::FromZero => "places are counted from 1",
            PlacesFault::Backwards => "the last place is before the first",
        })
    }
}

/// Where the command was given a number that isn't a vertex of the graph.
#[derive(Clone, Copy, Debug)]
pub enum Naming<'a> {
    /// In an option, such as `--source`.
    Option(&'a str),
    /// On a line of a file, as a source.
    Source { path: &'a str, line: u64 },
    /// On a line of a file, as a target.
    Target { path: &'a str, line: u64 },
    /// In a file that can't be read again, as a source.
    Unseen,
    /// In a file that can't be read again, as a target.
    UnseenTarget,
}

const ONCE: &str = "only one file can be standard input; give the other by its path";

const STEPS: &str = "a picture shows at most 60 steps; without --svg the report has them all";

const TERMINAL: &str = "a packed graph is no text; give a file with -o";

/// The second line of an error message. It displays with its line end.
#[derive(Clone, Copy, Debug)]
pub enum Hint<'a> {
    /// The system's reason for a failure to open, read or write.
    Reason {
        name: &'a str,
        reason: io::Error,
    },
    /// The program that turns a command's file into plain text, and the place of that file in the command's words.
    Encoding {
        command: &'a str,
        place: &'a str,
        path: &'a str,
        encoding: Encoding,
    },
    /// The layout for a graph with this many vertices.
    Layout {
        path: &'a str,
        vertices: u64,
        pred_bits: PredBits,
    },
    /// Advice about a line, or a word, of the file with this path.
    Advice {
        path: &'a str,
        advice: Advice<'a>,
    },
    /// Where the command was given a number that isn't a vertex; and the number of vertices, if it can be found.
    Vertex {
        naming: Naming<'a>,
        vertex: u32,
        vertices: Option<u64>,
    },
    /// What is wrong with the word for places of sources.
    Places {
        word: &'a str,
        why: PlacesFault,
    },
    /// The range of delta for a layout.
    Delta(PredBits),
    /// The range of delta in general.
    AnyDelta,
    /// The range of the limit for a layout.
    Limit(PredBits),
    /// The range of the limit in general.
    AnyLimit,
    /// The output would go to an input file, which has this path.
    SameFile {
        file: FileKind,
        path: &'a str,
    },
    /// What to do if there isn't enough memory for this command.
    Memory(&'a str),
    /// Advice of these words.
    Words(&'a str),
    /// The commands that have an option.
    OfCommands {
        option: &'a str,
        commands: &'a str,
    },
    /// What can be given instead of a file of sources.
    NoSources,
    /// A width that works if nothing else is known.
    NoDelta,
    /// How to give a source or a target by its number: what the number is, and its option.
    NoVertex {
        what: &'a str,
        option: &'a str,
    },
    /// A number was given in place of a file, and the system can't open it: the option that takes such a number.
    NumberAsFile {
        number: &'a str,
        option: &'a str,
        reason: io::Error,
    },
}

impl fmt::Display for Hint<'_> {
    fn fmt<W: fmt::Write>(&self, f: &mut fmt::Formatter<W>) -> fmt::Result {
        f.write_str("spt: ")?;
        match self {
            Hint::Reason { name, reason } => write!(f, "{}: {reason}", Shown(name))?,
            Hint::Encoding {
                command,
                place,
                path,
                encoding,
            } => write_encoding(f, command, place, path, *encoding)?,
            Hint::Layout {
                path,
                vertices,
                pred_bits,
            } => write!(
                f,
                "{}: {vertices} vertices; use --pred-bits {pred_bits}",
                Shown(path)
            )?,
            Hint::Advice { path, advice } => write!(f, "{}: {advice}", Shown(name_of(path)))?,
            Hint::Vertex {
                naming,
                vertex,
                vertices,
            } => write_vertex(f, *naming, *vertex, *vertices)?,
            Hint::Places { word, why } => write!(f, "--sources {}: {why}", Shown(word))?,
            Hint::Delta(pred_bits) => {
                let most = pred_bits.max_dist();
                write!(
                    f,
                    "delta is from 1 to {most} with --pred-bits {pred_bits}, or mean"
                )?;
                write_farthest(f, *pred_bits)?;
            }
            Hint::AnyDelta => {
                let most = PredBits::Bits20.max_dist();
                write!(f, "D is a whole number from 1 to {most}, or mean")?;
            }
            Hint::Limit(pred_bits) => {
                let most = pred_bits.max_dist();
                write!(
                    f,
                    "the limit is from 0 to {most} with --pred-bits {pred_bits}"
                )?;
                write_farthest(f, *pred_bits)?;
            }
            Hint::AnyLimit => {
                let most = PredBits::Bits20.max_dist();
                write!(f, "L is a whole number from 0 to {most}")?;
            }
            Hint::SameFile { file, path } => write!(
                f,
                "-o names {}, {}; name another file",
                role_of(*file),
                Shown(name_of(path))
            )?,
            Hint::Memory(command) => write_memory(f, command)?,
            Hint::Words(words) => f.write_str(words)?,
            Hint::OfCommands { option, commands } => {
                write!(f, "{option} is an option of {commands}")?;
            }
            Hint::NoSources => f.write_str(
                "give the sources in a file SS, or each with --source V",
            )?,
            Hint::NoDelta => f.write_str("use --delta mean if you know no better width")?,
            Hint::NoVertex { what, option } => {
                write!(
                    f,
                    "a {what} is a number from 1 to N; give each its own {option}"
                )?;
            }
            Hint::NumberAsFile {
                number,
                option,
                reason,
            } => write!(
                f,
                "{number}: {reason}; for vertex {number} use {option} {number}"
            )?,
        }
        f.write_str("\n")
    }
}

// Writes the layout with the greatest distances, unless it is this one.
fn write_farthest<W: fmt::Write>(f: &mut fmt::Formatter<W>, pred_bits: PredBits) -> fmt::Result {
    if pred_bits == PredBits::Bits20 {
        return Ok(());
    }
    let farthest = PredBits::Bits20;
    write!(
        f,
        "; --pred-bits {farthest} allows up to {}",
        farthest.max_dist()
    )
}

// Writes what to do if there isn't enough memory. With several sources, `tree` and `matrix` need some for each worker.
fn write_memory<W: fmt::Write>(f: &mut fmt::Formatter<W>, command: &str) -> fmt::Result {
    f.write_str("there is too little free memory")?;
    match command {
        "tree" | "matrix" => f.write_str("; with several sources, fewer --workers need less"),
        "pairs" | "nearest" | "check" => {
            write!(f, "; spt {command} --help says how much is needed")
        }
        _ => f.write_str(" for this file"),
    }
}

// Returns what a file is for its command.
fn role_of(file: FileKind) -> &'static str {
    match file {
        FileKind::Graph => "the graph",
        FileKind::Sources => "the file of sources",
        FileKind::Targets => "the file of targets",
        FileKind::Pairs => "the file of pairs",
        FileKind::Tree => "the tree file",
        FileKind::Replay => "the replay file",
        FileKind::Offers => "the file of offers",
    }
}

// Writes the encoding of a file, and a command that reads it as plain text. The command names the path only if a
// terminal can show all of it.
fn write_encoding<W: fmt::Write>(
    f: &mut fmt::Formatter<W>,
    command: &str,
    place: &str,
    path: &str,
    encoding: Encoding,
) -> fmt::Result {
    let tool = encoding.tool();
    write!(f, "{}: {encoding}; use {tool}", Shown(name_of(path)))?;
    if path != "-"
        && let Some(word) = Quoted::new(path)
    {
        write!(f, " {word}")?;
    }
    write!(f, " | spt {command} {place}")
}

fn write_vertex<W: fmt::Write>(
    f: &mut fmt::Formatter<W>,
    naming: Naming<'_>,
    vertex: u32,
    vertices: Option<u64>,
) -> fmt::Result {
    match naming {
        Naming::Option(option) => write!(f, "{option} {vertex}: ")?,
        Naming::Source { path, line } => {
            write!(f, "{}: line {line}: source {vertex}; ", Shown(path))?;
        }
        Naming::Target { path, line } => {
            write!(f, "{}: line {line}: target {vertex}; ", Shown(path))?;
        }
        Naming::Unseen => {}
        Naming::UnseenTarget => write!(f, "target {vertex}: ")?,
    }
    match vertices {
        Some(count) => write!(f, "the graph has {count} vertices"),
        None => f.write_str("vertices are numbered from 1 to N, given in the line `p sp N M`"),
    }
}

// Returns the name that an error message uses for the file with this path.
fn name_of(path: &str) -> &str {
    if path == "-" { "standard input" } else { path }
}

/// Returns the second line for a command's fault, if there is one that can be found without reading a file. The output
/// goes to the file with this path, if there is one.
pub fn hint_of<'a, C: Commands<'a>, F: Inputs>(
    fault: &Fault,
    command: &C,
    output: Option<&'a str>,
    files: &F,
) -> Option<Hint<'a>> {
    match fault {
        Fault::CannotOpen(file) => opening_hint(*file, command.path(*file)?, files),
        Fault::Input { file, error } => input_hint(*file, error.kind, command, files),
        Fault::Packed(error) => packed_hint(*error, command, files),
        Fault::WriteFailed | Fault::CannotWrite => output_hint(output, files),
        Fault::InputTwice => Some(Hint::Words(ONCE)),
        Fault::OutputIsInput(file) => Some(Hint::SameFile {
            file: *file,
            path: command.path(*file)?,
        }),
        Fault::TooManySteps => Some(Hint::Words(STEPS)),
        Fault::ToTerminal => Some(Hint::Words(TERMINAL)),
        Fault::Memory => Some(Hint::Memory(command.name())),
        _ => None,
    }
}

/// Returns the system's reason for a failure of the output. The output goes to the file with this path, if there is
/// one.
pub fn output_hint<'a, F: Inputs>(output: Option<&'a str>, files: &F) -> Option<Hint<'a>> {
    reason_of(output.unwrap_or("standard output"), files)
}

fn input_hint<'a, C: Commands<'a>, F: Inputs>(
    file: FileKind,
    kind: Kind,
    command: &C,
    files: &F,
) -> Option<Hint<'a>> {
    let path = command.path(file)?;
    match kind {
        Kind::Memory => Some(Hint::Memory(command.name())),
        Kind::Read => reason_of(name_of(path), files),
        _ => Some(Hint::Encoding {
            command: command.name(),
            place: place_of(file, command),
            path,
            encoding: files.encoding()?,
        }),
    }
}

// Returns the system's reason for failing to read a packed graph, or advice about its words.
fn packed_hint<'a, C: Commands<'a>, F: Inputs>(
    error: PackedFault,
    command: &C,
    files: &F,
) -> Option<Hint<'a>> {
    let path = command.path(FileKind::Graph)?;
    let advice = match error.kind {
        PackedKind::OutOfRange(PackedField::Vertices) => return None,
        PackedKind::Memory => return Some(Hint::Memory(command.name())),
        PackedKind::Read => return reason_of(name_of(path), files),
        PackedKind::OutOfRange(PackedField::Arcs) => Advice::Arcs,
        PackedKind::OtherForm if error.at == 0 => Advice::NoPackedGraph,
        PackedKind::OtherForm => Advice::OtherForm,
        _ => Advice::Changed,
    };
    Some(Hint::Advice { path, advice })
}

// Returns the system's reason for failing to open a file, or the option for a number that was given in place of a list.
fn opening_hint<'a, F: Inputs>(file: FileKind, path: &'a str, files: &F) -> Option<Hint<'a>> {
    let reason = files.reason()?;
    match option_for(file) {
        Some(option) if path.parse::<u32>().is_ok() => Some(Hint::NumberAsFile {
            number: path,
            option,
            reason,
        }),
        _ => Some(Hint::Reason { name: path, reason }),
    }
}

/// Returns the option that gives a member of such a list by its number on the command line, if there is one.
pub fn option_for<'a>(list: FileKind) -> Option<&'a str> {
    match list {
        FileKind::Sources => Some("--source"),
        FileKind::Targets => Some("--target"),
        _ => None,
    }
}

// Returns where standard input appears in the words of a command if it is its file of this kind.
fn place_of<'a, C: Commands<'a>>(file: FileKind, command: &C) -> &'a str {
    match file {
        FileKind::Sources if command.path(FileKind::Targets).is_some() => ".. - ..",
        _ => file.place(),
    }
}

fn reason_of<'a, F: Inputs>(name: &'a str, files: &F) -> Option<Hint<'a>> {
    let reason = files.reason()?;
    Some(Hint::Reason { name, reason })
}
