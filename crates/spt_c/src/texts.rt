//! The text of a `.gr` file, for C.
ghost use Rattle.std.specs.Prelude.{◌≡◌, ◌≤◌, ◌^◌, length};
ghost use Rattle.spt_c.specs.Texts.{HasArcs, GraphTold, kind_of, letter_of, text_of, IsRead};

use crate::arcs::SptArc;
use sp_dimacs::{DimacsError, GrFile, GrReader, Kind};
use sp_paths::Arc;
use std::alloc::Global;

/// The result of reading a text: the numbers of vertices and arcs of its graph; or its first error, as the number of
/// its kind, the letter of the field that is out of range, and its line.
#[repr(C)]
#[derive(Clone, Copy, Debug, PartialEq, Eq)]
pub struct SptText {
    pub status: u32,
    pub n: u32,
    pub m: u64,
    pub kind: u32,
    pub letter: u32,
    pub line: u64,
}

/// The result of reading a text.
#[derive(Clone, Copy, Debug, PartialEq, Eq)]
pub(crate) enum TextAnswer {
    /// The text is a graph of n vertices and m arcs. The arcs are in the slice.
    Graph(u32, usize),
    /// The slice has fewer places than the m arcs need.
    FewPlaces(u32, usize),
    /// The text has an error, and this is the first.
    Fault(DimacsError),
    /// The text has more bytes than can be read.
    Long,
}

impl TextAnswer {
    /// Returns the result in the form for C.
    pub(crate) fn told(self) -> SptText
        ensures { result ≡ text_of self }
    {
        match self {
            TextAnswer::Graph(n, m) => sizes(0, n, m),
            TextAnswer::FewPlaces(n, m) => sizes(1, n, m),
            TextAnswer::Fault(fault) => SptText {
                status: 7,
                n: 0,
                m: 0,
                kind: kind_of(fault.kind),
                letter: letter_of(fault.kind),
                line: fault.line,
            },
            TextAnswer::Long => sizes(8, 0, 0),
        }
    }
}

fn sizes(status: u32, n: u32, m: usize) -> SptText
    ensures { result ≡ record { status = status; n = n; m = m; kind = 0; letter = 0; line = 0 } }
{
    SptText {
        status,
        n,
        m: m as u64,
        kind: 0,
        letter: 0,
        line: 0,
    }
}

fn kind_of(kind: Kind) -> u32
    ensures { result ≡ kind_of kind }
{
    match kind {
        Kind::LongLine => 1,
        Kind::BadLine => 2,
        Kind::NoProblem => 3,
        Kind::SecondProblem => 4,
        Kind::OutOfRange(_) => 5,
        Kind::TooMany => 6,
        Kind::TooFew => 7,
        Kind::Memory => 8,
        Kind::Read => 9,
    }
}

fn letter_of(kind: Kind) -> u32
    ensures { result ≡ letter_of kind }
{
    match kind {
        Kind::OutOfRange(letter) => u32::from(letter),
        _ => 0,
    }
}

// Returns the graph in a text, or the first error in the text.
fn graph_in(alloc: Global, text: &[u8]) -> Result<GrFile, DimacsError>
    requires { length text.now ≤ 2 ^ 62 }
    ensures { GraphTold text.now result }
{
    let mut reader = GrReader::<32>::new(alloc);
    reader.feed(text)?;
    reader.finish()
}

// Returns an arc in the form for C.
fn given(arc: Arc) -> SptArc
    ensures { result ≡ record { tail = arc.tail; head = arc.head; len = arc.len } }
{
    SptArc {
        tail: arc.tail,
        head: arc.head,
        len: arc.len,
    }
}

// Writes the arcs in the order of their lines.
fn put_arcs(from: &[Arc], arcs: &mut [SptArc])
    requires { length from.now ≤ length arcs.old }
    ensures { HasArcs (length from.now) from.now arcs.old arcs.new }
{
    for place in 0..from.len() {
        arcs[place] = given(from[place]);
    }
}

/// Reads the graph in a text, and writes its arcs to the slice if there is room.
pub(crate) fn read_graph(alloc: Global, text: &[u8], arcs: &mut [SptArc]) -> TextAnswer
    ensures { IsRead text.now arcs.old arcs.new result }
{
    if text.len() > 1 << 62 {
        return TextAnswer::Long;
    }
    match graph_in(alloc, text) {
        Ok(file) => {
            let n = file.n;
            let from = file.arcs.as_slice();
            let m = from.len();
            if m > arcs.len() {
                return TextAnswer::FewPlaces(n, m);
            }
            put_arcs(from, arcs);
            TextAnswer::Graph(n, m)
        }
        Err(fault) => TextAnswer::Fault(fault),
    }
}
