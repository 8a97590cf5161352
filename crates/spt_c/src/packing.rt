//! Packed graphs, for C.
ghost use Rattle.std.specs.Prelude.{◌≡◌, ◌≤◌, ◌<◌, ◌^◌, Some, length, IfOk};
ghost use Rattle.sp_dimacs.specs.declared.formats.TheConstants.{MOST_ARCS};
ghost use Rattle.sp_packed.specs.Packed.{packed_text};
ghost use Rattle.spt_c.specs.Place.{kept, held_by, IsInUse, IsFree};
ghost use Rattle.spt_c.specs.Packing.{IsUnpacked, IsAnswerFor, IsLoaded, IsSaved, packed_of, saved_of, kind_of, letter_of};
ghost use Rattle.spt_c.specs.declared.packing.LoadAnswer.TheVariants.{InUse};

use crate::place::KeptGraph;
use crate::shared::HeldGraph;
use sp_device::{UpTo, UpToWriter, Write, WriteFault};
use sp_dimacs::MOST_ARCS;
use sp_graph::Graph;
use sp_packed::{
    PackedFault, PackedField, PackedKind, a_text_has_its_length, read_packed, write_packed,
};
use std::alloc::Global;

/// The result of reading packed bytes: the numbers of vertices and arcs of their graph; or their first error, as the
/// number of its kind, the letter of the field that is out of range, and the number of bytes before it.
#[repr(C)]
#[derive(Clone, Copy, Debug, PartialEq, Eq)]
pub struct SptPacked {
    pub status: u32,
    pub n: u32,
    pub m: u64,
    pub kind: u32,
    pub letter: u32,
    pub byte: u64,
}

/// The result of a call that packs a graph: a status, and the size of the packed graph in bytes.
#[repr(C)]
#[derive(Clone, Copy, Debug, PartialEq, Eq)]
pub struct SptSaved {
    pub status: u32,
    pub count: u64,
}

/// The result of reading packed bytes.
#[derive(Clone, Copy, Debug, PartialEq, Eq)]
pub(crate) enum LoadAnswer {
    /// The bytes are a graph of n vertices and m arcs, which is kept.
    Loaded(u32, usize),
    /// The bytes have an error, and this is the first.
    Fault(PackedFault),
    /// There are more bytes than can be read.
    Long,
    /// An allocation failed.
    Memory,
    /// Another call uses the place.
    InUse,
}

/// The result of packing a graph.
#[derive(Clone, Copy, Debug, PartialEq, Eq)]
pub(crate) enum SaveAnswer {
    /// The packed graph is at the front of the slice, and has this many bytes.
    Saved(usize),
    /// The slice has fewer places than the packed graph needs. The value is the number that it needs.
    FewPlaces(usize),
    /// The graph has more arcs than a packed graph can have.
    TooLarge,
    /// An allocation failed.
    Memory,
    /// The place keeps no graph.
    NoGraph,
    /// Another call uses the place.
    InUse,
}

fn told(status: u32, n: u32, m: usize) -> SptPacked
    ensures { result ≡ record { status = status; n = n; m = m; kind = 0; letter = 0; byte = 0 } }
{
    SptPacked {
        status,
        n,
        m: m as u64,
        kind: 0,
        letter: 0,
        byte: 0,
    }
}

impl LoadAnswer {
    // Returns the result for this error.
    fn of(fault: PackedFault) -> LoadAnswer
        ensures { IsAnswerFor fault result }
    {
        match fault.kind {
            PackedKind::Memory => LoadAnswer::Memory,
            _ => LoadAnswer::Fault(fault),
        }
    }

    /// Returns the result in the form for C.
    pub(crate) fn told(self) -> SptPacked
        ensures { result ≡ packed_of self }
    {
        match self {
            LoadAnswer::Loaded(n, m) => told(0, n, m),
            LoadAnswer::Fault(fault) => SptPacked {
                status: 7,
                n: 0,
                m: 0,
                kind: kind_of(fault.kind),
                letter: letter_of(fault.kind),
                byte: fault.at,
            },
            LoadAnswer::Long => told(8, 0, 0),
            LoadAnswer::Memory => told(6, 0, 0),
            LoadAnswer::InUse => told(12, 0, 0),
        }
    }
}

impl SptSaved {
    /// Returns the result in the form for C.
    pub(crate) fn of(answer: SaveAnswer) -> SptSaved
        ensures { result ≡ saved_of answer }
    {
        let (status, count) = match answer {
            SaveAnswer::Saved(count) => (0, count as u64),
            SaveAnswer::FewPlaces(count) => (1, count as u64),
            SaveAnswer::TooLarge => (1, 0),
            SaveAnswer::Memory => (6, 0),
            SaveAnswer::NoGraph => (10, 0),
            SaveAnswer::InUse => (12, 0),
        };
        SptSaved { status, count }
    }
}

fn kind_of(kind: PackedKind) -> u32
    ensures { result ≡ kind_of kind }
{
    match kind {
        PackedKind::OutOfRange(_) => 5,
        PackedKind::TooMany => 6,
        PackedKind::TooFew => 7,
        PackedKind::Memory => 8,
        PackedKind::Read => 9,
        PackedKind::OtherForm => 10,
        PackedKind::OtherSum => 11,
    }
}

fn letter_of(kind: PackedKind) -> u32
    ensures { result ≡ letter_of kind }
{
    match kind {
        PackedKind::OutOfRange(PackedField::Vertices) => 78,
        PackedKind::OutOfRange(PackedField::Arcs) => 77,
        PackedKind::OutOfRange(PackedField::End) => 69,
        PackedKind::OutOfRange(PackedField::Head) => 86,
        PackedKind::OutOfRange(PackedField::Length) => 87,
        _ => 0,
    }
}

// Returns the graph that was packed into these bytes, or their first error.
fn unpacked(alloc: Global, bytes: &[u8]) -> Result<Graph, PackedFault>
    requires { length bytes.now ≤ 2 ^ 62 }
    ensures { IsUnpacked bytes.now result }
{
    let mut reader = UpTo::whole(bytes);
    read_packed::<32, _>(alloc, &mut reader, MOST_ARCS as u32)
}

/// Keeps the graph that was packed into these bytes, in place of what was kept, or returns their first error.
pub(crate) fn load(alloc: Global, bytes: &[u8], graph: &mut KeptGraph) -> LoadAnswer
    ensures in_use { IsInUse graph.old → (result ≡ InUse) × (graph.new ≡ graph.old) }
    ensures loaded { IsFree graph.old
        → IsLoaded bytes.now (kept graph.old) (kept graph.new) result }
    ensures free { IsFree graph.old → IsFree graph.new }
{
    match graph.begin(alloc) {
        Ok(before) => load_in(alloc, bytes, graph, before),
        Err(_) => LoadAnswer::InUse,
    }
}

// Does the same in a place that this call has taken, which kept `before`, and gives the place back.
fn load_in(
    alloc: Global,
    bytes: &[u8],
    graph: &mut KeptGraph,
    before: Option<HeldGraph>,
) -> LoadAnswer
    requires { IsInUse graph.old }
    ensures loaded { IsLoaded bytes.now (held_by before) (kept graph.new) result }
    ensures free { IsFree graph.new }
{
    if bytes.len() > 1 << 62 {
        graph.end(before);
        return LoadAnswer::Long;
    }
    match unpacked(alloc, bytes) {
        Ok(made) => {
            let (n, m) = (made.n(), made.m());
            match graph.end_with(alloc, made, before) {
                Ok(()) => LoadAnswer::Loaded(n, m),
                Err(_) => LoadAnswer::Memory,
            }
        }
        Err(fault) => {
            graph.end(before);
            LoadAnswer::of(fault)
        }
    }
}

// Returns the number of bytes in the packed form of a graph.
fn packed_size(graph: &Graph) -> usize
    requires { length graph.now.arcs ≤ MOST_ARCS }
    ensures size { result ≡ length (packed_text graph.now) }
    ensures small { result ≤ 2 ^ 62 }
{
    a_text_has_its_length();
    4 * (graph.n() as usize + 2 * graph.m() + 9)
}

// Returns a writer that holds the packed form of a graph, which has this size. It fails if there is no memory.
fn packed(alloc: Global, graph: &Graph, size: usize) -> Result<UpToWriter, WriteFault>
    requires few { length graph.now.arcs < 2 ^ 32 }
    requires small { size ≤ 2 ^ 62 }
    ensures { IfOk result
        (λ writer. ⟦<UpToWriter as Write>⟧.written writer ≡ Some (packed_text graph.now)) }
{
    let mut writer = UpToWriter::new(alloc, size, usize::MAX);
    write_packed(&mut writer, graph)?;
    Ok(writer)
}

/// Writes the packed form of a graph to the front of the slice, if there is room.
pub(crate) fn save(alloc: Global, graph: &Graph, bytes: &mut [u8]) -> SaveAnswer
    ensures { IsSaved (Some graph.now) bytes.old bytes.new result }
{
    if graph.m() as u64 > MOST_ARCS {
        return SaveAnswer::TooLarge;
    }
    let size = packed_size(graph);
    if bytes.len() < size {
        return SaveAnswer::FewPlaces(size);
    }
    match packed(alloc, graph, size) {
        Ok(writer) => {
            let (front, _) = bytes.split_at_mut(size);
            front.copy_from_slice(writer.taken());
            SaveAnswer::Saved(size)
        }
        Err(WriteFault) => SaveAnswer::Memory,
    }
}
