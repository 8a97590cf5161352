//! `.gr` files, which spell a graph.
ghost use Rattle.std.specs.Prelude.{◌≡◌, ◌<◌, ◌^◌, ℕ, List, [], map, true, false, Some, IfOk, IfErr};
ghost use Rattle.sp_word.specs.Word.{is_layout, max_pred};
ghost use Rattle.sp_text.specs.Formats.{ranges_of};
ghost use Rattle.sp_text.specs.Text.{judge};
ghost use Rattle.sp_text.specs.Whole.{NeverRead};
ghost use Rattle.sp_text.specs.Formats.{format_of};
ghost use Rattle.sp_dimacs.specs.Formats.{gr, gr_up_to};
ghost use Rattle.sp_dimacs.specs.declared.formats.TheConstants.{MOST_ARCS, MOST_ARCS_BOTH_WAYS};
ghost use Rattle.sp_dimacs.specs.Reading.{IsBehindText};
ghost use Rattle.sp_dimacs.specs.Graph.{arc_of, IsGraph, SpellsGraph, SpellsUpTo, GraphRead, ReadUpTo, IsNetwork, IsNetworkUpTo};

use crate::formats::{both_ways_format, gr_format};
use crate::readers::TextReader;
use sp_device::Read;
use sp_parts::{KeepAcross, SIZES, read_items_by};
use sp_paths::Arc;
use sp_text::{
    Collector, DimacsError, FileFormat, Keep, KeepParts, Kind, LineTaker, Ranges, Values,
    ranges_of, read_items,
};
use sp_word::{ThreadsAndSleep, Workers};
use std::alloc::{AllocError, Global};
use std::marker::PhantomData;
use std::mem;

/// What a `.gr` file spells: the number of vertices, and the arcs in the order of their lines.
#[derive(Drop)]
pub struct GrFile {
    pub n: u32,
    pub arcs: Vec<Arc>,
}

/// Whether the arcs of a text lead one way or both ways. This sets how many arcs the text may announce.
pub trait Ways {
    ghost most: { ℕ };

    /// Returns the line forms of such a text.
    fn format() -> FileFormat
        ensures { format_of result ≡ gr_up_to most };
}

/// Each arc leads from its tail to its head.
pub struct OneWay;

impl Ways for OneWay {
    ghost most = { MOST_ARCS };

    fn format() -> FileFormat {
        gr_format()
    }
}

/// Each arc leads both ways.
pub struct BothWays;

impl Ways for BothWays {
    ghost most = { MOST_ARCS_BOTH_WAYS };

    fn format() -> FileFormat {
        both_ways_format()
    }
}

/// The arcs read so far.
#[derive(Drop)]
pub struct ArcKeeper<const P: u32, A: Ways> {
    alloc: Global,
    arcs: Vec<Arc>,
    ways: PhantomData<A>,
    ghost layout: { is_layout P ≡ true },
    ghost short: { max_pred P < 2 ^ 32 },
}

impl<const P: u32, A: Ways> ArcKeeper<P, A> {
    fn new(alloc: Global) -> Self
        requires { is_layout P ≡ true }
        ensures { result.arcs.items ≡ [] }
    {
        ArcKeeper {
            alloc,
            arcs: Vec::new(alloc),
            ways: PhantomData,
        }
    }
}

impl<const P: u32, A: Ways> Keep for ArcKeeper<P, A> {
    type Value = GrFile;

    ghost format = { gr_up_to A.most };

    ghost ranges = { ranges_of P };

    ghost Kept = { λ k items. k.arcs.items ≡ map arc_of items };

    ghost Spelled = { λ problem items file. IsGraph problem items file };

    fn format(&self) -> FileFormat {
        A::format()
    }

    fn ranges(&self) -> Ranges {
        ranges_of::<P>()
    }

    fn keep(&mut self, _place: usize, values: &Values) -> Result<(), AllocError> {
        let arc = Arc {
            tail: values.get(0) as u32,
            head: values.get(1) as u32,
            len: values.get(2) as u32,
        };
        self.arcs.push(arc)?;
        Ok(())
    }

    // No form is fresh.
    fn is_named(&self, _place: usize, _first: u64) -> bool
        ensures { result ≡ false }
    {
        false
    }

    fn give(&mut self, problem: &Values) -> GrFile {
        GrFile {
            n: problem.get(0) as u32,
            arcs: mem::replace(&mut self.arcs, Vec::new(self.alloc)),
        }
    }
}

// The approximate length of an arc's line in bytes. A wrong value costs time only.
const BYTES_OF_LINE: usize = 16;

impl<const P: u32, A: Ways> KeepParts for ArcKeeper<P, A> {
    fn fresh(&self, bytes: usize) -> Result<Self, AllocError> {
        Ok(ArcKeeper {
            alloc: self.alloc,
            arcs: Vec::with_capacity(self.alloc, bytes / BYTES_OF_LINE)?,
            ways: PhantomData,
        })
    }

    fn count(&self) -> u64 {
        self.arcs.len() as u64
    }

    fn append(&mut self, other: &Self) -> Result<(), AllocError> {
        self.arcs.extend_from_slice(&other.arcs)
    }
}

impl<const P: u32, A: Ways> KeepAcross for ArcKeeper<P, A> {
    ghost use Rattle.std.proofs.Props.{props};
    ghost use Rattle.sp_paths.specs.declared.arc.Arc.{Arc};

    ghost one_proof = { λ keep items.
        let once : (these others : List Arc) → IsProp (these ≡ others) = Prim.hlevel props in
        once keep.arcs.items (map arc_of items) };
}

/// A reader of a `.gr` text that comes in pieces, for words with `P` predecessor bits.
pub type GrReader<const P: u32> = TextReader<Collector<ArcKeeper<P, OneWay>>>;

impl<const P: u32> TextReader<Collector<ArcKeeper<P, OneWay>>> {
    /// Returns a reader that has read no text.
    pub fn new(alloc: Global) -> Self
        requires { is_layout P ≡ true }
        ensures { IsBehindText
            (judge gr (ranges_of P))
            ⟦<Collector<ArcKeeper<P, OneWay>> as LineTaker>⟧.After [] result }
    {
        TextReader::of_taker(Collector::new(ArcKeeper::new(alloc)))
    }
}

/// Reads the rest of a device's bytes, and returns the graph that they spell, or their first fault. If there is no
/// memory for an arc, the fault is Memory at its line, unless that line or an earlier one has a fault.
#[tactic(auto, using(crate::proofs::Limits::graph_read))]
pub fn read_gr<const P: u32, R: Read>(alloc: Global, reader: &mut R) -> Result<GrFile, DimacsError>
    requires { is_layout P ≡ true }
    ensures exact { (text : List ℕ) → R.left reader.old ≡ Some text
        → GraphRead P text (R.left reader.new) (R.has_failed reader.new) result }
    ensures found { IfOk result (λ file. (text : List ℕ) × SpellsGraph P text file) }
    ensures graph { IfOk result (IsNetwork P) }
    ensures read { IfErr result (λ e. e.kind ≡ Kind.Read → R.has_failed reader.new ≡ true) }
    ensures never { NeverRead (R.failing reader.old) result }
{
    read_items(reader, GrReader::<P>::new(alloc).into_feeder())
}

// Reads the rest of a device's bytes with this many workers, including this thread. The text may announce as many arcs as
// these ways allow.
#[tactic(auto, using(crate::proofs::Limits::graph_read))]
fn read_ways<const P: u32, A: Ways + Send + Sync, H: ThreadsAndSleep, R: Read>(
    rt: &H,
    alloc: Global,
    reader: &mut R,
    workers: Workers,
) -> Result<GrFile, DimacsError>
    requires { is_layout P ≡ true }
    ensures exact { (text : List ℕ) → R.left reader.old ≡ Some text
        → ReadUpTo P A.most text (R.left reader.new) (R.has_failed reader.new) result }
    ensures found { IfOk result (λ file. (text : List ℕ) × SpellsUpTo P A.most text file) }
    ensures graph { IfOk result (IsNetworkUpTo P A.most) }
    ensures read { IfErr result (λ e. e.kind ≡ Kind.Read → R.has_failed reader.new ≡ true) }
    ensures never { NeverRead (R.failing reader.old) result }
{
    let taker = Collector::new(ArcKeeper::<P, A>::new(alloc));
    let feeder = TextReader::of_taker(taker).into_feeder();
    read_items_by(rt, alloc, reader, feeder, workers, SIZES)
}

/// Reads the rest of a device's bytes as `read_gr` does, with this many workers, including this thread. Only this thread reads
/// the device.
pub fn read_gr_by<const P: u32, H: ThreadsAndSleep, R: Read>(
    rt: &H,
    alloc: Global,
    reader: &mut R,
    workers: Workers,
) -> Result<GrFile, DimacsError>
    requires { is_layout P ≡ true }
    ensures exact { (text : List ℕ) → R.left reader.old ≡ Some text
        → GraphRead P text (R.left reader.new) (R.has_failed reader.new) result }
    ensures found { IfOk result (λ file. (text : List ℕ) × SpellsGraph P text file) }
    ensures graph { IfOk result (IsNetwork P) }
    ensures read { IfErr result (λ e. e.kind ≡ Kind.Read → R.has_failed reader.new ≡ true) }
    ensures never { NeverRead (R.failing reader.old) result }
{
    read_ways::<P, OneWay, H, R>(rt, alloc, reader, workers)
}

/// Reads the rest of a device's bytes as `read_gr_by` does, for a graph whose arcs lead both ways. The text may announce half
/// as many arcs; a greater number is out of its range.
pub fn read_gr_both_ways<const P: u32, H: ThreadsAndSleep, R: Read>(
    rt: &H,
    alloc: Global,
    reader: &mut R,
    workers: Workers,
) -> Result<GrFile, DimacsError>
    requires { is_layout P ≡ true }
    ensures exact { (text : List ℕ) → R.left reader.old ≡ Some text
        → ReadUpTo P MOST_ARCS_BOTH_WAYS text
        (R.left reader.new) (R.has_failed reader.new) result }
    ensures found { IfOk result
        (λ file. (text : List ℕ) × SpellsUpTo P MOST_ARCS_BOTH_WAYS text file) }
    ensures graph { IfOk result (IsNetworkUpTo P MOST_ARCS_BOTH_WAYS) }
    ensures read { IfErr result (λ e. e.kind ≡ Kind.Read → R.has_failed reader.new ≡ true) }
    ensures never { NeverRead (R.failing reader.old) result }
{
    read_ways::<P, BothWays, H, R>(rt, alloc, reader, workers)
}
