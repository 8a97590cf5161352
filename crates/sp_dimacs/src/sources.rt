//! `.ss` files, which spell a list of sources.
ghost use Rattle.std.specs.Prelude.{◌≡◌, ◌<◌, ◌^◌, ℕ, List, [], map, true, false, Some, IfOk, IfErr};
ghost use Rattle.sp_word.specs.Word.{is_layout, max_pred};
ghost use Rattle.sp_text.specs.Formats.{ranges_of};
ghost use Rattle.sp_text.specs.Text.{judge};
ghost use Rattle.sp_text.specs.Whole.{NeverRead};
ghost use Rattle.sp_dimacs.specs.Formats.{ss};
ghost use Rattle.sp_dimacs.specs.Reading.{IsBehindText};
ghost use Rattle.sp_dimacs.specs.Sources.{source_of, AreSources, SpellsSources, SourcesRead, AreSourcesWithin};

use crate::formats::ss_format;
use crate::readers::TextReader;
use sp_device::Read;
use sp_text::{
    Collector, DimacsError, FileFormat, Keep, Kind, LineTaker, Ranges, Values, ranges_of, read_text,
};
use std::alloc::{AllocError, Global};
use std::mem;

/// What an `.ss` file spells: the sources, in the order of their lines.
#[derive(Drop)]
pub struct SsFile {
    pub sources: Vec<u32>,
}

/// The sources read so far.
#[derive(Drop)]
pub struct SourceKeeper<const P: u32> {
    alloc: Global,
    sources: Vec<u32>,
    ghost layout: { is_layout P ≡ true },
    ghost short: { max_pred P < 2 ^ 32 },
}

impl<const P: u32> SourceKeeper<P> {
    fn new(alloc: Global) -> Self
        requires { is_layout P ≡ true }
        ensures { result.sources.items ≡ [] }
    {
        SourceKeeper {
            alloc,
            sources: Vec::new(alloc),
        }
    }
}

impl<const P: u32> Keep for SourceKeeper<P> {
    type Value = SsFile;

    ghost format = { ss };

    ghost ranges = { ranges_of P };

    ghost Kept = { λ k items. k.sources.items ≡ map source_of items };

    ghost Spelled = { λ problem items file. AreSources problem items file };

    fn format(&self) -> FileFormat {
        ss_format()
    }

    fn ranges(&self) -> Ranges {
        ranges_of::<P>()
    }

    fn keep(&mut self, _place: usize, values: &Values) -> Result<(), AllocError> {
        self.sources.push(values.get(0) as u32)?;
        Ok(())
    }

    // No form is fresh.
    fn is_named(&self, _place: usize, _first: u64) -> bool
        ensures { result ≡ false }
    {
        false
    }

    fn give(&mut self, _problem: &Values) -> SsFile {
        SsFile {
            sources: mem::replace(&mut self.sources, Vec::new(self.alloc)),
        }
    }
}

/// A reader of an `.ss` text that comes in pieces, for words with `P` predecessor bits.
pub type SsReader<const P: u32> = TextReader<Collector<SourceKeeper<P>>>;

impl<const P: u32> TextReader<Collector<SourceKeeper<P>>> {
    /// Returns a reader that has read no text.
    pub fn new(alloc: Global) -> Self
        requires { is_layout P ≡ true }
        ensures { IsBehindText
            (judge ss (ranges_of P)) ⟦<Collector<SourceKeeper<P>> as LineTaker>⟧.After [] result }
    {
        TextReader::of_taker(Collector::new(SourceKeeper::new(alloc)))
    }
}

/// Reads the rest of a device's bytes, and returns the sources that they spell, or their first fault. If there is no
/// memory for a source, the fault is Memory at its line, unless that line or an earlier one has a fault.
#[tactic(auto, using(crate::proofs::Limits::sources_read))]
pub fn read_ss<const P: u32, R: Read>(alloc: Global, reader: &mut R) -> Result<SsFile, DimacsError>
    requires { is_layout P ≡ true }
    ensures exact { (text : List ℕ) → R.left reader.old ≡ Some text
        → SourcesRead P text (R.left reader.new) (R.has_failed reader.new) result }
    ensures found { IfOk result (λ file. (text : List ℕ) × SpellsSources P text file) }
    ensures sources { IfOk result (AreSourcesWithin P) }
    ensures read { IfErr result (λ e. e.kind ≡ Kind.Read → R.has_failed reader.new ≡ true) }
    ensures never { NeverRead (R.failing reader.old) result }
{
    read_text(reader, SsReader::<P>::new(alloc).into_feeder())
}
