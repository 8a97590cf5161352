//! Files of pairs: each pair has a source and a target.
ghost use Rattle.std.specs.Prelude.{◌≡◌, ◌<◌, ◌^◌, ℕ, List, [], map, true, false, Some, IfOk, IfErr};
ghost use Rattle.sp_word.specs.Word.{is_layout, max_pred};
ghost use Rattle.sp_text.specs.Formats.{ranges_of};
ghost use Rattle.sp_text.specs.Text.{judge};
ghost use Rattle.sp_text.specs.Whole.{NeverRead};
ghost use Rattle.sp_dimacs.specs.Formats.{pairs};
ghost use Rattle.sp_dimacs.specs.Reading.{IsBehindText};
ghost use Rattle.sp_dimacs.specs.Pairs.{pair_of, ArePairs, SpellsPairs, PairsRead, ArePairsWithin};

use crate::formats::pairs_format;
use crate::readers::TextReader;
use sp_device::Read;
use sp_text::{
    Collector, DimacsError, FileFormat, Keep, Kind, LineTaker, Ranges, Values, ranges_of, read_text,
};
use std::alloc::{AllocError, Global};
use std::mem;

/// What a pairs file spells: the pairs of a source and a target, in the order of their lines.
#[derive(Drop)]
pub struct PairsFile {
    pub pairs: Vec<(u32, u32)>,
}

/// The pairs read so far.
#[derive(Drop)]
pub struct PairKeeper<const P: u32> {
    alloc: Global,
    pairs: Vec<(u32, u32)>,
    ghost layout: { is_layout P ≡ true },
    ghost short: { max_pred P < 2 ^ 32 },
}

impl<const P: u32> PairKeeper<P> {
    fn new(alloc: Global) -> Self
        requires { is_layout P ≡ true }
        ensures { result.pairs.items ≡ [] }
    {
        PairKeeper {
            alloc,
            pairs: Vec::new(alloc),
        }
    }
}

impl<const P: u32> Keep for PairKeeper<P> {
    type Value = PairsFile;

    ghost format = { pairs };

    ghost ranges = { ranges_of P };

    ghost Kept = { λ k items. k.pairs.items ≡ map pair_of items };

    ghost Spelled = { λ problem items file. ArePairs problem items file };

    fn format(&self) -> FileFormat {
        pairs_format()
    }

    fn ranges(&self) -> Ranges {
        ranges_of::<P>()
    }

    fn keep(&mut self, _place: usize, values: &Values) -> Result<(), AllocError> {
        self.pairs
            .push((values.get(0) as u32, values.get(1) as u32))?;
        Ok(())
    }

    // No form is fresh.
    fn is_named(&self, _place: usize, _first: u64) -> bool
        ensures { result ≡ false }
    {
        false
    }

    fn give(&mut self, _problem: &Values) -> PairsFile {
        PairsFile {
            pairs: mem::replace(&mut self.pairs, Vec::new(self.alloc)),
        }
    }
}

/// A reader of a pairs text that comes in pieces, for words with `P` predecessor bits.
pub type PairsReader<const P: u32> = TextReader<Collector<PairKeeper<P>>>;

impl<const P: u32> TextReader<Collector<PairKeeper<P>>> {
    /// Returns a reader that has read no text.
    pub fn new(alloc: Global) -> Self
        requires { is_layout P ≡ true }
        ensures { IsBehindText
            (judge pairs (ranges_of P)) ⟦<Collector<PairKeeper<P>> as LineTaker>⟧.After [] result }
    {
        TextReader::of_taker(Collector::new(PairKeeper::new(alloc)))
    }
}

/// Reads the rest of a device's bytes, and returns the pairs that they spell, or their first fault. If there is no
/// memory for a pair, the fault is Memory at its line, unless that line or an earlier one has a fault.
#[tactic(auto, using(crate::proofs::Limits::pairs_read))]
pub fn read_pairs<const P: u32, R: Read>(
    alloc: Global,
    reader: &mut R,
) -> Result<PairsFile, DimacsError>
    requires { is_layout P ≡ true }
    ensures exact { (text : List ℕ) → R.left reader.old ≡ Some text
        → PairsRead P text (R.left reader.new) (R.has_failed reader.new) result }
    ensures found { IfOk result (λ file. (text : List ℕ) × SpellsPairs P text file) }
    ensures pairs { IfOk result (ArePairsWithin P) }
    ensures read { IfErr result (λ e. e.kind ≡ Kind.Read → R.has_failed reader.new ≡ true) }
    ensures never { NeverRead (R.failing reader.old) result }
{
    read_text(reader, PairsReader::<P>::new(alloc).into_feeder())
}
