//! The layouts of a word, and the option that selects one. Every list of the layouts is in this module.
ghost use denote.Param.Send.{IsSync};
ghost use Rattle.std.specs.Prelude.{◌≡◌, ◌<◌, ◌≤◌, true, IfNone, IfOk, IfErr, IfSome};
ghost use Rattle.sp_word.specs.Word.{max_dist, max_pred};
ghost use Rattle.sp_command.specs.Faults.{is_done, is_early};
ghost use Rattle.sp_command.specs.Layouts.{IsRunIn, Runs};
ghost use Rattle.clap.specs.Walk.{rule_of};
ghost use Rattle.sp_command.specs.Rules.{IsLayoutRule};
ghost use Rattle.sp_command.specs.Scene.{scene};
ghost use Rattle.sp_command.specs.Words.{ReadsSpelling, bits_in};

use crate::arguments::valued;
use crate::faults::{Fault, Status};
use crate::inputs::Inputs;
use crate::running::Runnable;
use clap::Arg;
use sp_device::Write;
use sp_word::Word;
use std::alloc::Global;
use std::fmt;
use std::str::FromStr;
use std::sync::Wait;
use std::thread::Threads;

const HELP: &str = "\
Bits of a word that hold the predecessor; the rest of its 64 bits hold
the distance. The greatest distance and predecessor that fit are
  with 20 bits: 17592186044414 and 1048574
  with 24 bits: 1099511627774 and 16777214
  with 28 bits: 68719476734 and 268435454
  with 32 bits: 4294967294 and 4294967294";

static SPELLINGS: [&str; 4] = ["20", "24", "28", "32"];

/// The number of bits of a word that hold the predecessor.
#[derive(Clone, Copy, Debug, PartialEq, Eq)]
pub enum PredBits {
    Bits20,
    Bits24,
    Bits28,
    Bits32,
}

/// An error: the text isn't a number of bits that a word can have for its predecessor.
#[derive(Clone, Copy, Debug, PartialEq, Eq)]
pub struct NoPredBits;

impl FromStr for PredBits {
    type Err = NoPredBits;

    ghost from_str_gives = { ReadsSpelling };

    fn from_str(text: &str) -> Result<PredBits, NoPredBits> {
        match text {
            "20" => Ok(PredBits::Bits20),
            "24" => Ok(PredBits::Bits24),
            "28" => Ok(PredBits::Bits28),
            "32" => Ok(PredBits::Bits32),
            _ => Err(NoPredBits),
        }
    }
}

impl PredBits {
    /// The identifier of the option for `clap`.
    pub const ID: &'static str = "pred-bits";

    /// Returns the option that gives the number of bits.
    pub fn option<'a>(alloc: Global) -> Arg<'a>
        ensures { IsLayoutRule (rule_of result) }
    {
        let about = "Bits of a word that hold the predecessor\n";
        valued(alloc, Self::ID, "P", about, HELP)
            .value_parser(SPELLINGS.as_slice())
            .default_value("28")
    }

    /// Returns the greatest distance of a word of this layout.
    pub fn max_dist(self) -> u64
        ensures { result ≡ max_dist (bits_in self) }
    {
        match self {
            PredBits::Bits20 => Word::<20>::max_dist(),
            PredBits::Bits24 => Word::<24>::max_dist(),
            PredBits::Bits28 => Word::<28>::max_dist(),
            PredBits::Bits32 => Word::<32>::max_dist(),
        }
    }

    /// Returns the greatest predecessor in a word of this layout, which is also the greatest vertex.
    pub fn max_pred(self) -> u32
        ensures { result ≡ max_pred (bits_in self) }
    {
        match self {
            PredBits::Bits20 => Word::<20>::max_pred(),
            PredBits::Bits24 => Word::<24>::max_pred(),
            PredBits::Bits28 => Word::<28>::max_pred(),
            PredBits::Bits32 => Word::<32>::max_pred(),
        }
    }

    /// Returns the least number of bits that can name every vertex of a graph with this many vertices, if there is one.
    pub fn least_for(vertices: u64) -> Option<PredBits>
        ensures holds { IfSome result (λ bits. vertices ≤ max_pred (bits_in bits)) }
        ensures fewest { IfSome result (λ bits. (other : PredBits) →
            bits_in other < bits_in bits → max_pred (bits_in other) < vertices) }
        ensures none { IfNone result (max_pred 32 < vertices) }
    {
        if vertices <= u64::from(Word::<20>::max_pred()) {
            Some(PredBits::Bits20)
        } else if vertices <= u64::from(Word::<24>::max_pred()) {
            Some(PredBits::Bits24)
        } else if vertices <= u64::from(Word::<28>::max_pred()) {
            Some(PredBits::Bits28)
        } else if vertices <= u64::from(Word::<32>::max_pred()) {
            Some(PredBits::Bits32)
        } else {
            None
        }
    }
}

impl fmt::Display for PredBits {
    fn fmt<W: fmt::Write>(&self, f: &mut fmt::Formatter<W>) -> fmt::Result {
        f.write_str(match self {
            PredBits::Bits20 => "20",
            PredBits::Bits24 => "24",
            PredBits::Bits28 => "28",
            PredBits::Bits32 => "32",
        })
    }
}

/// A command that can run in each layout.
pub trait RunIn {
    /// What the answer means, in the layout with this many bits of predecessor: how it depends on the texts of the
    /// files, and what is written.
    ghost runs: { Runs Self };

    /// Runs the command in the layout with this many bits of predecessor.
    fn run_in<R: Threads + Wait + Sync, F: Inputs, W: Write>(
        &self,
        pred_bits: PredBits,
        rt: &R,
        alloc: Global,
        files: &F,
        out: &mut W,
    ) -> Result<Status, Fault>
        requires { IsSync R.row }
        ensures run { runs pred_bits self.now (scene (F.files files.now)
            (W.written out.old) (W.written out.new) (W.has_failed out.new)) result }
        ensures done { IfOk result (λ status. is_done status ≡ true) }
        ensures untouched { IfErr result (λ fault. is_early fault ≡ true → out.new ≡ out.old) };
}

impl<C: Runnable<20> + Runnable<24> + Runnable<28> + Runnable<32>> RunIn for C {
    ghost runs = { IsRunIn
        ⟦<C as Runnable<20>>⟧ ⟦<C as Runnable<24>>⟧ ⟦<C as Runnable<28>>⟧ ⟦<C as Runnable<32>>⟧ };

    fn run_in<R: Threads + Wait + Sync, F: Inputs, W: Write>(
        &self,
        pred_bits: PredBits,
        rt: &R,
        alloc: Global,
        files: &F,
        out: &mut W,
    ) -> Result<Status, Fault> {
        match pred_bits {
            PredBits::Bits20 => <C as Runnable<20>>::run(self, rt, alloc, files, out),
            PredBits::Bits24 => <C as Runnable<24>>::run(self, rt, alloc, files, out),
            PredBits::Bits28 => <C as Runnable<28>>::run(self, rt, alloc, files, out),
            PredBits::Bits32 => <C as Runnable<32>>::run(self, rt, alloc, files, out),
        }
    }
}
