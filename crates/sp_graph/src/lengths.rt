//! The lengths of arcs: the greatest one, and their sum.
ghost use Rattle.std.specs.Prelude.{◌≡◌, ◌<◌, ◌^◌, List, [], length};
ghost use Rattle.sp_paths.specs.declared.arc.Arc.{Arc};
ghost use Rattle.sp_graph.specs.Mean.{mean_length};
ghost use Rattle.sp_graph.specs.Lengths.{AreLengths, with_arc, of_both};

use sp_paths::Arc;

/// The greatest length of some arcs and the sum of their lengths. Both are computed where the arcs are read anyway.
#[derive(Clone, Copy)]
pub struct Lengths {
    /// The greatest length, or 0 if there is no arc.
    pub longest: u32,
    /// The sum of the lengths, modulo 2^64. For fewer than 2^32 arcs it is the sum itself.
    pub total: u64,
}

impl Lengths {
    /// Returns the lengths of no arc.
    pub fn none() -> Lengths
        ensures { AreLengths [] result }
    {
        Lengths {
            longest: 0,
            total: 0,
        }
    }

    /// Returns the lengths of these arcs and one more.
    pub fn with(self, arc: &Arc) -> Lengths
        ensures { result ≡ with_arc self arc.now }
    {
        Lengths {
            longest: self.longest.max(arc.len),
            total: self.total.wrapping_add(u64::from(arc.len)),
        }
    }

    /// Returns the lengths of two lists of arcs together.
    pub fn and(self, others: Lengths) -> Lengths
        ensures { result ≡ of_both self others }
    {
        Lengths {
            longest: self.longest.max(others.longest),
            total: self.total.wrapping_add(others.total),
        }
    }

    /// Returns the lengths of these arcs.
    pub fn of(arcs: &[Arc]) -> Lengths
        ensures { AreLengths arcs.now result }
    {
        let mut lengths = Lengths::none();
        for arc in arcs {
            lengths = lengths.with(arc);
        }
        lengths
    }

    /// Returns the mean length of `count` arcs with these lengths: the sum of their lengths divided by their number, rounded
    /// down; or 1 if there is no arc.
    pub fn mean(self, count: usize) -> u64
        ensures { (arcs : List Arc) → length arcs ≡ count → length arcs < 2 ^ 32
            → AreLengths arcs self → result ≡ mean_length arcs }
    {
        if count == 0 {
            return 1;
        }
        self.total / count as u64
    }
}
