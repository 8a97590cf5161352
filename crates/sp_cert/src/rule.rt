//! The rules of a tree or a forest.
ghost use Rattle.std.specs.Prelude.{◌≡◌, ◌≤◌, Some};
ghost use Rattle.std.specs.Fmt.{decimal};
ghost use Rattle.sp_cert.specs.Rules.{number_of};

use std::fmt;

/// A rule that a tree or a forest satisfies. `Display` prints its number.
#[derive(Clone, Copy, Debug, PartialEq, Eq)]
pub enum Rule {
    /// There are as many vertices as in the graph, and in a forest as many sources as counted.
    Size = 1,
    /// A source's word is (0, 0), and its root is itself.
    OwnSource = 2,
    /// No arc from a reached vertex offers its head a lesser pair within the greatest distance, and within the limit if there is
    /// one.
    NoLesserOffer = 3,
    /// A reached vertex other than a source names a reached predecessor with an arc to it. The arc's length is the difference of
    /// the two distances.
    NamesPredecessor = 4,
    /// Without a limit, no arc from a reached vertex to an unreached one has a sum beyond the greatest distance.
    OnlyTooFar = 5,
    /// No distance is above the limit.
    BeyondLimit = 6,
    /// A reached vertex other than a source has its predecessor's root.
    OtherRoot = 7,
}

impl Rule {
    /// Returns the number by which the rule is reported, from 1.
    pub fn number(self) -> u8
        ensures { result ≡ number_of self }
    {
        self as u8
    }
}

impl fmt::Display for Rule {
    ghost output = { λ rule. Some (decimal (number_of rule)) };

    fn fmt<W: fmt::Write>(&self, f: &mut fmt::Formatter<W>) -> fmt::Result {
        write!(f, "{}", self.number())
    }
}
