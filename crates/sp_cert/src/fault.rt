//! Faults, and the earlier of two.
ghost use Rattle.std.specs.Prelude.{◌≡◌};
ghost use Rattle.sp_cert.specs.Faults.{is_later, earlier_of};

use crate::rule::Rule;

/// A rule that fails at a vertex.
#[derive(Clone, Copy)]
pub struct BrokenRule {
    pub vertex: u32,
    pub rule: Rule,
}

// Returns whether the second fault comes before the first: by vertex, then by rule.
fn comes_later(first: BrokenRule, second: BrokenRule) -> bool
    ensures { result ≡ is_later first second }
{
    second.vertex < first.vertex
        || (second.vertex == first.vertex && second.rule.number() < first.rule.number())
}

/// Returns the earlier of two faults, each of which may be missing.
pub fn earlier(first: Option<BrokenRule>, second: Option<BrokenRule>) -> Option<BrokenRule>
    ensures { result ≡ earlier_of first second }
{
    match (first, second) {
        (Some(f), Some(g)) => if comes_later(f, g) { Some(g) } else { Some(f) },
        (Some(f), None) => Some(f),
        (None, other) => other,
    }
}
