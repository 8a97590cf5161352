//! Numbers that may not be vertices of a graph.
ghost use Rattle.std.specs.Prelude.{◌≤◌, All, IfSome, IfNone};
ghost use Rattle.sp_jobs.specs.Vertices.{IsFirstAbove};

/// Returns the first of these numbers that is above `n`, or `None` if there is none.
pub fn first_above(numbers: &[u32], n: u32) -> Option<u32>
    ensures first { IfSome result (IsFirstAbove n numbers.now) }
    ensures none { IfNone result (All (λ v. v ≤ n) numbers.now) }
{
    for number in numbers {
        if *number > n {
            return Some(*number);
        }
    }
    None
}
