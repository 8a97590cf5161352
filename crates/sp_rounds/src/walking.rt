//! What the law of walks allows a task.
ghost use Rattle.sp_rounds.specs.Walking.{WalksAllowArcs};

/// States that under the law of walks the offers of a task are allowed if its distance is the length of a walk to its
/// vertex.
pub fn walks_allow_arcs()
    ensures { WalksAllowArcs }
{}
