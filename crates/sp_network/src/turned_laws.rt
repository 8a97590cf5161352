//! Laws about turned graphs.
ghost use Rattle.std.specs.Prelude.{◌↔◌, ℕ};
ghost use Rattle.sp_paths.specs.Paths.{Graph, HasWalk, IsLeast};
ghost use Rattle.sp_network.specs.Turned.{IsTurned, IsBothWays, HaveSameArcs};

/// States that a graph that is turned twice has its arcs back.
pub fn turned_twice()
    ensures { (g h k : Graph) → IsTurned g h → IsTurned h k → HaveSameArcs g k }
{}

/// States that a graph whose arcs lead both ways keeps its arcs when it is turned.
pub fn both_ways_turned()
    ensures { (g h k : Graph) → IsBothWays g h → IsTurned h k → HaveSameArcs h k }
{}

/// States that a turned graph has a walk of some length from `s` to `v` exactly if the graph has one of the same length from `v`
/// to `s`. The same is true of least lengths.
pub fn turned_walks()
    ensures walks { (g h : Graph) → IsTurned g h → (s v d : ℕ)
        → HasWalk h s v d ↔ HasWalk g v s d }
    ensures least { (g h : Graph) → IsTurned g h → (s v d : ℕ)
        → IsLeast h s v d ↔ IsLeast g v s d }
{}

/// States that, if arcs lead both ways, there is a walk of some length from `s` to `v` exactly if there is one of the same length
/// from `v` to `s`. The same is true of least lengths.
pub fn both_ways_walks()
    ensures walks { (g h : Graph) → IsBothWays g h → (s v d : ℕ)
        → HasWalk h s v d ↔ HasWalk h v s d }
    ensures least { (g h : Graph) → IsBothWays g h → (s v d : ℕ)
        → IsLeast h s v d ↔ IsLeast h v s d }
{}
