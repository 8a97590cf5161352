//! Laws about packed texts.
ghost use Rattle.std.specs.Prelude.{◌≡◌, ◌≢◌, ◌+◌, ◌*◌, ◌++◌, ℕ, List, [], Bool, Some, length};
ghost use Rattle.std.specs.List.Sorted.{IsPermutation};
ghost use Rattle.sp_paths.specs.Paths.{Graph};
ghost use Rattle.sp_packed.specs.declared.faults.PackedFault.{PackedFault};
ghost use Rattle.sp_packed.specs.declared.faults.PackedKind.TheVariants.{Memory, Read};
ghost use Rattle.sp_packed.specs.Packed.{packed_text, IsPackable, IsWithin};
ghost use Rattle.sp_packed.specs.Faults.{Tells};

/// States that graphs with the same arcs, in any order, have the same packed text.
pub fn a_graph_has_one_text()
    ensures { (g h : Graph) → g.n ≡ h.n → IsPermutation g.arcs h.arcs
        → packed_text g ≡ packed_text h }
{}

/// States that graphs with the same packed text have the same arcs.
pub fn a_text_has_one_graph()
    ensures { (g h : Graph) → IsPackable g → IsPackable h → packed_text g ≡ packed_text h
        → (g.n ≡ h.n) × IsPermutation g.arcs h.arcs }
{}

/// States how many bytes a packed text has.
pub fn a_text_has_its_length()
    ensures { (g : Graph) → length (packed_text g) ≡ 4 * (g.n + 2 * length g.arcs + 9) }
{}

/// States that no packed text begins with another one.
pub fn no_text_begins_another()
    ensures { (g h : Graph) (more : List ℕ) → IsPackable g → IsPackable h
        → packed_text h ≡ packed_text g ++ more → more ≡ [] }
{}

/// States that a text with a reported fault is no packed text, unless the fault is Memory or Read.
pub fn a_faulty_text_is_none()
    ensures { (top most : ℕ) (came more : List ℕ) (has_failed : Bool) (e : PackedFault)
        → Tells top most came (Some more) has_failed e → e.kind ≢ Memory → e.kind ≢ Read
        → (g : Graph) → IsPackable g → IsWithin top most g → packed_text g ≡ came ++ more → ⊥ }
{}
