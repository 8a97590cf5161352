//! Laws about the networks spelled by texts.
ghost use Rattle.std.specs.Prelude.{◌≡◌, ℕ, List, true, false};
ghost use Rattle.std.specs.List.Sorted.{IsPermutation};
ghost use Rattle.sp_word.specs.Word.{max_pred};
ghost use Rattle.sp_paths.specs.Paths.{Graph};
ghost use Rattle.sp_dimacs.specs.declared.graphs.GrFile.{GrFile};
ghost use Rattle.sp_dimacs.specs.Graph.{SpellsUpTo, graph_of};
ghost use Rattle.sp_packed.specs.Packed.{is_packed, packed_text, IsPackable, IsWithin};
ghost use Rattle.sp_network.specs.Turned.{IsTurned, IsBothWays};
ghost use Rattle.sp_network.specs.declared.directions.Direction.TheVariants.{AsGiven, Towards, BothWays};
ghost use Rattle.sp_network.specs.Network.{directed, SpellsNetwork};

/// States that a text of lines that spells a graph isn't packed, and that it spells this network.
pub fn lines_spell_their_network()
    ensures unpacked { (P most : ℕ) (text : List ℕ) (file : GrFile)
        → SpellsUpTo P most text file → is_packed text ≡ false }
    ensures spelled { (P most : ℕ) (text : List ℕ) (file : GrFile)
        → SpellsUpTo P most text file → SpellsNetwork P most text file }
{}

/// States that the packed text of a graph is packed, and that it spells this network if the network is within the limits.
pub fn words_spell_their_network()
    ensures packed { (g : Graph) → is_packed (packed_text g) ≡ true }
    ensures spelled { (P most : ℕ) (file : GrFile) → IsPackable (graph_of file)
        → IsWithin (max_pred P) most (graph_of file)
        → SpellsNetwork P most (packed_text (graph_of file)) file }
{}

/// States that two networks spelled by the same text have the same arcs.
pub fn a_text_spells_one_network()
    ensures { (P most : ℕ) (text : List ℕ) (f g : GrFile)
        → SpellsNetwork P most text f → SpellsNetwork P most text g
        → (f.n ≡ g.n) × IsPermutation f.arcs.items g.arcs.items }
{}

/// States that the graph of a direction is the graph itself, the one made by `turned`, or the one made by
/// `both_ways`, up to the order of arcs.
pub fn directions_are_those_of_graphs()
    ensures given { (g : Graph) → directed AsGiven g ≡ g }
    ensures towards { (g : Graph) → IsTurned g (directed Towards g) }
    ensures both { (g : Graph) → IsBothWays g (directed BothWays g) }
{}
