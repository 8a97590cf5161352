//! Laws about the values that texts spell.
ghost use Rattle.std.specs.Prelude.{◌≡◌, ◌*◌, ◌^◌, ℕ};
ghost use Rattle.sp_dimacs.specs.declared.formats.TheConstants.{MOST_ARCS, MOST_ARCS_BOTH_WAYS};
ghost use Rattle.sp_text.specs.Formats.{ranges_of};
ghost use Rattle.sp_text.specs.Text.{judge};
ghost use Rattle.sp_text.specs.Collecting.{SpelledBy};
ghost use Rattle.sp_text.specs.Whole.{IsSpelled};
ghost use Rattle.sp_dimacs.specs.Formats.{gr, ss, pairs};
ghost use Rattle.sp_dimacs.specs.Graph.{IsGraph, IsNetwork};
ghost use Rattle.sp_dimacs.specs.Sources.{AreSources, AreSourcesWithin};
ghost use Rattle.sp_dimacs.specs.Pairs.{ArePairs, ArePairsWithin};
ghost use Rattle.sp_dimacs.specs.declared.graphs.GrFile.{GrFile};
ghost use Rattle.sp_dimacs.specs.declared.sources.SsFile.{SsFile};
ghost use Rattle.sp_dimacs.specs.declared.pairs.PairsFile.{PairsFile};

/// States how many arcs a text may announce: 2^30, or half as many if each leads both ways.
pub fn most_arcs_of_a_text()
    ensures most { MOST_ARCS ≡ 2 ^ 30 }
    ensures both_ways { 2 * MOST_ARCS_BOTH_WAYS ≡ MOST_ARCS }
{}

/// States that every graph spelled by a text is within the limits of the layout.
pub fn spelled_graph_is_within()
    ensures { (P : ℕ) (file : GrFile)
        → IsSpelled (judge gr (ranges_of P)) (SpelledBy gr IsGraph) file → IsNetwork P file }
{}

/// States that the sources spelled by a text are within the limits of the layout.
pub fn spelled_sources_are_within()
    ensures { (P : ℕ) (file : SsFile)
        → IsSpelled (judge ss (ranges_of P)) (SpelledBy ss AreSources) file
        → AreSourcesWithin P file }
{}

/// States that the pairs spelled by a text are within the limits of the layout.
pub fn spelled_pairs_are_within()
    ensures { (P : ℕ) (file : PairsFile)
        → IsSpelled (judge pairs (ranges_of P)) (SpelledBy pairs ArePairs) file
        → ArePairsWithin P file }
{}
