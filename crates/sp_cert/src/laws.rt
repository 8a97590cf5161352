//! What the rules decide.
ghost use Rattle.sp_cert.specs.Rules.{RulesAreExact, PartRulesAreExact, ForestRulesAreExact};

/// States that the rules hold exactly for the tree of a graph in which no vertex is too far.
pub fn checked_table()
    ensures { RulesAreExact }
{}

/// States that the rules hold exactly for the part of a tree within a limit, and for a forest, with or without a limit.
pub fn checked_forest()
    ensures part { PartRulesAreExact }
    ensures forest { ForestRulesAreExact }
{}
