//! The theorems about several sources. Each is the contract of a function that does nothing.

ghost use Rattle.sp_paths.specs.ForestLaws.{
  ClosedShowsWithin,
  FinishedIsForest,
  FinishedIsFar,
  NearestIsLeastOfAll,
  ForestsExist,
  ForestsAreOne,
  ForestOfOneIsTree,
  SourcesAreASet,
  ForestHasRoots,
  PartHasRoots,
};

/// States what the table of a run means if every arc is relaxed up to a limit.
pub fn closed_table()
    ensures { ClosedShowsWithin }
{}

/// States what the table of a run means once every arc is relaxed.
pub fn finished_forest()
    ensures is_forest { FinishedIsForest }
    ensures is_far { FinishedIsFar }
{}

/// States what the definitions mean: a distance is the least of the least lengths from each source; every list of vertices has
/// exactly one answer; the forest of one source is its tree; and the list of sources is a set.
pub fn forest_meanings()
    ensures least { NearestIsLeastOfAll }
    ensures some { ForestsExist }
    ensures one { ForestsAreOne }
    ensures tree { ForestOfOneIsTree }
    ensures set { SourcesAreASet }
{}

/// States that in a forest, and in its part within a distance, the chain of predecessors of each reached vertex begins at one
/// source, and that the vertex's distance is the least length from this source.
pub fn roots()
    ensures forest { ForestHasRoots }
    ensures part { PartHasRoots }
{}
