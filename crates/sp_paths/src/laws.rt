//! The theorems about this crate's definitions. Each is the contract of a function that does nothing.

ghost use Rattle.sp_paths.specs.Theorems.{
  FinishedEndsInTree,
  FinishedIsTree,
  FinishedIsFar,
  FinishedIsPair,
  PassedIsSettled,
  PassedIsPair,
  LeastExists,
  AnswersAreOne,
  FarIsMeant,
  TreesExist,
  PairsExist,
};
ghost use Rattle.sp_paths.specs.Bags.{SameArcsSameAnswers};
ghost use Rattle.sp_paths.specs.Rows.{RowsHoldArcs, LightRowsRelaxed, HeavyRowsRelaxed};
ghost use Rattle.sp_paths.specs.Calls.{ClosedEndsInTree, OneCallMore, OpeningOpens};
ghost use Rattle.sp_paths.specs.Phase.{SweptEndsInTree, SweptIsTree, SweptIsFar, TestedIsSettled, SettledIsLeast, ShorterIsLater, TestedIsPair, SweptIsPair};

/// States what the table of a run means once every arc is relaxed.
pub fn finished_table()
    ensures ends_in_tree { FinishedEndsInTree }
    ensures is_tree { FinishedIsTree }
    ensures is_far { FinishedIsFar }
    ensures is_pair { FinishedIsPair }
{}

/// States what follows once a bucket has passed its test.
pub fn passed_bucket()
    ensures settled { PassedIsSettled }
    ensures pair { PassedIsPair }
{}

/// States what the leader's copy of the words means after a sweep.
pub fn swept_copy()
    ensures ends_in_tree { SweptEndsInTree }
    ensures is_tree { SweptIsTree }
    ensures is_far { SweptIsFar }
    ensures is_pair { SweptIsPair }
{}

/// States what the leader's copy of the words means after a bucket has passed its test.
pub fn tested_copy()
    ensures settled { TestedIsSettled }
    ensures pair { TestedIsPair }
    ensures least { SettledIsLeast }
    ensures later { ShorterIsLater }
{}

/// States that the rows of a graph hold its arcs: whatever was done for each arc of the rows was done for each arc of the graph.
pub fn rows_of_arcs()
    ensures rows { RowsHoldArcs }
    ensures light { LightRowsRelaxed }
    ensures heavy { HeavyRowsRelaxed }
{}

/// States that the arcs of a graph are a bag.
pub fn bag_of_arcs()
    ensures { SameArcsSameAnswers }
{}

/// States that a closed list of relaxations ends in the tree, with any callers and in any order.
pub fn closed_calls()
    ensures ends_in_tree { ClosedEndsInTree }
    ensures one_more { OneCallMore }
    ensures opening { OpeningOpens }
{}

/// States that the definitions determine their answers uniquely.
pub fn meanings()
    ensures least { LeastExists }
    ensures one { AnswersAreOne }
    ensures far { FarIsMeant }
{}

/// States that every source and every target has an answer.
pub fn answers_exist()
    ensures tree { TreesExist }
    ensures pair { PairsExist }
{}
