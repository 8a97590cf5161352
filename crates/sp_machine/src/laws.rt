//! The theorems about every run, for any programme and any interleaving.
ghost use Rattle.sp_machine.specs.Theorems.{EveryRunIsLinear, LossesAreBounded, ClosedRunEndsInTree};
ghost use Rattle.sp_machine.specs.OfferSteps.{OfferStepsAreTheMachines};

/// States that every run is linear: its finished calls, each taken at one step between its first and its last, are a
/// legal history of a table of least offers, which ends in the machine's words. (Herlihy and Wing, "Linearizability",
/// ACM TOPLAS 12 (1990), section 2.)
pub fn every_run_is_linear()
    ensures { EveryRunIsLinear }
{}

/// States that with K actors the lost exchanges of a run number at most K - 1 times the won ones.
pub fn losses_are_bounded()
    ensures { LossesAreBounded }
{}

/// States that every closed run of relaxations and reads that opens at a source ends in the shortest-path tree from
/// there: each vertex whose least length a word can hold has its word in the tree, and every other vertex is unreached.
/// The graph's arcs are those of the relaxation items.
pub fn closed_run_ends_in_tree()
    ensures { ClosedRunEndsInTree }
{}

/// States that the machine's step at an offer is the step of an offer on one word, which the contracts of running offers
/// also use: the same stage follows, and the same word is left.
pub fn offer_steps_are_the_machines()
    ensures { OfferStepsAreTheMachines }
{}
