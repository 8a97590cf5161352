//! The theorems that tie a table's steps to the step machine.
ghost use Rattle.sp_replay.specs.CallerRuns.{EveryInterleavingIsARun, EveryEndIsARun};

use sp_offer::Lawful;

/// States that every interleaving of the steps of offers and reads is a run of the step machine from unreached words.
/// The machine's actors have the callers' calls as their items, and each of its steps finds the word that the caller's step
/// found. The calls that it finishes are those that ended, in the same order, and it ends in the words to which they led.
pub fn every_interleaving_is_a_run()
    ensures { EveryInterleavingIsARun }
{}

/// States the same of a table closed by `OfferTable::close`: the steps that its callers made are a run of the machine, with an
/// actor for each caller and all calls made at the table. The run ends in the words that are left. An offer by `OneMin` counts
/// as a load and an exchange with nothing between them; all other steps are those that were made.
pub fn every_end_is_a_run<L: Lawful>()
    ensures { EveryEndIsARun L.allows }
{}
