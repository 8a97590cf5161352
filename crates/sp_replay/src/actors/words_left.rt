//! The words that a programme's offers leave.
ghost use Rattle.std.specs.Prelude.{IfOk};
ghost use Rattle.sp_replay.specs.Least.{AreLeast};
ghost use Rattle.sp_replay.specs.Ran.{AreLeftByRun};

use crate::actors::law::OffersOf;
use crate::actors::threads::offer_rows;
use sp_machine::Programme;
use sp_offer::OfferTable;
use sp_word::Word;
use std::alloc::{AllocError, Global};
use std::thread::Threads;

/// Makes the offers of all actors of a programme on a table whose words are all unreached, and returns the words that
/// are left, that of vertex 1 first. Items of a programme that read or relax are skipped.
///
/// The offers of each actor are made on a thread of its own, or by the calling thread if none can be started. The
/// contract doesn't speak of threads: the words are the least of the offers, whoever makes them and in whatever order.
/// Whoever made them, step by step it was a run of the step machine, which ends in these words.
pub fn final_words<const P: u32, R: Threads + Sync>(
    rt: &R,
    alloc: Global,
    programme: &Programme<P>,
) -> Result<Vec<Word<P>>, AllocError>
    ensures words { IfOk result (λ words. AreLeast programme.now words.items) }
    ensures run { IfOk result (λ words. AreLeftByRun programme.now words.items) }
{
    let count = programme.words();
    let (table, caller) = OfferTable::<OffersOf<P>, P>::new(alloc, count, OffersOf { programme })?;
    let caller = offer_rows(rt, &table, caller, programme, 0, programme.actors());
    let words = table.close(alloc, caller)?;
    Ok(words)
}
