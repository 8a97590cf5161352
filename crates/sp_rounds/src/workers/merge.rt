//! Merges two groups of workers.
ghost use Rattle.std.specs.Prelude.{◌≡◌, ℕ, ◌<◌, IfOk, IfErr};
ghost use Rattle.sp_offer.specs.Order.{lawful};
ghost use Rattle.sp_rounds.specs.Work.{AreOf, IsMerged, caller_of, claimer_of};
ghost use Rattle.sp_rounds.specs.Rounds.{JoinsTokens, JoinsTokensOf, JoinsDone, CountsBoth};

use crate::table::ClaimTable;
use crate::workers::{Done, RoundRefused};
use sp_offer::{Lawful, OfferTable};

/// The result of a group of workers. It is a refusal if there was no memory to merge two groups.
pub(crate) type Worked = Result<Done, RoundRefused>;

/// Returns the caller and the claimer of a group, whether or not it succeeded.
fn tokens_of(group: Worked) -> RoundRefused
    ensures caller { result.caller ≡ caller_of group }
    ensures claimer { result.claimer ≡ claimer_of group }
{
    match group {
        Ok(done) => RoundRefused {
            caller: done.caller,
            claimer: done.claimer,
        },
        Err(refused) => refused,
    }
}

/// Joins two callers into one, and two claimers into one.
fn join_tokens<L: Lawful, const P: u32>(
    table: &OfferTable<L, P>,
    claims: &ClaimTable,
    first: RoundRefused,
    second: RoundRefused,
) -> RoundRefused
    requires slots { 0 < claims.now.words }
    requires first { AreOf table.now.id claims.now first.caller first.claimer }
    requires second { AreOf table.now.id claims.now second.caller second.claimer }
    ensures { JoinsTokens P L.allows table.now first second result }
{
    RoundRefused {
        caller: table.join(first.caller, second.caller),
        claimer: claims.join(first.claimer, second.claimer),
    }
}

/// Merges two groups that have ended.
fn merge_done<L: Lawful, const P: u32>(
    table: &OfferTable<L, P>,
    claims: &ClaimTable,
    mine: Done,
    theirs: Done,
) -> Worked
    requires slots { 0 < claims.now.words }
    requires mine { AreOf table.now.id claims.now mine.caller mine.claimer }
    requires theirs { AreOf table.now.id claims.now theirs.caller theirs.claimer }
    ensures joined { IfOk result (λ d. JoinsDone P L.allows table.now mine theirs d) }
    ensures started { IfOk result (λ d. CountsBoth mine theirs d) }
    ensures refused { IfErr result (λ r. JoinsTokensOf P L.allows table.now mine theirs r) }
{
    let RoundRefused { caller, claimer } = join_tokens(
        table,
        claims,
        RoundRefused {
            caller: mine.caller,
            claimer: mine.claimer,
        },
        RoundRefused {
            caller: theirs.caller,
            claimer: theirs.claimer,
        },
    );
    let mut receipts = mine.receipts;
    let mut found = mine.found;
    let mut more_receipts = theirs.receipts;
    let mut more_found = theirs.found;
    if receipts.append(&mut more_receipts).is_err() || found.append(&mut more_found).is_err() {
        return Err(RoundRefused { caller, claimer });
    }
    Ok(Done {
        caller,
        claimer,
        receipts,
        found,
        started: mine.started.saturating_add(theirs.started),
    })
}

/// Merges the results of two groups of workers.
pub(crate) fn merge<L: Lawful, const P: u32>(
    table: &OfferTable<L, P>,
    claims: &ClaimTable,
    mine: Worked,
    theirs: Worked,
) -> Worked
    requires slots { 0 < claims.now.words }
    requires mine { AreOf table.now.id claims.now (caller_of mine) (claimer_of mine) }
    requires theirs { AreOf table.now.id claims.now (caller_of theirs) (claimer_of theirs) }
    ensures { IsMerged (lawful P (L.allows table.now.law)) mine theirs result }
{
    match (mine, theirs) {
        (Ok(mine), Ok(theirs)) => merge_done(table, claims, mine, theirs),
        (mine, theirs) => Err(join_tokens(table, claims, tokens_of(mine), tokens_of(theirs))),
    }
}
