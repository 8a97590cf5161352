ghost use Rattle.std.specs.Prelude.{◌≡◌};

use sp_rounds::{ClaimTable, Claimer, Grant};
use std::alloc::{AllocError, Global};
use std::test::Fail;
use std::thread::{Threads, join};

// The grants of claims of a slot for rounds 1, 1, 2 and 1.
fn grants(alloc: Global) -> Result<[Option<Grant>; 4], AllocError> {
    let (table, mut claimer) = ClaimTable::new(alloc, 1)?;
    Ok([
        table.claim(&mut claimer, 0, 1),
        table.claim(&mut claimer, 0, 1),
        table.claim(&mut claimer, 0, 2),
        table.claim(&mut claimer, 0, 1),
    ])
}

#[test]
fn claims(rt: HostRuntime) -> Result<(), Fail> {
    let first = Grant { slot: 0, round: 1 };
    let second = Grant { slot: 0, round: 2 };
    assert!(rt; grants(rt.alloc())? == [Some(first), None, Some(second), None]);
    Ok(())
}

#[test]
fn round_0_is_never_granted(rt: HostRuntime) -> Result<(), Fail> {
    let (table, mut claimer) = ClaimTable::new(rt.alloc(), 2)?;
    assert!(rt; table.claim(&mut claimer, 1, 0).is_none());
    table.check(&mut claimer);
    assert!(rt; table.claim(&mut claimer, 1, u64::MAX).is_some());
    Ok(())
}

// Claims each slot for round 1, and returns which claims were granted.
fn claim_each(table: &ClaimTable, claimer: Claimer) -> (Claimer, [bool; 64])
    requires table { claimer.table ≡ table.now }
    requires slots { table.now.words ≡ 64 }
    ensures { result.0.table ≡ table.now }
{
    let mut claimer = claimer;
    let mut granted = [false; 64];
    for slot in 0..64 {
        granted[slot as usize] = table.claim(&mut claimer, slot, 1).is_some();
    }
    (claimer, granted)
}

// The grants of two threads that claim each slot, and the grants of the claimer that joins theirs.
fn claim_by_two<R: Threads + Sync>(
    rt: &R,
    table: &ClaimTable,
    claimer: Claimer,
) -> Option<[[bool; 64]; 3]>
    requires table { claimer.table ≡ table.now }
    requires slots { table.now.words ≡ 64 }
{
    let (first, second) = table.split(claimer).ok()?;
    let (mine, theirs) = join(
        rt,
        || -> (Claimer, [bool; 64])
            requires { (first.table ≡ table.now) × (table.now.words ≡ 64) }
            ensures { result.0.table ≡ table.entry.now }
        { claim_each(table, first) },
        || -> (Claimer, [bool; 64])
            requires { (second.table ≡ table.now) × (table.now.words ≡ 64) }
            ensures { result.0.table ≡ table.entry.now }
        { claim_each(table, second) },
    );
    let (first, mine) = mine;
    let (second, theirs) = theirs;
    let claimer = table.join(first, second);
    let (_, again) = claim_each(table, claimer);
    Some([mine, theirs, again])
}

#[test]
fn two_threads_claim_each_slot_once(rt: HostRuntime) -> Result<(), Fail> {
    let (table, claimer) = ClaimTable::new(rt.alloc(), 64)?;
    let [mine, theirs, again] = claim_by_two(&rt, &table, claimer).ok_or("split refused")?;
    for slot in 0..64 {
        assert!(rt; mine[slot] != theirs[slot]);
    }
    assert!(rt; again == [false; 64]);
    Ok(())
}
