//! The slots of pairs.
use crate::asking::PairState;
use sp_answer::{PairAnswer, RouteAnswer};
use std::mem::size_of;
use std::test::Fail;

#[test]
fn bytes_of_a_slot(rt: HostRuntime) -> Result<(), Fail> {
    assert_eq!(&rt; size_of::<PairAnswer>(), 16);
    assert_eq!(&rt; size_of::<PairState<PairAnswer>>(), 24);
    assert_eq!(&rt; size_of::<RouteAnswer>(), 40);
    assert_eq!(&rt; size_of::<PairState<RouteAnswer>>(), 48);
    Ok(())
}
