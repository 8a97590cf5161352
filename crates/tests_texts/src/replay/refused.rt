use super::written::LOST_EXCHANGE;
use crate::answers::{failed_behind, fault};
use sp_device::UpTo;
use sp_replay::read_replay;
use sp_text::Kind;

#[test]
fn failing_reader(rt: HostRuntime) {
    let alloc = rt.alloc();
    for end in 0..LOST_EXCHANGE.len() {
        let failed = read_replay::<28, UpTo>(alloc, &mut UpTo::failing(&LOST_EXCHANGE[..end]));
        assert!(rt; failed.err() == Some(failed_behind(&LOST_EXCHANGE[..end])));
    }
    let told = read_replay::<28, UpTo>(alloc, &mut UpTo::failing(b"p rep 1 1\nr 1 2\n"));
    assert!(rt; told.err() == Some(fault(2, Kind::OutOfRange(b'V'))));
}
