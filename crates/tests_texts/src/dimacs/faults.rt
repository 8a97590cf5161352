use super::counts::is_read;
use crate::answers::{failed_behind, fault};
use sp_device::UpTo;
use sp_dimacs::{Kind, read_gr};
use std::test::Fail;
use tests_samples::{DIAMOND, DIAMOND_GR, arcs_of};

#[test]
fn failing_reader(rt: HostRuntime) {
    let alloc = rt.alloc();
    let second = read_gr::<28, _>(alloc, &mut UpTo::failing(b"p sp 1 0\n"));
    assert!(rt; second.err() == Some(fault(2, Kind::Read)));
    let early = read_gr::<28, _>(alloc, &mut UpTo::failing(b"a 1 2 3\n"));
    assert!(rt; early.err() == Some(fault(1, Kind::NoProblem)));
}

#[test]
fn failing_after_each_byte(rt: HostRuntime) {
    let text = DIAMOND_GR.as_bytes();
    assert!(rt; text.len() == 49);
    for k in 0..50 {
        let file = read_gr::<28, _>(rt.alloc(), &mut UpTo::failing(&text[..k]));
        assert!(rt; file.err() == Some(failed_behind(&text[..k])));
    }
}

#[test]
fn diamond(rt: HostRuntime) -> Result<(), Fail> {
    let alloc = rt.alloc();
    let arcs = arcs_of(alloc, 4, &DIAMOND)?;
    let text = DIAMOND_GR.as_bytes();
    assert!(rt; text.len() == 49);
    for most in 1..50 {
        let file = read_gr::<28, _>(alloc, &mut UpTo::in_pieces(text, most));
        assert!(rt; is_read(file, &arcs));
    }
    Ok(())
}
