use super::entries::read_entries;
use crate::answers::fault;
use crate::faulty::Faulty;
use sp_device::OfRead;
use sp_text::Kind;
use std::io::ErrorKind;
use tests_samples::DIAMOND_GR;

#[test]
fn readers_of_std(rt: HostRuntime) {
    let alloc = rt.alloc();
    let whole = read_entries(alloc, &mut OfRead::new(DIAMOND_GR.as_bytes()));
    assert!(rt; whole.is_ok_and(|entries| entries.len() == 5));
    let shaky = Faulty::new(2, 2, ErrorKind::Interrupted);
    let told = read_entries(alloc, &mut OfRead::new(shaky));
    assert!(rt; told.err() == Some(fault(1, Kind::Read)));
}
