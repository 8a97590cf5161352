use crate::answers::fault;
use sp_device::UpTo;
use sp_dimacs::{DimacsError, Kind, PairsFile, PairsReader, SsFile, SsReader, read_pairs, read_ss};

const SOURCES: &[u8] = b"c three\np aux sp ss 3\ns 7\n\ns 1\r\ns\t7";

const PAIRS: &[u8] = b"p pairs 3\nq 1 4\nq 1 1\nq 4 1";

// Whether these sources were read.
fn are_sources(file: Result<SsFile, DimacsError>, sources: &[u32]) -> bool {
    match file {
        Ok(file) => file.sources.as_slice() == sources,
        Err(_) => false,
    }
}

// Whether a reader that is fed these two pieces reads these sources.
fn has_sources(reader: &mut SsReader<28>, front: &[u8], rest: &[u8], sources: &[u32]) -> bool {
    let is_fed = reader.feed(front).is_ok() && reader.feed(rest).is_ok();
    is_fed && are_sources(reader.finish(), sources)
}

#[test]
fn sources_of_a_text(rt: HostRuntime) {
    let mut reader = SsReader::<28>::new(rt.alloc());
    for k in 0..SOURCES.len() {
        let (front, rest) = SOURCES.split_at(k);
        assert!(rt; has_sources(&mut reader, front, rest, &[7, 1, 7]));
    }
}

// Whether these pairs were read.
fn are_pairs(file: Result<PairsFile, DimacsError>, pairs: &[(u32, u32)]) -> bool {
    match file {
        Ok(file) => file.pairs.as_slice() == pairs,
        Err(_) => false,
    }
}

// Whether a reader that is fed these two pieces reads these pairs.
fn has_pairs(
    reader: &mut PairsReader<28>,
    front: &[u8],
    rest: &[u8],
    pairs: &[(u32, u32)],
) -> bool {
    let is_fed = reader.feed(front).is_ok() && reader.feed(rest).is_ok();
    is_fed && are_pairs(reader.finish(), pairs)
}

#[test]
fn pairs_of_a_text(rt: HostRuntime) {
    let mut reader = PairsReader::<28>::new(rt.alloc());
    for k in 0..PAIRS.len() {
        let (front, rest) = PAIRS.split_at(k);
        assert!(rt; has_pairs(&mut reader, front, rest, &[(1, 4), (1, 1), (4, 1)]));
    }
}

#[test]
fn devices_with_lists(rt: HostRuntime) {
    let alloc = rt.alloc();
    let list = read_ss::<28, _>(alloc, &mut UpTo::whole(SOURCES));
    assert!(rt; are_sources(list, &[7, 1, 7]));
    let asked = read_pairs::<28, _>(alloc, &mut UpTo::whole(PAIRS));
    assert!(rt; are_pairs(asked, &[(1, 4), (1, 1), (4, 1)]));
}

#[test]
fn failing_readers_of_lists(rt: HostRuntime) {
    let alloc = rt.alloc();
    let second = Some(fault(2, Kind::Read));
    let list = read_ss::<28, _>(alloc, &mut UpTo::failing(b"p aux sp ss 1\ns 1"));
    assert!(rt; list.err() == second);
    let asked = read_pairs::<28, _>(alloc, &mut UpTo::failing(b"p pairs 1\nq 1 2"));
    assert!(rt; asked.err() == second);
}
