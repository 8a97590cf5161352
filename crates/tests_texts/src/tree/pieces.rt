use super::counts::{cut_off, diamond, fed, fed_by, is_read};
use crate::answers::{failed_behind, fault, told};
use sp_device::{Read, UpTo};
use sp_files::{Tree, TreeReader, read_tree};
use sp_text::Kind;
use std::test::Fail;
use tests_samples::{ALONE_TREE, DIAMOND_TREE};

// Whether a reader that is fed these two pieces reads the tree of four vertices.
fn has_tree(reader: &mut TreeReader<28>, front: &[u8], rest: &[u8], same: &Tree<28>) -> bool {
    reader.feed(front).is_ok() && reader.feed(rest).is_ok() && is_read(reader.finish(), same)
}

#[test]
fn cut_anywhere(rt: HostRuntime) -> Result<(), Fail> {
    let alloc = rt.alloc();
    let same = diamond(alloc)?;
    let text = DIAMOND_TREE.as_bytes();
    assert!(rt; text.len() == 46);
    let mut reader = TreeReader::<28>::new(alloc);
    for k in 0..47 {
        assert!(rt; has_tree(&mut reader, &text[..k], &text[k..], &same));
    }
    for size in 1..48 {
        assert!(rt; is_read(fed_by(&mut reader, text, size), &same));
    }
    Ok(())
}

#[test]
fn refused_once_and_for_all(rt: HostRuntime) {
    let many = fault(4, Kind::TooMany);
    let mut reader = TreeReader::<28>::new(rt.alloc());
    assert!(rt; reader.feed(ALONE_TREE.as_bytes()) == Ok(()));
    assert!(rt; reader.feed(b"x") == Err(many));
    assert!(rt; reader.feed(b"\n") == Err(many));
    assert!(rt; reader.finish().err() == Some(many));
    assert!(rt; reader.fail() == many);
}

#[test]
fn long_lines(rt: HostRuntime) {
    let alloc = rt.alloc();
    let mut long = [b'9'; 1100];
    long[..10].copy_from_slice(b"p spt 1 1\n");
    assert!(rt; fed(alloc, &long, 1) == told(2, Kind::LongLine));
    assert!(rt; fed(alloc, &long, 1100) == told(2, Kind::LongLine));
    assert!(rt; fed(alloc, &long[..1034], 100) == told(2, Kind::TooFew));
    assert!(rt; fed(alloc, &long[..1035], 100) == told(2, Kind::LongLine));
}

// The line that is being read when the device fails, behind each beginning.
#[test]
fn failing_anywhere(rt: HostRuntime) {
    let text = DIAMOND_TREE.as_bytes();
    assert!(rt; text.len() == 46);
    for k in 0..47 {
        let read = failed_behind(&text[..k]);
        assert!(rt; cut_off(rt.alloc(), &text[..k]) == Err(read));
    }
    assert!(rt; failed_behind(text).line == 7);
}

// Of a device that has passed a header the rest is read, and lines are counted from there.
#[test]
fn behind_a_header(rt: HostRuntime) {
    let mut header = [0u8; 5];
    let mut device = UpTo::whole(b"spt1\np spt 2 1\nv 3 0 0\n");
    assert!(rt; device.read(&mut header) == Ok(5));
    let told = read_tree::<28, _>(rt.alloc(), &mut device).err();
    assert!(rt; told == Some(fault(2, Kind::OutOfRange(b'V'))));
}
