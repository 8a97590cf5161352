//! Files of several trees, cut by their device anywhere.
use crate::answers::fault;
use sp_device::UpTo;
use sp_files::TreeBlocks;
use sp_text::{DimacsError, Kind};

const BLOCKS: &[u8] = b"p spt 2 1\nv 1 0 0\nv 2 7 1\ne 2\np spt 2 2\nv 2 0 0\ne 1\n";

// Returns the number of vertices of the next tree, its source, and the number of its rows.
fn next(
    blocks: &mut TreeBlocks<28>,
    device: &mut UpTo,
) -> Result<Option<(u32, u32, usize)>, DimacsError> {
    match blocks.next(device)? {
        Some(tree) => Ok(Some((tree.n(), tree.source(), tree.rows().len()))),
        None => Ok(None),
    }
}

#[test]
fn cut_anywhere(rt: HostRuntime) {
    for most in 1..60 {
        let mut device = UpTo::in_pieces(BLOCKS, most);
        let mut blocks = TreeBlocks::<28>::new(rt.alloc());
        for want in [Some((2, 1, 2)), Some((2, 2, 1)), None, None] {
            assert_eq!(rt; next(&mut blocks, &mut device), Ok(want));
        }
    }
}

// The fault names the line being read when the device fails, in the second block, and the next call reports it again.
#[test]
fn failing_anywhere(rt: HostRuntime) {
    for (end, line) in [
        (30, 5),
        (39, 5),
        (40, 6),
        (47, 6),
        (48, 7),
        (51, 7),
        (52, 8),
    ] {
        let mut device = UpTo::failing(&BLOCKS[..end]);
        let mut blocks = TreeBlocks::<28>::new(rt.alloc());
        assert!(rt; next(&mut blocks, &mut device) == Ok(Some((2, 1, 2))));
        if end == BLOCKS.len() {
            assert!(rt; next(&mut blocks, &mut device) == Ok(Some((2, 2, 1))));
        }
        let failed = Err(fault(line, Kind::Read));
        assert!(rt; next(&mut blocks, &mut device) == failed);
        assert!(rt; next(&mut blocks, &mut device) == failed);
    }
}
