//! Trees of several pages.
ghost use Rattle.std.specs.Prelude.{◌≤◌, ◌^◌};

use sp_device::{UpToWriter, WriteFault};
use sp_files::{Tree, write_tree, write_tree_in_pages};
use std::alloc::{AllocError, Global};
use std::test::Fail;

// More bytes than the text of any tree here has.
const AMPLE: usize = 1 << 20;

// The rows of a page.
const PAGE_ROWS: usize = 8192;

// A tree whose rows are the vertices up to `n` but for each thousandth, with distances of six digits to eleven.
fn tall(alloc: Global, n: u32) -> Result<Tree<28>, AllocError> {
    let mut tree = Tree::<28>::bare(alloc, 100_000, 1);
    for vertex in 1..100_000 {
        let pred = vertex / 2;
        if vertex > n || vertex % 1000 == 999 {
            continue;
        }
        if tree.last() < vertex && vertex <= tree.n() && pred <= tree.n() {
            tree.push_row(vertex, vertex as u64 * 600_000, pred)?;
        }
    }
    Ok(tree)
}

// How many bytes stand up to each LF behind which a page begins, of the problem line and of each page.
fn ends_of_pages(alloc: Global, text: &[u8]) -> Result<Vec<usize>, AllocError> {
    let mut ends = Vec::new(alloc);
    let mut lines = 0usize;
    for (place, byte) in text.iter().enumerate() {
        if *byte == b'\n' {
            if lines % PAGE_ROWS == 0 {
                ends.push(place)?;
            }
            lines = lines.wrapping_add(1);
        }
    }
    Ok(ends)
}

// Whether a tree is written in pages as it is line by line.
fn is_same(alloc: Global, tree: &Tree<28>) -> bool {
    let mut by_lines = UpToWriter::new(alloc, AMPLE, AMPLE);
    let mut by_pages = UpToWriter::new(alloc, AMPLE, 50_000);
    let told = write_tree(tree, &mut by_lines);
    told == Ok(by_lines.taken().len() as u64)
        && write_tree_in_pages(alloc, tree, &mut by_pages) == told
        && by_pages.taken() == by_lines.taken()
}

#[test]
fn same_bytes(rt: HostRuntime) -> Result<(), Fail> {
    let alloc = rt.alloc();
    for n in [1, 2, 600, 8199, 8200, 8201, 30_000] {
        let tree = tall(alloc, n)?;
        assert!(rt; is_same(alloc, &tree));
    }
    Ok(())
}

// Whether a device that closes where it has no more room keeps so much of the text of a tree.
fn stands(alloc: Global, tree: &Tree<28>, text: &[u8], room: usize) -> bool
    requires { room ≤ 2 ^ 62 }
{
    let mut out = UpToWriter::new(alloc, room, AMPLE);
    let told = write_tree_in_pages(alloc, tree, &mut out);
    told == Err(WriteFault) && Some(out.taken()) == text.get(..room)
}

// Closes the device before and behind each place where a page ends.
#[test]
fn closed_between_pages(rt: HostRuntime) -> Result<(), Fail> {
    let alloc = rt.alloc();
    let tree = tall(alloc, 30_000)?;
    let mut whole = UpToWriter::new(alloc, AMPLE, AMPLE);
    assert!(rt; write_tree(&tree, &mut whole).is_ok());
    let text = whole.taken();
    let ends = ends_of_pages(alloc, text)?;
    assert!(rt; ends.len() == 4);
    for end in ends {
        assert!(rt; end < AMPLE);
        for room in end..end + 3 {
            assert!(rt; stands(alloc, &tree, text, room));
        }
    }
    Ok(())
}
