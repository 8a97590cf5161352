ghost use Rattle.std.specs.Prelude.{◌≤◌, ◌^◌, length};

use super::counts::diamond;
use sp_device::{UpToWriter, WriteFault};
use sp_files::{Tree, write_far, write_tree};
use sp_word::Word;
use std::alloc::Global;
use std::test::Fail;
use tests_samples::{ALONE_TREE, DIAMOND_TREE};

#[test]
fn alone(rt: HostRuntime) -> Result<(), Fail> {
    let alloc = rt.alloc();
    let tree = Tree::<28>::of_words(alloc, 1, &[Word::pack(0, 0)])?;
    let mut out = UpToWriter::new(alloc, 100, 100);
    assert!(rt; write_tree(&tree, &mut out) == Ok(22));
    assert!(rt; out.taken() == ALONE_TREE.as_bytes());
    Ok(())
}

// Whether a device that has no room for all of a tree's text takes a beginning of it.
fn stands(alloc: Global, tree: &Tree<28>, text: &[u8], room: usize) -> bool
    requires within { room ≤ length text.now }
    requires short { length text.now ≤ 2 ^ 62 }
{
    let mut out = UpToWriter::new(alloc, room, 9);
    write_tree(tree, &mut out) == Err(WriteFault) && out.taken() == &text[..room]
}

#[test]
fn diamonds_block(rt: HostRuntime) -> Result<(), Fail> {
    let alloc = rt.alloc();
    let tree = diamond(alloc)?;
    let text = DIAMOND_TREE.as_bytes();
    assert!(rt; text.len() == 46);
    for room in 0..46 {
        assert!(rt; stands(alloc, &tree, text, room));
    }
    let mut out = UpToWriter::new(alloc, 46, 1);
    assert!(rt; write_tree(&tree, &mut out) == Ok(46));
    assert!(rt; out.taken() == text);
    Ok(())
}

#[test]
fn failing_writer(rt: HostRuntime) -> Result<(), Fail> {
    let alloc = rt.alloc();
    let tree = Tree::<28>::of_words(alloc, 1, &[Word::pack(0, 0)])?;
    let mut out = UpToWriter::new(alloc, 12, 100);
    assert!(rt; write_tree(&tree, &mut out) == Err(WriteFault));
    assert!(rt; out.taken() == b"p spt 1 1\nv ".as_slice());
    Ok(())
}

#[test]
fn too_far(rt: HostRuntime) {
    let alloc = rt.alloc();
    let mut out = UpToWriter::new(alloc, 100, 1);
    assert!(rt; write_far(1, 18, &mut out) == Ok(7));
    assert!(rt; out.taken() == b"x 1 18\n".as_slice());
    let mut short = UpToWriter::new(alloc, 3, 1);
    assert!(rt; write_far(1, 18, &mut short) == Err(WriteFault));
    assert!(rt; short.taken() == b"x 1".as_slice());
}
