use super::counts::{diamond, is_read};
use sp_device::UpTo;
use sp_files::{read_tree, tree_text_is_exact, tree_texts_are_accepted};
use sp_word::Word;
use std::test::Fail;
use tests_samples::{ALONE_TREE, DIAMOND_TREE};

#[test]
fn alone_is_read(rt: HostRuntime) -> Result<(), Fail> {
    let alone = read_tree::<28, _>(rt.alloc(), &mut UpTo::whole(ALONE_TREE.as_bytes()))?;
    assert!(rt; alone.n() == 1 && alone.source() == 1);
    assert!(rt; alone.rows() == [(1, Word::pack(0, 0))].as_slice());
    Ok(())
}

#[test]
fn diamond_is_read(rt: HostRuntime) -> Result<(), Fail> {
    let alloc = rt.alloc();
    let same = diamond(alloc)?;
    let text = DIAMOND_TREE.as_bytes();
    assert!(rt; text.len() == 46);
    assert!(rt; is_read(read_tree::<28, _>(alloc, &mut UpTo::whole(text)), &same));
    tree_texts_are_accepted();
    tree_text_is_exact();
    Ok(())
}
