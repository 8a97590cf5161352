use sp_device::UpTo;
use sp_files::read_tree;
use sp_text::DimacsError;
use sp_word::Word;

// A tree takes no memory by the number of its vertices.
#[test]
fn nothing_reached(rt: HostRuntime) -> Result<(), DimacsError> {
    let text = b"p spt 4294967294 1\ne 0\n";
    let tree = read_tree::<32, _>(rt.alloc(), &mut UpTo::whole(text))?;
    assert_eq!(rt; (tree.n(), tree.rows().len()), (4_294_967_294, 0));
    let n = tree.n();
    assert!(rt; tree.word(n) == Word::unreached());
    assert!(rt; tree.word(1) == Word::unreached());
    Ok(())
}
