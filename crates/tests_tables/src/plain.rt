//! The plain program.

use sp_judge::{Answer, plain_tree};
use std::process::Abort;
use std::test::Fail;
use tests_samples::{DIAMOND, Triple, graph_of, long_path};

// The answer for a source of the graph of these arcs, given by tail, head and length, in words of 28 bits of predecessor.
fn answer(
    rt: &(impl Abort + AllocGlobal),
    n: u32,
    arcs: &[Triple],
    source: u32,
) -> Result<Answer<28>, Fail> {
    assert!(rt; 1 <= source && source <= n && n <= 1000);
    let graph = graph_of(rt.alloc(), n, arcs)?;
    Ok(plain_tree(rt.alloc(), &graph, source)?)
}

// Whether the answer is the tree with these distances and predecessors.
fn is_tree(answer: &Answer<28>, want: &[(u64, u32)]) -> bool {
    let Answer::Tree(words) = answer else {
        return false;
    };
    words.len() == want.len()
        && words.iter().zip(want).all(|(word, want)| word.dist() == Some(want.0)
            && word.pred() == Some(want.1))
}

#[test]
fn diamond(rt: HostRuntime) -> Result<(), Fail> {
    let told = answer(&rt, 4, &DIAMOND, 1)?;
    assert!(rt; is_tree(&told, &[(0, 0), (3, 1), (3, 1), (5, 2)]));
    Ok(())
}

#[test]
fn beyond_the_limit(rt: HostRuntime) -> Result<(), Fail> {
    let told = answer(&rt, 18, &long_path(rt.alloc(), 15)?, 1)?;
    assert!(rt; told == Answer::TooFar(18));
    Ok(())
}
