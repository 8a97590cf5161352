//! A run on the calling thread alone.

use sp_serial::{RunRequest, Until, words_alone};
use sp_word::Word;
use std::test::Fail;
use tests_samples::{DIAMOND, graph_of};

#[test]
fn diamond(rt: HostRuntime) -> Result<(), Fail> {
    let graph = graph_of(rt.alloc(), 4, &DIAMOND)?;
    assert!(rt; graph.n() == 4);
    let want = [
        Word::pack(0, 0),
        Word::pack(3, 1),
        Word::pack(3, 1),
        Word::pack(5, 2),
    ];
    let run = RunRequest {
        sources: &[1],
        until: Until::All,
    };
    let told = words_alone::<28>(rt.alloc(), &graph, run);
    assert!(rt;
        matches!(&told, Ok(made) if made.words.as_slice() == want.as_slice() && made.far.is_none())
    );
    Ok(())
}
