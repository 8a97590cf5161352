//! The packed text of the diamond.
ghost use Rattle.std.specs.Prelude.{◌≤◌, ◌^◌, length};

use super::diamond::{DIAMOND, MOST_ARCS, bytes_of, packed};
use sp_device::{UpTo, UpToWriter, WriteFault};
use sp_graph::Graph;
use sp_packed::{read_packed, write_packed};
use std::alloc::{AllocError, Global};
use std::test::Fail;
use tests_samples::graph_of;

// Whether the packed text of the graph with these arcs is this one.
fn is_packed(alloc: Global, arcs: &[(u32, u32, u32)], want: &[u8]) -> Result<bool, AllocError> {
    let graph = graph_of(alloc, 4, arcs)?;
    let bytes = packed(alloc, &graph)?;
    Ok(bytes.as_slice() == want)
}

#[test]
fn in_any_order(rt: HostRuntime) -> Result<(), Fail> {
    let alloc = rt.alloc();
    let want = bytes_of(alloc, &DIAMOND)?;
    for arcs in [
        [(1, 2, 3), (1, 3, 3), (2, 4, 2), (3, 4, 2), (1, 4, 6)],
        [(3, 4, 2), (1, 4, 6), (1, 3, 3), (2, 4, 2), (1, 2, 3)],
    ] {
        let same = is_packed(alloc, &arcs, &want)?;
        assert!(rt; same);
    }
    Ok(())
}

// Whether the text is that of the graph that is read of it.
fn is_own(alloc: Global, text: &[u8]) -> Result<bool, AllocError>
    requires { length text.now ≤ 2 ^ 62 }
{
    match read_packed::<28, _>(alloc, &mut UpTo::whole(text), MOST_ARCS) {
        Ok(graph) => Ok(packed(alloc, &graph)?.as_slice() == text),
        Err(_) => Ok(false),
    }
}

#[test]
fn of_its_own_text(rt: HostRuntime) -> Result<(), Fail> {
    let alloc = rt.alloc();
    let text = bytes_of(alloc, &DIAMOND)?;
    assert!(rt; text.len() == 92);
    let own = is_own(alloc, &text)?;
    assert!(rt; own);
    Ok(())
}

// Whether a device that has no room for all of the text takes a beginning of it.
fn stands(alloc: Global, graph: &Graph, text: &[u8], room: usize) -> bool
    requires within { room ≤ length text.now }
    requires short { length text.now ≤ 2 ^ 62 }
{
    let mut out = UpToWriter::new(alloc, room, 9);
    graph.m() <= 100
        && write_packed(&mut out, graph) == Err(WriteFault)
        && out.taken() == &text[..room]
}

#[test]
fn failing_writer(rt: HostRuntime) -> Result<(), Fail> {
    let alloc = rt.alloc();
    let arcs = [(1, 2, 3), (1, 3, 3), (2, 4, 2), (3, 4, 2), (1, 4, 6)];
    let graph = graph_of(alloc, 4, &arcs)?;
    let text = bytes_of(alloc, &DIAMOND)?;
    assert!(rt; text.len() == 92);
    for room in 0..92 {
        assert!(rt; stands(alloc, &graph, &text, room));
    }
    Ok(())
}
