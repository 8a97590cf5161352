//! Runs from several sources.

use crate::near::runs::{Row, compare_nearest, graph_of, nearest_has};
use sp_answer::RunError;
use std::test::Fail;
use tests_samples::{DIAMOND, Triple, long_path};

// Arcs both ways between neighbours on a line of five vertices.
const LINE: [Triple; 8] = [
    (1, 2, 1),
    (2, 1, 1),
    (2, 3, 1),
    (3, 2, 1),
    (3, 4, 1),
    (4, 3, 1),
    (4, 5, 1),
    (5, 4, 1),
];

#[test]
fn nearest_of_two_sources(rt: HostRuntime) -> Result<(), Fail> {
    let graph = graph_of(&rt, 4, &DIAMOND)?;
    let rows = [(1, 0, 0, 1), (2, 3, 1, 1), (3, 0, 0, 3), (4, 2, 3, 3)];
    nearest_has::<28>(&rt, &graph, &[1, 3], None, &rows)?;
    nearest_has::<28>(&rt, &graph, &[3, 1, 3], None, &rows)?;
    nearest_has::<28>(&rt, &graph, &[1, 3], Some(2), &[rows[0], rows[2], rows[3]])?;
    nearest_has::<28>(&rt, &graph, &[1, 3], Some(1), &[rows[0], rows[2]])?;
    nearest_has::<28>(&rt, &graph, &[], None, &[])?;
    nearest_has::<28>(&rt, &graph, &[], Some(3), &[])?;
    Ok(())
}

#[test]
fn tie_goes_to_the_smaller_predecessor(rt: HostRuntime) -> Result<(), Fail> {
    let graph = graph_of(&rt, 4, &DIAMOND)?;
    let rows = [(2, 0, 0, 2), (3, 0, 0, 3), (4, 2, 2, 2)];
    nearest_has::<28>(&rt, &graph, &[2, 3], None, &rows)?;
    let graph = graph_of(&rt, 3, &[(3, 1, 5), (2, 1, 5)])?;
    let rows = [(1, 5, 2, 2), (2, 0, 0, 2), (3, 0, 0, 3)];
    nearest_has::<28>(&rt, &graph, &[3, 2], None, &rows)?;
    Ok(())
}

// vertex 4 is as far from source 1 as from source 5, and its smaller predecessor is reached from 5
#[test]
fn root_is_where_the_predecessors_lead(rt: HostRuntime) -> Result<(), Fail> {
    let graph = graph_of(&rt, 5, &[(5, 2, 1), (1, 3, 1), (2, 4, 1), (3, 4, 1)])?;
    let rows = [
        (1, 0, 0, 1),
        (2, 1, 5, 5),
        (3, 1, 1, 1),
        (4, 2, 2, 5),
        (5, 0, 0, 5),
    ];
    nearest_has::<28>(&rt, &graph, &[1, 5], None, &rows)?;
    let graph = graph_of(&rt, 5, &LINE)?;
    let rows = [
        (1, 0, 0, 1),
        (2, 1, 1, 1),
        (3, 2, 2, 1),
        (4, 1, 5, 5),
        (5, 0, 0, 5),
    ];
    nearest_has::<28>(&rt, &graph, &[5, 1], None, &rows)?;
    Ok(())
}

#[test]
fn source_keeps_its_own_pair(rt: HostRuntime) -> Result<(), Fail> {
    let graph = graph_of(&rt, 2, &[(1, 2, 1)])?;
    nearest_has::<28>(&rt, &graph, &[1, 2], None, &[(1, 0, 0, 1), (2, 0, 0, 2)])?;
    Ok(())
}

#[test]
fn far_vertex(rt: HostRuntime) -> Result<(), Fail> {
    let arcs = long_path(rt.alloc(), u32::MAX)?;
    let graph = graph_of(&rt, 18, &arcs)?;
    compare_nearest::<28>(&rt, &graph, &[1], None, &Err(RunError::TooFar(18)));
    let mut rows: Vec<Row> = Vec::new(rt.alloc());
    for place in 0..17u32 {
        rows.push((place + 1, u64::from(place) * 4_294_967_295, place, 1))?;
    }
    nearest_has::<28>(&rt, &graph, &[1], Some(68_719_476_734), &rows)?;
    rows.push((18, 0, 0, 18))?;
    nearest_has::<28>(&rt, &graph, &[1, 18], None, &rows)?;
    Ok(())
}

#[test]
fn vertex_at_the_greatest_distance(rt: HostRuntime) -> Result<(), Fail> {
    let graph = graph_of(&rt, 2, &[(1, 2, 4_294_967_294)])?;
    let rows = [(1, 0, 0, 1), (2, 4_294_967_294, 1, 1)];
    nearest_has::<32>(&rt, &graph, &[1], None, &rows)?;
    nearest_has::<32>(&rt, &graph, &[1], Some(4_294_967_294), &rows)?;
    nearest_has::<32>(&rt, &graph, &[1], Some(4_294_967_293), &rows[..1])?;
    Ok(())
}

#[test]
fn some_source_is_no_vertex(rt: HostRuntime) -> Result<(), Fail> {
    let graph = graph_of(&rt, 4, &DIAMOND)?;
    compare_nearest::<28>(&rt, &graph, &[1, 5], None, &Err(RunError::NoSuchVertex));
    compare_nearest::<28>(&rt, &graph, &[0], Some(3), &Err(RunError::NoSuchVertex));
    Ok(())
}
