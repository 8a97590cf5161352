//! Runs within a distance of one source.

use crate::near::runs::{Row, compare_within, graph_of};
use sp_answer::{RunError, part_of};
use sp_run::run_within;
use sp_serial::ByCaller;
use sp_word::{Delta, Team, Workers};
use std::test::Fail;
use tests_samples::{DIAMOND, long_path};

const ROWS: [Row; 4] = [(1, 0, 0, 1), (2, 3, 1, 1), (3, 3, 1, 1), (4, 5, 2, 1)];

#[test]
fn tree_within(rt: HostRuntime) -> Result<(), Fail> {
    let graph = graph_of(&rt, 4, &DIAMOND)?;
    compare_within::<28>(&rt, &graph, 1, 0, &ROWS[..1]);
    compare_within::<28>(&rt, &graph, 1, 2, &ROWS[..1]);
    compare_within::<28>(&rt, &graph, 1, 3, &ROWS[..3]);
    compare_within::<28>(&rt, &graph, 1, 4, &ROWS[..3]);
    compare_within::<28>(&rt, &graph, 1, 5, &ROWS);
    compare_within::<28>(&rt, &graph, 1, 6, &ROWS);
    Ok(())
}

#[test]
fn no_vertex_is_too_far_within(rt: HostRuntime) -> Result<(), Fail> {
    let arcs = long_path(rt.alloc(), u32::MAX)?;
    let graph = graph_of(&rt, 18, &arcs)?;
    let mut rows: Vec<Row> = Vec::new(rt.alloc());
    for place in 0..17u32 {
        rows.push((place + 1, u64::from(place) * 4_294_967_295, place, 1))?;
    }
    compare_within::<28>(&rt, &graph, 1, 68_719_476_734, &rows);
    compare_within::<28>(&rt, &graph, 1, 68_719_476_720, &rows);
    rows.pop();
    compare_within::<28>(&rt, &graph, 1, 68_719_476_719, &rows);
    Ok(())
}

#[test]
fn source_is_no_vertex(rt: HostRuntime) -> Result<(), Fail> {
    let graph = graph_of(&rt, 4, &DIAMOND)?;
    for source in [0, 5] {
        let team = Team::<28> {
            delta: Delta::new(1).expect(&rt, "a width in range"),
            workers: Workers::one(),
        };
        let told = run_within(&rt, rt.alloc(), &graph, team, source, 3);
        assert!(rt; matches!(&told, Err(RunError::NoSuchVertex)));
        let told = part_of::<28, ByCaller>(&ByCaller, rt.alloc(), &graph, source, 3);
        assert!(rt; matches!(&told, Err(RunError::NoSuchVertex)));
    }
    Ok(())
}
