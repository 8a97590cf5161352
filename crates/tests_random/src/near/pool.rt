//! Searches that cost what they touch: near targets, and parts of trees and of forests.

use crate::near::runs::{Row, graph_of, has_rows, has_tree_rows};
use sp_answer::{PairAnswer, are_vertices};
use sp_serial::{SearchBuffers, SearchPool};
use std::test::Fail;
use tests_samples::DIAMOND;

const FROM_ONE: [Row; 3] = [(1, 0, 0, 1), (2, 3, 1, 1), (3, 3, 1, 1)];

const FROM_ONE_AND_THREE: [Row; 4] = [(1, 0, 0, 1), (2, 3, 1, 1), (3, 0, 0, 3), (4, 2, 3, 3)];

#[test]
fn parts_of_trees_in_a_room(rt: HostRuntime) -> Result<(), Fail> {
    let graph = graph_of(&rt, 4, &DIAMOND)?;
    assert!(rt; graph.n() == 4);
    let mut room = SearchBuffers::<28>::new(rt.alloc(), &graph)?;
    let part = room.part(1, 3, 4)?;
    assert!(rt; matches!(&part, Some(tree) if has_tree_rows(tree, &FROM_ONE)));
    let own = room.part(1, 0, 4)?;
    assert!(rt; matches!(&own, Some(tree) if has_tree_rows(tree, &FROM_ONE[..1])));
    // (more vertices than these are relaxed)
    let none = room.part(1, 3, 1)?;
    assert!(rt; none.is_none());
    Ok(())
}

#[test]
fn parts_of_forests_in_a_room(rt: HostRuntime) -> Result<(), Fail> {
    let graph = graph_of(&rt, 4, &DIAMOND)?;
    assert!(rt; graph.n() == 4);
    let mut room = SearchBuffers::<28>::new(rt.alloc(), &graph)?;
    let forest = room.forest(&[1, 3], 5, 4)?;
    assert!(rt; matches!(&forest, Some(forest) if has_rows(forest, &FROM_ONE_AND_THREE)));
    let again = room.forest(&[3, 1, 3], 5, 8)?;
    assert!(rt; matches!(&again, Some(forest) if has_rows(forest, &FROM_ONE_AND_THREE)));
    let none = room.forest(&[], 5, 4)?;
    assert!(rt; none.is_none());
    Ok(())
}

#[test]
fn rooms_keep_their_words(rt: HostRuntime) -> Result<(), Fail> {
    let graph = graph_of(&rt, 4, &DIAMOND)?;
    assert!(rt; graph.n() == 4);
    let pool = SearchPool::<28>::new(rt.alloc(), 1);
    let near = PairAnswer::Found { dist: 5, pred: 2 };
    let own = PairAnswer::Found { dist: 0, pred: 0 };
    let answers = pool.find::<PairAnswer>(rt.alloc(), &graph, 1, &[4, 1, 4]);
    assert!(rt; matches!(&answers, Some(told) if told.as_slice() == [near, own, near].as_slice()));
    let part = pool.part(rt.alloc(), &graph, 1, 3);
    assert!(rt; matches!(&part, Some(tree) if has_tree_rows(tree, &FROM_ONE)));
    let forest = pool.forest(rt.alloc(), &graph, &[3, 1, 3], 5);
    assert!(rt; matches!(&forest, Some(forest) if has_rows(forest, &FROM_ONE_AND_THREE)));
    // (a source that is named so often takes no memory)
    let often = vec![in rt.alloc(); 1u32; 1025]?;
    assert!(rt; are_vertices(&graph, often.as_slice()));
    let none = pool.forest(rt.alloc(), &graph, often.as_slice(), 5);
    assert!(rt; none.is_none());
    Ok(())
}
