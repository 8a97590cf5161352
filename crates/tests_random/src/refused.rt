//! If memory is refused, a team's run reports that, or returns the answer that it returns with ample memory. These tests also
//! pass if any one request for memory is refused.
ghost use Rattle.std.specs.Prelude.{◌≡◌, true};
ghost use Rattle.sp_word.specs.Word.{is_layout};

use crate::runs::{run_by_team, same};
use sp_judge::{GraphKind, Random, plain_tree, random_graph};
use sp_phase::RunError;
use sp_word::Word;
use std::process::Abort;
use std::sync::Wait;
use std::test::Fail;
use std::thread::Threads;

const TEAMS: [u32; 3] = [1, 2, 3];

// Lets each team answer for the first vertex of a small graph.
fn run_short_of_memory<const P: u32>(
    rt: &(impl Abort + AllocGlobal + Threads + Wait + Sync),
    kind: GraphKind,
    n: u32,
)
    requires { is_layout P ≡ true }
{
    assert!(rt; 1 <= n && n <= 2000 && n <= Word::<P>::max_pred());
    let mut random = Random::new(1);
    let Ok(graph) = random_graph(rt.alloc(), &mut random, kind, n) else {
        return;
    };
    let Ok(want) = plain_tree::<P>(rt.alloc(), &graph, 1) else {
        return;
    };
    for workers in TEAMS {
        let told = run_by_team(rt, &graph, 1, workers, 1);
        assert!(rt; matches!(&told, Err(RunError::Memory)) || same(&told, &want));
    }
}

#[test]
fn tree_or_memory(rt: HostRuntime) {
    run_short_of_memory::<28>(&rt, GraphKind::Sparse, 20);
}

#[test]
fn too_far_or_memory(rt: HostRuntime) {
    run_short_of_memory::<32>(&rt, GraphKind::Long, 20);
}
