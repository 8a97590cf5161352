//! Lists of arcs, turned round.
ghost use Rattle.std.specs.Prelude.{◌≡◌, IfOk, OnErr};
ghost use Rattle.sp_network.specs.Turned.{turned, turned_arc, with_turned};
ghost use denote.Param.Send.{IsSync};

use sp_graph::useful_workers;
use sp_paths::Arc;
use sp_word::Workers;
use std::alloc::AllocError;
use std::thread::{Threads, join_mut};

// Marks a place that holds no arc yet.
const NONE: Arc = Arc {
    tail: 0,
    head: 0,
    len: 0,
};

/// Returns the arc from the head to the tail, of the same length.
pub fn turned_arc(arc: &Arc) -> Arc
    ensures { result ≡ turned_arc arc.now }
{
    Arc {
        tail: arc.head,
        head: arc.tail,
        len: arc.len,
    }
}

/// Turns each arc of a list round, in place.
pub fn turn(arcs: &mut [Arc])
    ensures { arcs.new ≡ turned arcs.old }
{
    for (i, arc) in arcs.iter_mut().enumerate() {
        *arc = turned_arc(arc);
    }
}

// Turns each arc of a list round, on `threads` threads.
fn turn_parts<R: Threads + Sync>(rt: &R, arcs: &mut [Arc], threads: usize)
    ensures { arcs.new ≡ turned arcs.old }
{
    if threads <= 1 {
        return turn(arcs);
    }
    let fewer = threads - 1;
    let middle = arcs.len() / threads;
    let (left, right) = arcs.split_at_mut(middle);
    join_mut(
        rt,
        &mut ||
            ensures { left.exit.now ≡ turned left.entry.now }
        { turn(left) },
        &mut ||
            requires { IsSync R.row }
            ensures { right.exit.now ≡ turned right.entry.now }
        { turn_parts(rt, right, fewer) },
    );
}

/// Turns each arc of a list round, in place, as `turn` does, on as many threads as there are workers, or on fewer if there are
/// fewer processors or few arcs.
pub fn turn_by<R: Threads + Sync>(rt: &R, arcs: &mut [Arc], workers: Workers)
    ensures { arcs.new ≡ turned arcs.old }
{
    let threads = useful_workers(rt, workers, arcs.len());
    turn_parts(rt, arcs, threads);
}

/// Inserts behind each arc of a list the same arc turned round, so that a loop appears twice. The call fails only if there is no
/// memory for twice the arcs.
#[tactic(auto, using(std::proofs::lemmas::Grind::common_steps, crate::proofs::TurnedArcs::first_stay, crate::proofs::TurnedArcs::next_moved))]
pub fn insert_turned(arcs: &mut Vec<Arc>) -> Result<(), AllocError>
    ensures inserted { IfOk result (λ _. arcs.new.items ≡ with_turned arcs.old.items) }
    ensures kept { OnErr result (arcs.new.items ≡ arcs.old.items) }
{
    let mut left = arcs.len();
    arcs.reserve_exact(left)?;
    arcs.resize(2 * left, NONE)?;
    while left > 0 {
        left -= 1;
        let arc = arcs[left];
        arcs[2 * left] = arc;
        arcs[2 * left + 1] = turned_arc(&arc);
    }
    Ok(())
}
