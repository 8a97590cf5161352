//! Words that are final before the run has ended.
ghost use Rattle.std.specs.Prelude.{◌≤◌};

use crate::roads::roads;
use anyhow::Result;
use sp_phase::{Run, Store};
use sp_rounds::OpenGate;
use sp_word::{Delta, Word, Workers};
use std::sync::Wait;
use std::thread::Threads;

const WIDTH: u64 = 3;

// What is known of vertex 4, where every distance below `end` is final.
fn tell<R: Print>(rt: &R, end: u64, word: Word<28>) -> Result<()> {
    print!(rt; "below {end} all is final; 4 is ")?;
    match word.dist() {
        None => println!(rt; "not reached yet")?,
        Some(dist) if dist < end => println!(rt; "at {dist}")?,
        Some(dist) => println!(rt; "no further than {dist}")?,
    }
    Ok(())
}

// Settles one bucket after the other, and reads the word of vertex 4 after each.
fn watch<R: Print + Threads + Wait + Sync>(rt: &R, run: &mut Run<28>) -> Result<()>
    requires { 4 ≤ run.old.stage.graph.n }
{
    for _ in rt.forever() {
        let Some(bucket) = run.settle(rt, &OpenGate)? else {
            return Ok(());
        };
        let end = bucket.saturating_add(1).saturating_mul(WIDTH);
        tell(rt, end, run.read(4))?;
        run.heavy(rt, &OpenGate)?;
    }
    unreachable!()
}

/// Prints what a run from vertex 1 knows of vertex 4, bucket after bucket, and then how many vertices its tree reaches.
pub fn show<R: AllocGlobal + Print + Threads + Wait + Sync>(rt: &R) -> Result<()> {
    let alloc = rt.alloc();
    let graph = roads(alloc)?;
    let (delta, workers) = (Delta::new(WIDTH).unwrap(), Workers::new(2).unwrap());
    let (store, caller, claimer) = Store::<28>::new(alloc, &graph, delta, 1)?;
    let mut run = Run::begin(alloc, &store, caller, claimer, workers)?;
    watch(rt, &mut run)?;
    let (tree, _) = run.finish(rt, &OpenGate)?;
    println!(rt; "{} vertices are reached", tree.rows().len())?;
    Ok(())
}
