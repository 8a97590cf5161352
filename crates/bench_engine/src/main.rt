//! Times the parts of whole jobs and of pairs, in lines `name number unit`, and compares teams with the plain program. Scripts of
//! `bench/` run it.
#![tactic(auto)]

mod fire;
mod pairs;
mod report;
mod whole;

use std::rt::Files;
use std::sync::Wait;
use std::thread::Threads;
use std::time::Clock;
use std::{env, io};
use whole::{Paths, RunPlan};

const USAGE: &str =
    "usage: bench_engine whole GR SS DELTA WORKERS TREES | pairs GR PAIRS DELTA WORKERS | fire GRAPHS SEED";

// The plan that two words of the command line specify.
fn plan_of(delta: &str, workers: &str) -> Option<RunPlan> {
    RunPlan::new(delta.parse().ok()?, workers.parse().ok()?)
}

// Runs the command that these words give, or prints the usage.
fn run<R: AllocGlobal + Clock + Eprint + Files + Print + Threads + Wait + Sync>(
    rt: &R,
    words: &[&str],
) -> io::Result<()> {
    match words {
        ["whole", graph, sources, delta, workers, trees] => {
            if let Some(plan) = plan_of(delta, workers) {
                let paths = Paths {
                    graph,
                    sources,
                    trees,
                };
                return whole::time_whole(rt, &paths, plan);
            }
        }
        ["pairs", graph, pairs, delta, workers] => {
            if let Some(plan) = plan_of(delta, workers) {
                return pairs::time_pairs(rt, graph, pairs, plan);
            }
        }
        ["fire", graphs, seed] => {
            if let (Ok(graphs), Ok(seed)) = (graphs.parse(), seed.parse()) {
                return fire::fire(rt, graphs, seed);
            }
        }
        _ => {}
    }
    eprintln!(rt; "{USAGE}")
}

fn main(rt: HostRuntime) -> io::Result<()> {
    let alloc = rt.alloc();
    let arguments: Vec<String> = env::args(&rt)?.skip(1).collect(alloc)?;
    let words: Vec<&str> = arguments.iter().map(|word| word.as_str()).collect(alloc)?;
    run(&rt, &words)
}
