//! Times the parts of answering pairs: reading a graph and a list of pairs, making rows, and finding the targets of each source.
ghost use Rattle.std.specs.Prelude.{◌≤◌};
ghost use Rattle.sp_word.specs.Word.{max_pred};
ghost use Rattle.sp_dimacs.specs.Graph.{IsNetwork};

use crate::report::print_each;
use crate::whole::RunPlan;
use sp_dimacs::{GrFile, OfRead, PairsFile, read_gr, read_pairs};
use sp_graph::Graph;
use sp_run::{TargetsQuestion, run_targets, useful_team};
use sp_word::{Meter, Team};
use std::alloc::{AllocError, Global};
use std::rt::Files;
use std::sync::Wait;
use std::thread::Threads;
use std::time::{Clock, Duration, Instant};
use std::{fs, io};

/// Prints how long each part of answering pairs takes, in milliseconds. The pairs of a source are next to each other in the list.
pub fn time_pairs<R: AllocGlobal + Clock + Files + Print + Threads + Wait + Sync>(
    rt: &R,
    graph: &str,
    pairs: &str,
    plan: RunPlan,
) -> io::Result<()> {
    let start = Instant::now(rt)?;
    let mut file = OfRead::new(fs::open(rt, graph)?);
    let Ok(graph) = read_gr::<28, _>(rt.alloc(), &mut file) else {
        return Err(io::Error::other("the graph is refused"));
    };
    let mut file = OfRead::new(fs::open(rt, pairs)?);
    let Ok(pairs) = read_pairs::<28, _>(rt.alloc(), &mut file) else {
        return Err(io::Error::other("the pairs are refused"));
    };
    print_each(rt, "read", start.elapsed(rt)?, 1_000_000, "ms")?;
    time_targets(rt, graph, &pairs, plan)
}

// Does the same after reading.
fn time_targets<R: AllocGlobal + Clock + Files + Print + Threads + Wait + Sync>(
    rt: &R,
    file: GrFile,
    pairs: &PairsFile,
    plan: RunPlan,
) -> io::Result<()>
    requires { IsNetwork 28 file }
{
    let start = Instant::now(rt)?;
    let graph = Graph::from_arcs(rt.alloc(), file.n, file.arcs)?;
    print_each(rt, "rows", start.elapsed(rt)?, 1_000_000, "ms")?;
    let start = Instant::now(rt)?;
    find_all(rt, &graph, &pairs.pairs, &plan)?;
    print_each(rt, "solve", start.elapsed(rt)?, 1_000_000, "ms")
}

// Finds the targets of each source.
fn find_all<R: AllocGlobal + Threads + Wait + Sync>(
    rt: &R,
    graph: &Graph,
    pairs: &[(u32, u32)],
    plan: &RunPlan,
) -> Result<(), AllocError>
    requires { graph.now.n ≤ max_pred 28 }
{
    let mut last = 0;
    for (source, _) in pairs {
        if *source != last {
            find(rt, graph, pairs, plan, *source)?;
        }
        last = *source;
    }
    Ok(())
}

// Finds the targets of a source.
fn find<R: AllocGlobal + Threads + Wait + Sync>(
    rt: &R,
    graph: &Graph,
    pairs: &[(u32, u32)],
    plan: &RunPlan,
    source: u32,
) -> Result<(), AllocError>
    requires { graph.now.n ≤ max_pred 28 }
{
    if !graph.has_vertex(source) {
        return Ok(());
    }
    let targets = targets_of(rt.alloc(), graph, pairs, source)?;
    let query = TargetsQuestion {
        source,
        targets: &targets,
    };
    let team = Team {
        delta: plan.delta,
        workers: plan.workers,
    };
    let team = useful_team(rt, graph.n(), &team);
    match run_targets::<28, R>(rt, rt.alloc(), graph, team, &Meter::new(), query) {
        Ok(_) => Ok(()),
        Err(_) => Err(AllocError),
    }
}

// Returns the target of a pair, if the pair has this source.
fn target_of(graph: &Graph, pair: (u32, u32), source: u32) -> Option<u32> {
    let (from, to) = pair;
    if from == source && graph.has_vertex(to) {
        Some(to)
    } else {
        None
    }
}

// Returns the targets of a source.
fn targets_of(
    alloc: Global,
    graph: &Graph,
    pairs: &[(u32, u32)],
    source: u32,
) -> Result<Vec<u32>, AllocError> {
    let mut targets = Vec::new(alloc);
    for pair in pairs {
        if let Some(target) = target_of(graph, *pair, source) {
            targets.push(target)?;
        }
    }
    Ok(targets)
}
