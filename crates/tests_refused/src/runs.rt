//! Graphs, and runs from vertex 1.
use crate::report::{Ending, tell_refusal, tell_run};
use crate::sample::Sample;
use sp_device::Write;
use sp_graph::Graph;
use sp_phase::{run_pair, run_source_with};
use sp_rounds::OpenGate;
use sp_run::{PairAnswer, TargetsQuestion, run_by_team, run_source, run_targets};
use sp_word::{Meter, Team, Workers};
use std::io;
use std::sync::Wait;
use std::thread::Threads;
use tests_samples::{DIAMOND, arcs_of, long_path};

/// Builds the graph, and prints its arcs in order.
pub fn call_build<R: AllocGlobal + Print>(rt: &R, sample: Sample) -> io::Result<Ending> {
    let alloc = rt.alloc();
    let (n, arcs) = match sample {
        Sample::Diamond => (4, arcs_of(alloc, 4, &DIAMOND)?),
        Sample::Long => (18, arcs_of(alloc, 18, &long_path(alloc, 15)?)?),
    };
    let Ok(graph) = Graph::build(alloc, n, &arcs) else {
        return Ok(Ending::Memory);
    };
    for arc in graph.arcs() {
        println!(rt; "a {} {} {}", arc.tail, arc.head, arc.len)?;
    }
    Ok(Ending::Answered)
}

/// A run by as many workers as are useful.
pub fn call_run_source<R: AllocGlobal + Print + Threads + Wait + Sync, W: Write>(
    rt: &R,
    out: &mut W,
    sample: Sample,
    workers: Workers,
) -> io::Result<Ending> {
    let graph = sample.graph(rt.alloc())?;
    let answer = run_source(rt, rt.alloc(), &graph, sample.delta(), workers, 1);
    Ok(tell_run(out, answer))
}

/// A run by rounds, each shared among the workers.
pub fn call_run_source_with<R: AllocGlobal + Print + Threads + Wait + Sync, W: Write>(
    rt: &R,
    out: &mut W,
    sample: Sample,
    workers: Workers,
) -> io::Result<Ending> {
    let graph = sample.graph(rt.alloc())?;
    let answer = run_source_with(
        rt,
        rt.alloc(),
        &graph,
        sample.delta(),
        workers,
        1,
        &OpenGate,
    );
    Ok(tell_run(out, answer))
}

/// A run by a team of exactly this many workers.
pub fn call_run_by_team<R: AllocGlobal + Print + Threads + Wait + Sync, W: Write>(
    rt: &R,
    out: &mut W,
    sample: Sample,
    workers: Workers,
) -> io::Result<Ending> {
    let graph = sample.graph(rt.alloc())?;
    let team = Team {
        delta: sample.delta(),
        workers,
    };
    let answer = run_by_team(rt, rt.alloc(), &graph, team, &Meter::new(), 1);
    Ok(tell_run(out, answer))
}

/// A run for the last vertex alone.
pub fn call_run_pair<R: AllocGlobal + Print + Threads + Wait + Sync, W: Write>(
    rt: &R,
    out: &mut W,
    sample: Sample,
    workers: Workers,
) -> io::Result<Ending> {
    let graph = sample.graph(rt.alloc())?;
    let last = graph.n();
    match run_pair::<28, R>(rt, rt.alloc(), &graph, sample.delta(), workers, 1, last) {
        Err(refusal) => Ok(tell_refusal(out, refusal)),
        Ok(None) => Ok(Ending::Wrong),
        Ok(Some(word)) => {
            println!(rt; "{}", word.bits())?;
            Ok(Ending::Answered)
        }
    }
}

// Prints the answer for a target.
fn tell_target<R: Print>(rt: &R, answer: PairAnswer) -> io::Result<()> {
    match answer {
        PairAnswer::Found { dist, pred } => println!(rt; "{dist} {pred}"),
        PairAnswer::TooFar(vertex) => println!(rt; "x {vertex}"),
        PairAnswer::NoWalk => println!(rt; "n"),
    }
}

/// A run for the last vertex and for the source itself.
pub fn call_run_targets<R: AllocGlobal + Print + Threads + Wait + Sync>(
    rt: &R,
    sample: Sample,
    workers: Workers,
) -> io::Result<Ending> {
    let alloc = rt.alloc();
    let graph = sample.graph(alloc)?;
    let team = Team {
        delta: sample.delta(),
        workers,
    };
    let query = TargetsQuestion {
        source: 1,
        targets: &[graph.n(), 1],
    };
    let Ok(answers) = run_targets::<28, R>(rt, alloc, &graph, team, &Meter::new(), query) else {
        return Ok(Ending::Memory);
    };
    for answer in &answers {
        tell_target(rt, *answer)?;
    }
    Ok(Ending::Answered)
}
