//! Times the parts of a whole job: reading two files, making rows, and finding and writing a tree for each source.
ghost use Rattle.std.specs.Prelude.{◌≤◌, All};
ghost use Rattle.sp_word.specs.Word.{max_pred};
ghost use Rattle.sp_dimacs.specs.Graph.{IsNetwork};

use crate::report::{print_each, print_share};
use sp_dimacs::{GrFile, OfRead, OfWrite, SsFile, Write, read_gr_by, read_ss};
use sp_files::{Tree, write_tree_in_pages};
use sp_graph::Graph;
use sp_run::{run_by_team, useful_team};
use sp_word::{Delta, Meter, Team, Workers};
use std::rt::Files;
use std::sync::Wait;
use std::thread::Threads;
use std::time::{Clock, Duration, Instant};
use std::{fs, io};

/// The width of a bucket, and the number of workers.
#[derive(Clone, Copy)]
pub struct RunPlan {
    pub delta: Delta<28>,
    pub workers: Workers,
}

impl RunPlan {
    /// A plan, if these numbers are in range.
    pub fn new(delta: u64, workers: u32) -> Option<RunPlan> {
        Some(RunPlan {
            delta: Delta::new(delta)?,
            workers: Workers::new(workers)?,
        })
    }
}

/// The files of a job.
#[derive(Clone, Copy)]
pub struct Paths<'a> {
    pub graph: &'a str,
    pub sources: &'a str,
    pub trees: &'a str,
}

// How long the parts took for all sources, and how many vertices were relaxed and reached.
#[derive(Clone, Copy)]
struct Durations {
    solving: Duration,
    writing: Duration,
    relaxed: u64,
    reached: u64,
}

/// Prints how long each part of a whole job takes, in milliseconds, and how often a reached vertex was relaxed.
pub fn time_whole<R: AllocGlobal + Clock + Files + Print + Threads + Wait + Sync>(
    rt: &R,
    paths: &Paths,
    plan: RunPlan,
) -> io::Result<()> {
    let start = Instant::now(rt)?;
    let mut file = OfRead::new(fs::open(rt, paths.graph)?);
    let Ok(graph) = read_gr_by::<28, R, _>(rt, rt.alloc(), &mut file, plan.workers) else {
        return Err(io::Error::other("the graph is refused"));
    };
    let mut file = OfRead::new(fs::open(rt, paths.sources)?);
    let Ok(sources) = read_ss::<28, _>(rt.alloc(), &mut file) else {
        return Err(io::Error::other("the sources are refused"));
    };
    print_each(rt, "read", start.elapsed(rt)?, 1_000_000, "ms")?;
    time_trees(rt, graph, &sources, plan, paths.trees)
}

// Does the same after reading.
fn time_trees<R: AllocGlobal + Clock + Files + Print + Threads + Wait + Sync>(
    rt: &R,
    file: GrFile,
    sources: &SsFile,
    plan: RunPlan,
    trees: &str,
) -> io::Result<()>
    requires { IsNetwork 28 file }
{
    let start = Instant::now(rt)?;
    let graph = Graph::from_arcs_by(rt, rt.alloc(), file.n, file.arcs, plan.workers)?;
    print_each(rt, "rows", start.elapsed(rt)?, 1_000_000, "ms")?;
    let mut out = OfWrite::new(fs::create(rt, trees)?);
    let taken = answer_all(rt, &graph, &sources.sources, plan, &mut out)?;
    print_each(rt, "solve", taken.solving, 1_000_000, "ms")?;
    print_each(rt, "write", taken.writing, 1_000_000, "ms")?;
    print_share(rt, "relaxed", taken.relaxed, taken.reached, "a vertex")
}

// Finds and writes the tree of each source.
fn answer_all<R: AllocGlobal + Clock + Threads + Wait + Sync, W: Write>(
    rt: &R,
    graph: &Graph,
    sources: &[u32],
    plan: RunPlan,
    out: &mut W,
) -> io::Result<Durations>
    requires { graph.now.n ≤ max_pred 28 }
{
    let mut taken = Durations {
        solving: Duration::ZERO,
        writing: Duration::ZERO,
        relaxed: 0,
        reached: 0,
    };
    let meter = Meter::new();
    for source in sources {
        let start = Instant::now(rt)?;
        let tree = solve(rt, graph, *source, plan, &meter)?;
        taken.solving = taken.solving.saturating_add(start.elapsed(rt)?);
        taken.reached = taken.reached.saturating_add(tree.rows().len() as u64);
        let start = Instant::now(rt)?;
        if write_tree_in_pages(rt.alloc(), &tree, out).is_err() {
            return Err(io::Error::other("the trees can't be written"));
        }
        taken.writing = taken.writing.saturating_add(start.elapsed(rt)?);
    }
    taken.relaxed = meter.count();
    Ok(taken)
}

// Finds the tree of a source.
fn solve<R: AllocGlobal + Threads + Wait + Sync>(
    rt: &R,
    graph: &Graph,
    source: u32,
    plan: RunPlan,
    meter: &Meter,
) -> io::Result<Tree<28>>
    requires { graph.now.n ≤ max_pred 28 }
{
    let asked = Team {
        delta: plan.delta,
        workers: plan.workers,
    };
    let team = useful_team(rt, graph.n(), &asked);
    match run_by_team::<28, R>(rt, rt.alloc(), graph, team, meter, source) {
        Ok(tree) => Ok(tree),
        Err(_) => Err(io::Error::other("a source has no tree")),
    }
}
