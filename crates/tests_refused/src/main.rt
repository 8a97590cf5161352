//! Makes one call of the library on a sample, for `tests/refused.py`, which refuses memory to it. Standard output has the call's
//! answer, with status 0. The status is 5 if the call reports that memory was refused, and 9 if memory was refused outside it.
#![tactic(auto)]

mod batches;
mod files;
mod reading;
mod report;
mod rounds;
mod runs;
mod sample;
mod stages;

use report::Ending;
use sample::Sample;
use sp_device::{OfWrite, Write};
use sp_word::Workers;
use std::process::ExitCode;
use std::rt::Env;
use std::sync::Wait;
use std::thread::Threads;
use std::{env, io};

// Makes the call with this name.
fn call<R: AllocGlobal + Eprint + Print + Threads + Wait + Sync, W: Write>(
    rt: &R,
    out: &mut W,
    name: &str,
    sample: Sample,
    workers: Workers,
) -> io::Result<Ending> {
    match name {
        "read_gr" => reading::call_read_gr(rt, sample),
        "read_packed" => reading::call_read_packed(rt, sample),
        "read_ss" => reading::call_read_ss(rt, sample),
        "read_pairs" => reading::call_read_pairs(rt, sample),
        "read_tree" => reading::call_read_tree(rt, out, sample),
        "build" => runs::call_build(rt, sample),
        "run_source" => runs::call_run_source(rt, out, sample, workers),
        "run_source_with" => runs::call_run_source_with(rt, out, sample, workers),
        "run_by_team" => runs::call_run_by_team(rt, out, sample, workers),
        "run_pair" => runs::call_run_pair(rt, out, sample, workers),
        "run_batch" => batches::call_run_batch(rt, out, sample, workers),
        "run_pairs" => batches::call_run_pairs(rt, out, sample, workers),
        "run_matrix" => batches::call_run_matrix(rt, out, sample, workers),
        "run_nearest" => batches::call_run_nearest(rt, out, sample, workers),
        "run" => stages::call_run(rt, out, sample, workers),
        "round" => rounds::call_round(rt, workers),
        "run_targets" => runs::call_run_targets(rt, sample, workers),
        "write_tree_in_pages" => files::call_write_tree_in_pages(rt, out, sample),
        "check" => files::call_check(rt, sample),
        "read_replay" => files::call_read_replay(rt, out, sample),
        "read_offers" => files::call_read_offers(rt, sample),
        "replay" => files::call_replay(rt, out, sample),
        _ => Err(io::Error::other("no such call")),
    }
}

// Makes the call that the words of the command line specify: its name, a sample and the number of workers.
fn call_by_words<R: AllocGlobal + Eprint + Print + Threads + Wait + Sync, W: Write>(
    rt: &R,
    out: &mut W,
    words: &[&str],
) -> io::Result<Ending> {
    if let [name, sample, workers] = words {
        if let (Some(sample), Ok(number)) = (Sample::of_name(sample), workers.parse()) {
            if let Some(workers) = Workers::new(number) {
                return call(rt, out, name, sample, workers);
            }
        }
    }
    Err(io::Error::other("usage: tests_refused CALL diamond|long WORKERS"))
}

fn run<R: AllocGlobal + Env + Eprint + Print + Threads + Wait + Sync, W: Write>(
    rt: &R,
    out: &mut W,
) -> io::Result<Ending> {
    let alloc = rt.alloc();
    let arguments: Vec<String> = env::args(rt)?.skip(1).collect(alloc)?;
    let words: Vec<&str> = arguments.iter().map(|word| word.as_str()).collect(alloc)?;
    call_by_words(rt, out, &words)
}

fn main(rt: HostRuntime) -> ExitCode {
    let mut out = OfWrite::new(rt.stdout());
    match run(&rt, &mut out) {
        Ok(Ending::Answered) => ExitCode::from(0),
        Ok(Ending::Memory) => ExitCode::from(5),
        Ok(Ending::Wrong) => ExitCode::from(8),
        Err(_) => ExitCode::from(9),
    }
}
