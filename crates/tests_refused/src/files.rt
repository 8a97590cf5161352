//! The checker, writing trees, and the step machine with its files.
use crate::report::{Ending, tell_fault, tell_written};
use crate::sample::Sample;
use sp_cert::{CheckError, check};
use sp_device::{OfRead, Write};
use sp_files::{read_tree, write_tree_in_pages};
use sp_replay::{read_offers, read_replay, replay, write_report};
use std::io;
use std::thread::Threads;

/// Checks the sample's tree.
pub fn call_check<R: AllocGlobal + Print + Threads + Sync>(
    rt: &R,
    sample: Sample,
) -> io::Result<Ending> {
    let alloc = rt.alloc();
    let graph = sample.graph(alloc)?;
    let mut text = OfRead::new(sample.tree().as_bytes());
    let Ok(tree) = read_tree::<28, _>(alloc, &mut text) else {
        return Err(io::Error::other("no tree"));
    };
    match check(rt, alloc, &graph, &tree) {
        Ok(()) => println!(rt; "yes")?,
        Err(CheckError::Fault { vertex, rule }) => println!(rt; "no {vertex} {rule}")?,
        Err(CheckError::Memory) => return Ok(Ending::Memory),
    }
    Ok(Ending::Answered)
}

/// Writes the sample's tree in pages. It is written whether or not there is memory for a page.
pub fn call_write_tree_in_pages<R: AllocGlobal, W: Write>(
    rt: &R,
    out: &mut W,
    sample: Sample,
) -> io::Result<Ending> {
    let alloc = rt.alloc();
    let mut text = OfRead::new(sample.tree().as_bytes());
    let Ok(tree) = read_tree::<28, _>(alloc, &mut text) else {
        return Err(io::Error::other("no tree"));
    };
    Ok(tell_written(write_tree_in_pages(alloc, &tree, out)))
}

/// Reads a replay file, and then plays it.
pub fn call_read_replay<R: AllocGlobal + Eprint, W: Write>(
    rt: &R,
    out: &mut W,
    sample: Sample,
) -> io::Result<Ending> {
    let mut text = OfRead::new(sample.rep().as_bytes());
    let file = match read_replay::<28, _>(rt.alloc(), &mut text) {
        Ok(file) => file,
        Err(fault) => return tell_fault(rt, fault),
    };
    let report = replay(rt.alloc(), &file.programme, &file.steps)?;
    Ok(tell_written(write_report(&report, out)))
}

/// Plays a replay file.
pub fn call_replay<R: AllocGlobal, W: Write>(
    rt: &R,
    out: &mut W,
    sample: Sample,
) -> io::Result<Ending> {
    let mut text = OfRead::new(sample.rep().as_bytes());
    let Ok(file) = read_replay::<28, _>(rt.alloc(), &mut text) else {
        return Err(io::Error::other("no replay file"));
    };
    let Ok(report) = replay(rt.alloc(), &file.programme, &file.steps) else {
        return Ok(Ending::Memory);
    };
    Ok(tell_written(write_report(&report, out)))
}

/// Reads an offers file, and prints the numbers of words and of actors.
pub fn call_read_offers<R: AllocGlobal + Eprint + Print>(
    rt: &R,
    sample: Sample,
) -> io::Result<Ending> {
    let mut text = OfRead::new(sample.offers().as_bytes());
    let programme = match read_offers::<28, _>(rt.alloc(), &mut text) {
        Ok(programme) => programme,
        Err(fault) => return tell_fault(rt, fault),
    };
    println!(rt; "p off {} {}", programme.words(), programme.actors())?;
    Ok(Ending::Answered)
}
