//! The readers, on texts in memory.
use crate::report::{Ending, tell_fault, tell_packed_fault, tell_tree};
use crate::sample::Sample;
use sp_dimacs::{MOST_ARCS, OfRead, Write, read_gr, read_pairs, read_ss};
use sp_files::read_tree;
use sp_packed::read_packed;
use std::io;
use tests_samples::FROM_ONE;

/// Reads the graph, and prints its arcs.
pub fn call_read_gr<R: AllocGlobal + Eprint + Print>(rt: &R, sample: Sample) -> io::Result<Ending> {
    let mut text = OfRead::new(sample.gr().as_bytes());
    let file = match read_gr::<28, _>(rt.alloc(), &mut text) {
        Ok(file) => file,
        Err(fault) => return tell_fault(rt, fault),
    };
    println!(rt; "p sp {} {}", file.n, file.arcs.len())?;
    for arc in &file.arcs {
        println!(rt; "a {} {} {}", arc.tail, arc.head, arc.len)?;
    }
    Ok(Ending::Answered)
}

/// Reads the packed graph, and prints its arcs.
pub fn call_read_packed<R: AllocGlobal + Eprint + Print>(
    rt: &R,
    sample: Sample,
) -> io::Result<Ending> {
    let mut text = OfRead::new(sample.packed());
    let graph = match read_packed::<28, _>(rt.alloc(), &mut text, MOST_ARCS as u32) {
        Ok(graph) => graph,
        Err(fault) => return tell_packed_fault(rt, fault),
    };
    println!(rt; "p sp {} {}", graph.n(), graph.arcs().len())?;
    for arc in graph.arcs() {
        println!(rt; "a {} {} {}", arc.tail, arc.head, arc.len)?;
    }
    Ok(Ending::Answered)
}

/// Reads a list of one source, and prints the source.
pub fn call_read_ss<R: AllocGlobal + Eprint + Print>(
    rt: &R,
    _sample: Sample,
) -> io::Result<Ending> {
    let mut text = OfRead::new(FROM_ONE.as_bytes());
    let file = match read_ss::<28, _>(rt.alloc(), &mut text) {
        Ok(file) => file,
        Err(fault) => return tell_fault(rt, fault),
    };
    for source in &file.sources {
        println!(rt; "s {}", source)?;
    }
    Ok(Ending::Answered)
}

/// Reads the pairs, and prints them.
pub fn call_read_pairs<R: AllocGlobal + Eprint + Print>(
    rt: &R,
    sample: Sample,
) -> io::Result<Ending> {
    let mut text = OfRead::new(sample.pairs().as_bytes());
    let file = match read_pairs::<28, _>(rt.alloc(), &mut text) {
        Ok(file) => file,
        Err(fault) => return tell_fault(rt, fault),
    };
    for (source, target) in &file.pairs {
        println!(rt; "q {} {}", source, target)?;
    }
    Ok(Ending::Answered)
}

/// Reads the tree, and writes it out.
pub fn call_read_tree<R: AllocGlobal + Eprint, W: Write>(
    rt: &R,
    out: &mut W,
    sample: Sample,
) -> io::Result<Ending> {
    let mut text = OfRead::new(sample.tree().as_bytes());
    match read_tree::<28, _>(rt.alloc(), &mut text) {
        Ok(tree) => Ok(tell_tree(out, &tree)),
        Err(fault) => tell_fault(rt, fault),
    }
}
