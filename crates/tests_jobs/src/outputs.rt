//! Output files in memory: which of them are kept, and with which text.
use crate::graphs::{ALONE, BEYOND, DIAMOND, ONE};
use crate::memory::Memory;
use crate::shelf::{AMPLE, run_in};
use crate::stored::StoredFile;
use std::alloc::Global;
use std::process::Abort;
use std::str::from_utf8;
use std::sync::Wait;
use std::test::Fail;
use std::thread::Threads;

// Runs the program on the words of a line, and asserts its status, the beginning of its standard error, and that it writes
// nothing to standard output.
fn expect<R: Abort + Threads + Wait + Sync>(
    rt: &R,
    alloc: Global,
    memory: &mut Memory<'_>,
    line: &str,
    status: u8,
    told: &str,
) -> Result<(), Fail> {
    let ended = run_in(rt, alloc, (AMPLE, AMPLE), line, memory)?;
    let err = ended.err.taken();
    assert_eq!(rt; ended.status, status, "in {line}");
    assert_eq!(rt; from_utf8(ended.out.taken()), Ok(""), "in {line}");
    assert!(rt; err.starts_with(told.as_bytes()), "in {line}");
    assert_eq!(rt; err.is_empty(), told.is_empty(), "in {line}");
    Ok(())
}

// Asserts that exactly one file was kept, with this path and this text.
fn is_kept(rt: &impl Abort, memory: &Memory<'_>, path: &str, text: &str) {
    assert_eq!(rt; memory.kept().len(), 1, "in {path}");
    for file in memory.kept() {
        assert_eq!(rt; file.path(), path);
        assert_eq!(rt; from_utf8(file.text()), Ok(text), "in {path}");
    }
}

#[test]
fn answers_are_kept(rt: HostRuntime) -> Result<(), Fail> {
    let stored = [
        StoredFile::new("diamond.gr", DIAMOND.as_bytes()),
        StoredFile::new("beyond.gr", BEYOND.as_bytes()),
        StoredFile::new("one.ss", ONE.as_bytes()),
    ];
    let tree = "p spt 4 1\nv 1 0 0\nv 2 3 1\nv 3 3 1\nv 4 5 2\ne 4\n";
    for (line, status, text) in [
        ("spt tree diamond.gr one.ss --delta 2 -o kept", 0, tree),
        ("spt tree beyond.gr one.ss --delta 1 -o kept", 4, "x 1 18\n"),
    ] {
        let mut memory = Memory::new(rt.alloc(), &stored, AMPLE);
        expect(&rt, rt.alloc(), &mut memory, line, status, "")?;
        is_kept(&rt, &memory, "kept", text);
    }
    Ok(())
}

#[test]
fn no_file_is_kept_in_place_of_an_input(rt: HostRuntime) -> Result<(), Fail> {
    let stored = [
        StoredFile::new("diamond.gr", DIAMOND.as_bytes()),
        StoredFile::new("one.ss", ONE.as_bytes()),
    ];
    let mut memory = Memory::new(rt.alloc(), &stored, AMPLE);
    for line in [
        "spt tree diamond.gr one.ss --delta 2 -o diamond.gr",
        "spt nearest diamond.gr one.ss -o one.ss",
        "spt matrix diamond.gr none.ss one.ss -o one.ss",
        "spt pack none.gr -o none.gr",
    ] {
        expect(
            &rt,
            rt.alloc(),
            &mut memory,
            line,
            1,
            "spt: output is an input\n",
        )?;
        assert!(rt; memory.kept().is_empty(), "in {line}");
    }
    Ok(())
}

// The beginning of a text was written to the second file.
#[test]
fn no_file_is_kept_after_a_fault(rt: HostRuntime) -> Result<(), Fail> {
    let stored = [
        StoredFile::new("alone.gr", ALONE.as_bytes()),
        StoredFile::new("one.ss", ONE.as_bytes()),
        StoredFile::new("two.ss", b"p aux sp ss 1\ns 2\n"),
    ];
    let mut memory = Memory::new(rt.alloc(), &stored, 12);
    for (line, status, told) in [
        (
            "spt tree alone.gr two.ss --delta 1 -o trees",
            2,
            "spt: source 2: no such vertex\n",
        ),
        (
            "spt tree alone.gr one.ss --delta 1 -o trees",
            6,
            "spt: write failed\n",
        ),
    ] {
        expect(&rt, rt.alloc(), &mut memory, line, status, told)?;
        assert!(rt; memory.kept().is_empty(), "in {line}");
    }
    Ok(())
}
