//! The program over a system in memory: its exit status, and what its streams and its files hold then.
use crate::graphs::{ALONE, BEYOND, DIAMOND, ONE, TWO};
use crate::stored::StoredFile;
use crate::system::MemorySystem;
use sp_disk::{Disk, FileNotes};
use sp_program::run_program;
use std::alloc::Global;
use std::process::{Abort, Process};
use std::random::RandomSource;
use std::rt::Clock;
use std::str::from_utf8;
use std::sync::Wait;
use std::test::Fail;
use std::thread::Threads;

// What a run of the program leaves: its status, standard output, the beginning of standard error, and the text of the
// file `kept`, if it is kept. No other file is kept, and no part is left.
#[derive(Clone, Copy)]
struct Left {
    status: u8,
    out: &'static str,
    told: &'static str,
    kept: Option<&'static str>,
}

// A run that is done, and writes this to standard output.
const fn shown(out: &'static str) -> Left {
    Left {
        status: 0,
        out,
        told: "",
        kept: None,
    }
}

// A run that is done, and keeps a file with this text.
const fn kept(text: &'static str) -> Left {
    Left {
        status: 0,
        out: "",
        told: "",
        kept: Some(text),
    }
}

// A run that fails, and writes only the line of its fault.
const fn told(status: u8, told: &'static str) -> Left {
    Left {
        status,
        out: "",
        told,
        kept: None,
    }
}

// Runs the program on a system, and asserts what it leaves.
fn expect<R: Abort + AllocGlobal + Clock + Eprint + RandomSource + Threads + Wait + Sync>(
    rt: &R,
    process: Process,
    system: MemorySystem<'_>,
    line: &str,
    left: Left,
) {
    let notes = FileNotes::new();
    let mut disk = Disk::new(rt, system, process, &notes);
    let ended = run_program(&mut disk);
    let err = ended.err.stream().text();
    assert!(rt; err.starts_with(left.told.as_bytes()), "in {line}");
    assert_eq!(rt; err.is_empty(), left.told.is_empty(), "in {line}");
    let out = ended.out.device().map(|device| from_utf8(device.text()));
    assert_eq!(rt; out, Some(Ok(left.out)), "in {line}");
    assert_eq!(rt; ended.status, left.status, "in {line}");
    assert!(rt; !disk.system.has_begun(), "in {line}");
    is_kept(rt, &disk.system, line, left.kept);
}

// Asserts that no file was completed, or exactly one, for the path `kept` and in its place, with this text.
fn is_kept(rt: &impl Abort, system: &MemorySystem<'_>, line: &str, text: Option<&str>) {
    let files = system.complete_files();
    assert_eq!(rt; files.len(), usize::from(text.is_some()), "in {line}");
    for file in files {
        assert_eq!(rt; file.path(), "kept", "in {line}");
        assert_eq!(rt; file.place(), Some("kept"), "in {line}");
        assert_eq!(rt; from_utf8(file.text()).ok(), text, "in {line}");
    }
}

const TREE: &str = "p spt 4 1\nv 1 0 0\nv 2 3 1\nv 3 3 1\nv 4 5 2\ne 4\n";

const FOREST: &str = "p near 4 1\nv 1 0 0 1\nv 2 3 1 1\nv 3 3 1 1\nv 4 5 2 1\ne 4\n";

const PAIRS: &str = "d 1 4 5 2\nd 1 1 0 0\nn 4 1\n";

const MATRIX: &str = "d 1 1 0 0\nd 1 4 5 2\n";

const OFFERS: &str = "w 1 7 2\ne 1\n";

const REPLAY: &str = "o 1 1 5 3 shorter 1 3\no 2 1 5 2 smaller 2 5\nw 1 5 2\nt 2 1\nclosed yes\n";

// The files that the commands read, and one that `-o` may replace.
fn files<'a>() -> [StoredFile<'a>; 11] {
    [
        StoredFile::new("alone.gr", ALONE.as_bytes()),
        StoredFile::new("diamond.gr", DIAMOND.as_bytes()),
        StoredFile::new("beyond.gr", BEYOND.as_bytes()),
        StoredFile::new("one.ss", ONE.as_bytes()),
        StoredFile::new("two.ss", TWO.as_bytes()),
        StoredFile::new("three.pairs", b"p pairs 3\nq 1 4\nq 1 1\nq 4 1\n"),
        StoredFile::new("diamond.tree", TREE.as_bytes()),
        StoredFile::new("none.tree", b"p spt 1 1\ne 0\n"),
        StoredFile::new(
            "lost.rep",
            b"p rep 1 2\no 1 1 5 3\no 2 1 5 2\ns 1\ns 2\ns 1\ns 2\ns 2\n",
        ),
        StoredFile::new(
            "f.off",
            b"p off 1 2\no 1 1 9 1\no 1 1 7 4\no 2 1 7 2\no 2 1 8 3\n",
        ),
        StoredFile::new("old", b"what stood there before"),
    ]
}

// Runs the program on the words of a line, separated by single blanks, over these files, with room for this many bytes of
// output, and asserts what it leaves.
fn expect_of_line<R>(
    rt: &R,
    process: Process,
    line: &str,
    room: usize,
    left: Left,
) -> Result<(), Fail>
where
    R: Abort + AllocGlobal + Clock + Eprint + RandomSource + Threads + Wait + Sync,
{
    let alloc: Global = rt.alloc();
    let words: Vec<&str> = line.split(' ').collect(alloc)?;
    let stored = files();
    let mut system = MemorySystem::new(alloc, &words, &stored, DIAMOND.as_bytes(), false);
    system.room = room;
    expect(rt, process, system, line, left);
    Ok(())
}

#[test]
fn each_command_writes_its_answer(rt: HostRuntime) -> Result<(), Fail> {
    for (line, left) in [
        ("spt tree diamond.gr one.ss --delta 2", shown(TREE)),
        ("spt tree - one.ss --delta 2", shown(TREE)),
        ("spt nearest diamond.gr one.ss", shown(FOREST)),
        ("spt pairs diamond.gr three.pairs --delta 2", shown(PAIRS)),
        ("spt matrix diamond.gr one.ss two.ss", shown(MATRIX)),
        ("spt check diamond.gr diamond.tree", shown("yes\n")),
        ("spt replay lost.rep", shown(REPLAY)),
        ("spt offers f.off", shown(OFFERS)),
        ("spt --version", shown("spt 1.6.0\n")),
    ] {
        expect_of_line(&rt, rt.process(), line, usize::MAX, left)?;
    }
    Ok(())
}

#[test]
fn each_command_keeps_its_answer(rt: HostRuntime) -> Result<(), Fail> {
    for (line, left) in [
        ("spt tree diamond.gr one.ss --delta 2 -o kept", kept(TREE)),
        ("spt nearest diamond.gr one.ss -o kept", kept(FOREST)),
        (
            "spt pairs diamond.gr three.pairs --delta 2 -o kept",
            kept(PAIRS),
        ),
        ("spt matrix diamond.gr one.ss two.ss -o kept", kept(MATRIX)),
        ("spt check diamond.gr diamond.tree -o kept", kept("yes\n")),
        ("spt replay lost.rep -o kept", kept(REPLAY)),
        ("spt offers f.off -o kept", kept(OFFERS)),
    ] {
        expect_of_line(&rt, rt.process(), line, usize::MAX, left)?;
    }
    Ok(())
}

// A tree that isn't the tree of its source, and a vertex that is too far, are answers: they are written and kept.
#[test]
fn answers_with_a_status_of_their_own(rt: HostRuntime) -> Result<(), Fail> {
    for (line, status, text) in [
        ("spt check alone.gr none.tree", 3, "no 1 2\n"),
        ("spt tree beyond.gr one.ss --delta 1", 4, "x 1 18\n"),
    ] {
        let left = Left {
            status,
            ..shown(text)
        };
        expect_of_line(&rt, rt.process(), line, usize::MAX, left)?;
        let line = format!(in rt.alloc(); "{line} -o kept")?;
        let left = Left {
            status,
            ..kept(text)
        };
        expect_of_line(&rt, rt.process(), line.as_str(), usize::MAX, left)?;
    }
    Ok(())
}

#[test]
fn nothing_is_kept_after_a_fault(rt: HostRuntime) -> Result<(), Fail> {
    for (line, room, left) in [
        ("spt tree", 100, told(1, "error: ")),
        (
            "spt nearest diamond.gr one.ss -o one.ss",
            100,
            told(1, "spt: output is an input\n"),
        ),
        (
            "spt tree alone.gr two.ss --delta 1 -o kept",
            100,
            told(2, "spt: source 4: no such vertex\n"),
        ),
        (
            "spt nearest old one.ss -o kept",
            100,
            told(2, "spt: gr: line 1: 2 BadLine\n"),
        ),
        (
            "spt nearest none.gr one.ss -o kept",
            100,
            told(6, "spt: gr: cannot open\n"),
        ),
        (
            "spt pairs diamond.gr three.pairs --delta 2 -o kept",
            12,
            told(6, "spt: write failed\n"),
        ),
    ] {
        expect_of_line(&rt, rt.process(), line, room, left)?;
    }
    let left = Left {
        out: "d 1 4 5 2\nd ",
        ..told(6, "spt: write failed\n")
    };
    let line = "spt pairs diamond.gr three.pairs --delta 2";
    expect_of_line(&rt, rt.process(), line, 12, left)
}

// Words that can't be read for lack of memory, and one that isn't UTF-8.
#[test]
fn words_that_are_refused(rt: HostRuntime) -> Result<(), Fail> {
    let words = ["spt", "offers", "f.off"];
    let stored = files();
    let mut system = MemorySystem::new(rt.alloc(), &words, &stored, b"", false);
    system.has_memory = false;
    expect(
        &rt,
        rt.process(),
        system,
        "memory",
        told(5, "spt: memory\n"),
    );
    let mut system = MemorySystem::new(rt.alloc(), &words, &stored, b"", false);
    system.words = None;
    let text = "spt: an argument is not UTF-8\nspt: use - ";
    expect(&rt, rt.process(), system, "a word", told(1, text));
    Ok(())
}
