//! Files and writers that fail.
use crate::graphs::{ALONE, DIAMOND, ONE};
use crate::shelf::{AMPLE, Stored, expect, run_into, whole};
use std::alloc::Global;
use std::process::Abort;
use std::sync::Wait;
use std::test::Fail;
use std::thread::Threads;

// The graph is read first.
#[test]
fn files_that_fail(rt: HostRuntime) -> Result<(), Fail> {
    let files = [
        ("alone.gr", whole(ALONE)),
        ("diamond.gr", whole(DIAMOND)),
        ("bad.pairs", whole("p pairs 1\n")),
        ("begun.gr", Stored::Failing(b"p sp 1 0\n")),
        ("arc.gr", Stored::Failing(b"p sp 4 5\na 1 2 3\n")),
        ("failing.gr", Stored::Failing(b"a 1 2 3\n")),
        ("begun.ss", Stored::Failing(b"p aux sp ss 1\ns 1\n")),
        ("begun.pairs", Stored::Failing(b"p pairs 1\n")),
        ("cut.pairs", Stored::Failing(b"p pairs 1\nq 1")),
        ("begun.tree", Stored::Failing(b"p spt 1 1\nv")),
        (
            "within.trees",
            Stored::Failing(b"p spt 4 4\nv 4 0 0\ne 1\np spt 4 4\nv 4 0"),
        ),
        (
            "behind.trees",
            Stored::Failing(b"p spt 4 4\nv 4 0 0\ne 1\n"),
        ),
        ("none", Stored::Failing(b"")),
        ("begun.rep", Stored::Failing(b"p rep 1 1\ns 1\ns ")),
        ("bad.rep", Stored::Failing(b"s 1\n")),
        ("begun.off", Stored::Failing(b"p off 1 1\no 1 1 5 0\n")),
    ];
    for (line, status, fault) in [
        ("tree --delta 1 begun.gr begun.ss", 6, "gr: line 2: 9 Read"),
        (
            "tree --delta 1 begun.gr --source 1",
            6,
            "gr: line 2: 9 Read",
        ),
        (
            "tree --delta 1 failing.gr begun.ss",
            2,
            "gr: line 1: 3 NoProblem\nspt: failing.gr: no `p sp N M` line; a .gr file has one `p sp N M`, and `a U V W` for each of its M arcs",
        ),
        ("tree --delta 1 alone.gr begun.ss", 6, "ss: line 3: 9 Read"),
        (
            "pairs --delta 1 alone.gr begun.pairs",
            6,
            "pairs: line 2: 9 Read",
        ),
        (
            "pairs --delta 1 alone.gr cut.pairs",
            6,
            "pairs: line 2: 9 Read",
        ),
        ("pairs --delta 1 arc.gr bad.pairs", 6, "gr: line 3: 9 Read"),
        ("check alone.gr begun.tree", 6, "tree: line 2: 9 Read"),
        ("check begun.gr begun.tree", 6, "gr: line 2: 9 Read"),
        (
            "check --all diamond.gr within.trees",
            6,
            "tree: line 5: 9 Read",
        ),
        (
            "check --all diamond.gr behind.trees",
            6,
            "tree: line 4: 9 Read",
        ),
        ("check --all diamond.gr none", 6, "tree: line 1: 9 Read"),
        ("replay none", 6, "replay: line 1: 9 Read"),
        ("replay begun.rep", 6, "replay: line 3: 9 Read"),
        (
            "replay bad.rep",
            2,
            "replay: line 1: 3 NoProblem\nspt: bad.rep: no `p rep N K` line; a replay file has one `p rep N K`, and lines i, o, r, a and s: see spt replay --help",
        ),
        ("offers begun.off", 6, "offers: line 3: 9 Read"),
    ] {
        let line = format!(in rt.alloc(); "spt {line}")?;
        let ended = run_into(&rt, rt.alloc(), (AMPLE, AMPLE), line.as_str(), &files)?;
        let told = format!(in rt.alloc(); "spt: {fault}\n")?;
        expect(&rt, fault, ended, status, "", told.as_str());
    }
    Ok(())
}

// Asserts that a writer with less room takes only that beginning of the text and the program fails, and that a writer with just
// enough room takes all of it.
fn fails_behind_each_byte<R: Abort + Threads + Wait + Sync>(
    rt: &R,
    alloc: Global,
    line: &str,
    status: u8,
    text: &str,
) -> Result<(), Fail> {
    let files = [
        ("alone.gr", whole(ALONE)),
        ("diamond.gr", whole(DIAMOND)),
        ("one.ss", whole(ONE)),
        ("three.pairs", whole("p pairs 3\nq 1 4\nq 1 1\nq 4 1\n")),
        ("none.tree", whole("p spt 1 1\ne 0\n")),
        (
            "lost.rep",
            whole("p rep 1 2\no 1 1 5 3\no 2 1 5 2\ns 1\ns 2\ns 1\ns 2\ns 2\n"),
        ),
        (
            "f.off",
            whole("p off 1 2\no 1 1 9 1\no 1 1 7 4\no 2 1 7 2\no 2 1 8 3\n"),
        ),
    ];
    for room in 0..text.len() {
        let ended = run_into(rt, alloc, (room, AMPLE), line, &files)?;
        let begun = text.get(..room).expect(rt, "a boundary");
        expect(rt, line, ended, 6, begun, "spt: write failed\n");
    }
    let ended = run_into(rt, alloc, (text.len(), 0), line, &files)?;
    expect(rt, line, ended, status, text, "");
    Ok(())
}

#[test]
fn writers_that_fail(rt: HostRuntime) -> Result<(), Fail> {
    for (line, status, text) in [
        (
            "spt tree alone.gr one.ss --delta 1",
            0,
            "p spt 1 1\nv 1 0 0\ne 1\n",
        ),
        (
            "spt pairs diamond.gr three.pairs --delta 2",
            0,
            "d 1 4 5 2\nd 1 1 0 0\nn 4 1\n",
        ),
        ("spt check alone.gr none.tree", 3, "no 1 2\n"),
        (
            "spt replay lost.rep",
            0,
            "o 1 1 5 3 shorter 1 3\no 2 1 5 2 smaller 2 5\nw 1 5 2\nt 2 1\nclosed yes\n",
        ),
        ("spt offers f.off", 0, "w 1 7 2\ne 1\n"),
        ("spt --version", 0, "spt 1.6.0\n"),
    ] {
        fails_behind_each_byte(&rt, rt.alloc(), line, status, text)?;
    }
    // Of help and of a picture, a beginning is written too.
    let files = [("one.rep", whole("p rep 1 1\n"))];
    for (room, line, begun) in [
        (27, "spt --help", "A shortest-path tree engine"),
        (5, "spt replay one.rep --svg", "<svg "),
    ] {
        let ended = run_into(&rt, rt.alloc(), (room, AMPLE), line, &files)?;
        expect(&rt, line, ended, 6, begun, "spt: write failed\n");
    }
    Ok(())
}

// The status is the same whether or not standard error takes the line of a fault.
#[test]
fn errors_that_fail(rt: HostRuntime) -> Result<(), Fail> {
    let files = [("f.rep", whole("p rep 1 1\np rep 1 1\n"))];
    let line = "spt: replay: line 2: 4 SecondProblem\n";
    for room in 0..line.len() {
        let ended = run_into(&rt, rt.alloc(), (AMPLE, room), "spt replay f.rep", &files)?;
        let begun = line.get(..room).expect(&rt, "a boundary");
        expect(&rt, "errors", ended, 2, "", begun);
    }
    Ok(())
}
