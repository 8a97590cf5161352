//! The files of the worked examples' forests, and one fault of each kind.
ghost use Rattle.std.specs.Prelude.{◌<◌, length};

use sp_device::{Read, UpTo, UpToWriter};
use sp_files::{
    ForestReader, TreeOrForest, first_line_tells, forest_text_is_read, forest_texts_are_accepted,
    read_forest, read_tree_or_forest, write_forest,
};
use sp_text::{DimacsError, Kind};
use sp_word::Word;
use std::alloc::Global;
use std::test::Fail;

const TWO_ROOTS: &str = "p near 4 2\nv 1 0 0 1\nv 2 3 1 1\nv 3 0 0 3\nv 4 2 3 3\ne 4\n";

const EXAMPLES: [(&str, usize, u32); 5] = [
    (TWO_ROOTS, 4, 2),
    ("p near 4 0\ne 0\n", 0, 0),
    ("p near 4 2\nv 2 0 0 2\nv 3 0 0 3\nv 4 2 2 2\ne 3\n", 3, 2),
    ("p near 3 2\nv 1 5 2 2\nv 2 0 0 2\nv 3 0 0 3\ne 3\n", 3, 2),
    ("p near 2 2\nv 1 0 0 1\nv 2 0 0 2\ne 2\n", 2, 2),
];

/// A text, and the line and kind of its fault.
type Faulty = (&'static str, u64, Kind);

/// The bytes of a text of a test, which is shorter than 100 bytes.
fn bytes_of(text: &str) -> &[u8]
    ensures { length result.now < 100 }
{
    let bytes = text.as_bytes();
    if bytes.len() < 100 { bytes } else { b"" }
}

// Whether a file with this many rows and sources is read, and its forest is written back unchanged.
fn is_kept(alloc: Global, text: &str, rows: usize, sources: u32) -> bool {
    let Ok(file) = read_forest::<28, _>(alloc, &mut UpTo::in_pieces(bytes_of(text), 5)) else {
        return false;
    };
    let mut out = UpToWriter::new(alloc, 100, 100);
    write_forest(&file.forest, &mut out).is_ok()
        && out.taken() == text.as_bytes()
        && (file.forest.rows().len(), file.sources) == (rows, sources)
}

#[test]
fn worked_examples(rt: HostRuntime) -> Result<(), Fail> {
    for (text, rows, sources) in EXAMPLES {
        assert!(rt; is_kept(rt.alloc(), text, rows, sources));
    }
    let file = read_forest(rt.alloc(), &mut UpTo::in_pieces(bytes_of(TWO_ROOTS), 5))?;
    let rows: [(u32, Word<28>, u32); 4] = [
        (1, Word::pack(0, 0), 1),
        (2, Word::pack(3, 1), 1),
        (3, Word::pack(0, 0), 3),
        (4, Word::pack(2, 3), 3),
    ];
    assert!(rt; file.forest.rows() == rows.as_slice());
    forest_texts_are_accepted();
    forest_text_is_read();
    first_line_tells();
    Ok(())
}

// Whether reading this text in pieces reports this fault.
fn is_refused(alloc: Global, (text, line, kind): Faulty) -> bool {
    let read = read_forest::<28, _>(alloc, &mut UpTo::in_pieces(bytes_of(text), 5));
    read.err() == Some(DimacsError { line, kind })
}

#[test]
fn faults(rt: HostRuntime) -> Result<(), Fail> {
    for row in [
        ("", 1, Kind::NoProblem),
        ("v 1 0 0 1\n", 1, Kind::NoProblem),
        ("p spt 1 1\ne 0\n", 1, Kind::BadLine),
        ("p near 1  1\ne 0\n", 1, Kind::BadLine),
        ("p near 1 1\nv 1 0 0\n", 2, Kind::BadLine),
        ("p near 1 1\nv 1 0 00 1\n", 2, Kind::BadLine),
        ("p near 1 1\nx 1\n", 2, Kind::BadLine),
        ("p near 1 1\np near 1 1\n", 2, Kind::SecondProblem),
        ("p near 0 0\n", 1, Kind::OutOfRange(b'N')),
        ("p near 268435455 0\n", 1, Kind::OutOfRange(b'N')),
        ("p near 2 3\n", 1, Kind::OutOfRange(b'K')),
        ("p near 2 1\nv 3 0 0 1\n", 2, Kind::OutOfRange(b'V')),
        (
            "p near 2 1\nv 1 0 0 1\nv 1 0 0 1\n",
            3,
            Kind::OutOfRange(b'V'),
        ),
        (
            "p near 2 1\nv 1 68719476735 0 1\n",
            2,
            Kind::OutOfRange(b'D'),
        ),
        ("p near 2 1\nv 1 0 3 1\n", 2, Kind::OutOfRange(b'P')),
        ("p near 2 1\nv 1 0 0 0\n", 2, Kind::OutOfRange(b'S')),
        ("p near 2 1\nv 1 0 0 3\n", 2, Kind::OutOfRange(b'S')),
        ("p near 2 1\nv 1 0 0 1\ne 2\n", 3, Kind::OutOfRange(b'R')),
        ("p near 2 0\ne 0\n\n", 3, Kind::TooMany),
        ("p near 2 0\n", 2, Kind::TooFew),
        ("p near 2 0\ne 0", 2, Kind::TooFew),
    ] {
        assert!(rt; is_refused(rt.alloc(), row));
    }
    Ok(())
}

#[test]
fn fed_in_pieces(rt: HostRuntime) -> Result<(), Fail> {
    let mut reader = ForestReader::<28>::new(rt.alloc());
    for piece in TWO_ROOTS.as_bytes().chunks(7) {
        reader.feed(piece)?;
    }
    let file = reader.finish()?;
    let fed = reader.feed(b"p near 4 2\nv");
    let failed = DimacsError {
        line: 2,
        kind: Kind::Read,
    };
    let told = reader.fail();
    assert!(rt; (file.forest.n(), file.sources, fed, told) == (4, 2, Ok(()), failed));
    assert!(rt; reader.finish().err() == Some(failed));
    Ok(())
}

// Whether it is a forest, and the number of rows of the forest or tree.
fn rows_of(value: &TreeOrForest<28>) -> (bool, usize) {
    match value {
        TreeOrForest::Tree(tree) => (false, tree.rows().len()),
        TreeOrForest::Forest(file) => (true, file.forest.rows().len()),
    }
}

// Whether such a file is read in pieces of each size.
fn is_either(alloc: Global, text: &str, near: bool, rows: usize) -> bool {
    for most in 1..8 {
        match read_tree_or_forest(alloc, &mut UpTo::in_pieces(bytes_of(text), most)) {
            Ok(value) => {
                if rows_of(&value) != (near, rows) {
                    return false;
                }
            }
            Err(_) => return false,
        }
    }
    true
}

#[test]
fn either_file(rt: HostRuntime) -> Result<(), Fail> {
    let tree = "p spt 2 1\nv 1 0 0\nv 2 7 1\ne 2\n";
    assert!(rt; is_either(rt.alloc(), TWO_ROOTS, true, 4));
    assert!(rt; is_either(rt.alloc(), "p near 4 0\ne 0\n", true, 0));
    assert!(rt; is_either(rt.alloc(), tree, false, 2));
    Ok(())
}

// Whether reading from a device reports this fault.
fn has_fault(alloc: Global, device: &mut impl Read, line: u64, kind: Kind) -> bool {
    let read = read_tree_or_forest::<28, _>(alloc, device);
    read.err() == Some(DimacsError { line, kind })
}

#[test]
fn faults_of_either(rt: HostRuntime) -> Result<(), Fail> {
    for (text, line, kind) in [
        ("", 1, Kind::NoProblem),
        ("e 0\n", 1, Kind::NoProblem),
        ("v 1 0 0 1\n", 1, Kind::BadLine),
        ("v 1 0 0\n", 1, Kind::NoProblem),
        ("p nearly 1 1\n", 1, Kind::BadLine),
        ("p spt 1 1\nv 1 0 0 1\n", 2, Kind::BadLine),
        ("p near 1 1\nv 1 0 0\n", 2, Kind::BadLine),
        ("p near 1 2\n", 1, Kind::OutOfRange(b'K')),
        ("p near", 1, Kind::TooFew),
    ] {
        assert!(rt; has_fault(rt.alloc(), &mut UpTo::whole(bytes_of(text)), line, kind));
    }
    Ok(())
}

// The fault names the line being read when the device fails.
#[test]
fn failing_devices(rt: HostRuntime) -> Result<(), Fail> {
    for (text, line, kind) in [
        ("", 1, Kind::Read),
        ("p ne", 1, Kind::Read),
        ("\np n", 1, Kind::BadLine),
        ("p near 1 1\nv", 2, Kind::Read),
        ("p near 0 0\nv", 1, Kind::OutOfRange(b'N')),
        ("p spt 1 1\ne 0\n", 3, Kind::Read),
    ] {
        assert!(rt; has_fault(rt.alloc(), &mut UpTo::failing(bytes_of(text)), line, kind));
    }
    Ok(())
}
