//! The printed lines and statuses of faults that no file causes, and of faults of packed graphs.
use crate::shelf::AMPLE;
use sp_command::{Fault, FileKind};
use sp_device::{UpToWriter, WriteFault};
use sp_packed::PackedField::{Arcs, End, Head, Length, Vertices};
use sp_packed::PackedKind::{Memory, OtherForm, OtherSum, OutOfRange, Read, TooFew, TooMany};
use sp_packed::{PackedFault, PackedKind};
use sp_text::{DimacsError, Kind};
use std::alloc::{AllocError, Global};
use std::process::Abort;
use std::str::from_utf8;
use std::test::Fail;

// Asserts the status of a fault, and the line that is printed of it.
fn expect(
    rt: &impl Abort,
    alloc: Global,
    fault: Fault,
    status: u8,
    line: &str,
) -> Result<(), Fail> {
    let mut err = UpToWriter::new(alloc, AMPLE, AMPLE);
    let _ = fault.write_line(&mut err);
    let told = format!(in alloc; "spt: {line}\n")?;
    assert_eq!(rt; from_utf8(err.taken()), Ok(told.as_str()));
    assert_eq!(rt; fault.status().code(), status);
    Ok(())
}

#[test]
fn faults_of_memory_and_of_writing(rt: HostRuntime) -> Result<(), Fail> {
    let kind = Kind::Memory;
    let replay = FileKind::Replay.fault(DimacsError { line: 7, kind });
    expect(&rt, rt.alloc(), replay, 5, "replay: line 7: 8 Memory")?;
    expect(&rt, rt.alloc(), Fault::from(AllocError), 5, "memory")?;
    expect(&rt, rt.alloc(), Fault::from(WriteFault), 6, "write failed")
}

// Each kind of fault of a packed graph, with its status and the end of its line from the specification.
const PACKED: [(u64, PackedKind, u8, &str); 12] = [
    (0, OtherForm, 2, "0: 10 OtherForm"),
    (4, OtherForm, 2, "4: 10 OtherForm"),
    (8, OutOfRange(Vertices), 2, "8: 5 OutOfRange N"),
    (12, OutOfRange(Arcs), 2, "12: 5 OutOfRange M"),
    (24, OutOfRange(End), 2, "24: 5 OutOfRange E"),
    (36, OutOfRange(Head), 2, "36: 5 OutOfRange V"),
    (64, OutOfRange(Length), 2, "64: 5 OutOfRange W"),
    (76, OtherSum, 2, "76: 11 OtherSum"),
    (92, TooMany, 2, "92: 6 TooMany"),
    (48, TooFew, 2, "48: 7 TooFew"),
    (4294967296, Memory, 5, "4294967296: 8 Memory"),
    (0, Read, 6, "0: 9 Read"),
];

#[test]
fn faults_of_packed_graphs(rt: HostRuntime) -> Result<(), Fail> {
    for (at, kind, status, end) in PACKED {
        let fault = Fault::Packed(PackedFault { at, kind });
        let line = format!(in rt.alloc(); "gr: byte {end}")?;
        expect(&rt, rt.alloc(), fault, status, line.as_str())?;
    }
    Ok(())
}
