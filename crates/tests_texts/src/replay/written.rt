ghost use Rattle.std.specs.Prelude.{◌≤◌};

use sp_device::{UpTo, UpToWriter, WriteFault};
use sp_replay::{Report, read_replay, replay, write_report};
use std::alloc::Global;
use std::test::Fail;

pub const LOST_EXCHANGE: &[u8] = b"p rep 1 2\no 1 1 5 3\no 2 1 5 2\ns 1\ns 2\ns 1\ns 2\ns 2\n";

const LOST_EXCHANGE_REPORT: &[u8] =
    b"o 1 1 5 3 shorter 1 3\no 2 1 5 2 smaller 2 5\nw 1 5 2\nt 2 1\nclosed yes\n";

// Whether a device that has no room for all of the report takes a beginning of it.
fn stands(alloc: Global, report: &Report<28>, room: usize) -> bool
    requires { room ≤ 69 }
{
    let mut out = UpToWriter::new(alloc, room, 9);
    let written = write_report(report, &mut out);
    written == Err(WriteFault) && out.taken() == &LOST_EXCHANGE_REPORT[..room]
}

#[test]
fn a_beginning_stands(rt: HostRuntime) -> Result<(), Fail> {
    let alloc = rt.alloc();
    let file = read_replay::<28, UpTo>(alloc, &mut UpTo::whole(LOST_EXCHANGE))?;
    let report = replay(alloc, &file.programme, &file.steps)?;
    for room in 0..69 {
        assert!(rt; stands(alloc, &report, room));
    }
    let mut out = UpToWriter::new(alloc, 69, 1);
    assert!(rt; write_report(&report, &mut out) == Ok(69));
    assert!(rt; out.taken() == LOST_EXCHANGE_REPORT);
    Ok(())
}
