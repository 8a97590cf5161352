ghost use Rattle.std.specs.Prelude.{◌<◌, ◌≤◌, ◌^◌, length};

use crate::faulty::Faulty;
use sp_device::{Failed, OfRead, OfWrite, Read, UpToWriter, Write, WriteFault, write_all};
use std::alloc::Global;
use std::io::ErrorKind;
use std::test::Fail;
use tests_samples::DIAMOND_GR;

#[test]
fn readers_of_std(rt: HostRuntime) {
    let mut shaky = OfRead::new(Faulty::new(2, 2, ErrorKind::Interrupted));
    let mut buffer = [0; 4];
    for want in [Ok(2), Err(Failed), Err(Failed)] {
        assert_eq!(rt; shaky.read(&mut buffer), want);
    }
}

#[test]
fn readers_fail_where_std_fails(rt: HostRuntime) {
    let mut file = OfRead::new(Faulty::new(1000, 400, ErrorKind::Other));
    let mut buffer = [0; 4096];
    for call in 1..402 {
        assert!(rt; file.read(&mut buffer) == passed_till(call, 400));
    }
}

#[test]
fn writers_fail_where_std_fails(rt: HostRuntime) {
    let mut out = OfWrite::new(Faulty::new(1000, 400, ErrorKind::Other));
    let buffer = [0; 4096];
    for call in 1..402 {
        assert!(rt; call >= 400 || out.write(b"") == Ok(0));
        assert!(rt; out.write(&buffer) == passed_till(call, 400));
    }
}

// What a call is to answer of a device that passes a thousand bytes a call until this one fails.
fn passed_till(call: u32, failing: u32) -> Result<usize, Failed> {
    if call < failing {
        Ok(1000)
    } else {
        Err(Failed)
    }
}

// The bytes that a reader of std gives before its end.
fn bytes_of<R: Read>(alloc: Global, file: &mut R) -> Result<Vec<u8>, Fail> {
    let mut all = Vec::new(alloc);
    let mut buffer = [0; 65_536];
    for _ in 0..1000 {
        match file.read(&mut buffer) {
            Ok(0) => break,
            Ok(n) => all.extend_from_slice(&buffer[..n])?,
            Err(Failed) => break,
        }
    }
    Ok(all)
}

// Whether a device over a reader of std passes this text, and then nothing.
fn is_read(alloc: Global, text: &[u8]) -> Result<bool, Fail> {
    let mut file = OfRead::new(text);
    let all = bytes_of(alloc, &mut file)?;
    let mut buffer = [0; 8];
    let more = file.read(&mut buffer);
    Ok(all.as_slice() == text && more == Ok(0))
}

#[test]
fn long_files_are_read(rt: HostRuntime) -> Result<(), Fail> {
    let alloc = rt.alloc();
    let text = vec![in alloc; b'y'; 400_000]?;
    assert!(rt; is_read(alloc, &text)?);
    Ok(())
}

type Written = Result<(), WriteFault>;

// What a device over a writer of std answers, which has room for a text alone: to the text, to `flush`, and to more.
fn written(room: &mut [u8], text: &[u8]) -> (Written, Written, Written) {
    let mut out = OfWrite::new(room);
    let whole = write_all(&mut out, text);
    let flushed = out.flush();
    let more = write_all(&mut out, b"z");
    (whole, flushed, more)
}

#[test]
fn long_files_are_written(rt: HostRuntime) -> Result<(), Fail> {
    let text = [b'y'; 400_000];
    let mut room = vec![in rt.alloc(); 0u8; 400_000]?;
    let answers = written(&mut room, &text);
    assert_eq!(rt; answers, (Ok(()), Ok(()), Err(WriteFault)));
    assert!(rt; room.as_slice() == text.as_slice());
    Ok(())
}

#[test]
fn writers_of_std(rt: HostRuntime) {
    let mut room = [0u8; 4];
    let mut out = OfWrite::new(room.as_mut_slice());
    assert!(rt; write_all(&mut out, b"abc") == Ok(()));
    assert!(rt; write_all(&mut out, b"de") == Err(WriteFault));
    assert!(rt; out.write(b"") == Err(Failed));
}

// Whether a device takes the beginning of a text that it has room for, and fails where that isn't all.
fn stands(alloc: Global, text: &[u8], room: usize, most: usize) -> bool
    requires some { 0 < most }
    requires within { room ≤ length text.now }
    requires short { length text.now ≤ 2 ^ 62 }
{
    let mut out = UpToWriter::new(alloc, room, most);
    let is_whole = write_all(&mut out, text).is_ok();
    is_whole == (room == text.len()) && out.taken() == &text[..room]
}

#[test]
fn a_beginning_stands(rt: HostRuntime) {
    let text = DIAMOND_GR.as_bytes();
    assert!(rt; text.len() == 49);
    for room in 0..50 {
        for most in 1..60 {
            assert!(rt; stands(rt.alloc(), text, room, most));
        }
    }
}

#[test]
fn printed_fault(rt: HostRuntime) -> Result<(), Fail> {
    let shown = format!(in rt.alloc(); "{WriteFault}")?;
    assert_eq!(rt; shown.as_str(), "10 Write");
    Ok(())
}
