//! Reads a whole text from a device.
ghost use Rattle.std.specs.Prelude.{◌≡◌, ℕ, List, [], true, false, Some, IfOk, IfErr};
ghost use Rattle.sp_device.specs.Failing.{Never};
ghost use Rattle.sp_text.specs.Whole.{AllRead, IsSpelled, ReadOn, NeverRead};
ghost use Rattle.sp_text.specs.Feeding.{IsBehind};

use crate::faults::{DimacsError, Kind};
use crate::feeding::{Feeder, LineTaker};
use sp_device::Read;

/// The number of bytes read from a device at a time.
pub const PIECE: usize = 65_536;

// Reads the device to its end, and feeds the bytes to the reader.
fn read_on<R: Read, T: LineTaker + Drop>(
    reader: &mut R,
    mut feeder: Feeder<T>,
) -> Result<T::Value, DimacsError>
    requires { IsBehind T.rules T.After [] feeder }
    ensures read { ReadOn T.rules T.Spelled R.Read reader.old result reader.new }
    ensures never { R.failing reader.old ≡ Never → R.has_failed reader.new ≡ false }
{
    let mut buffer = [0u8; PIECE];
    loop {
        match reader.read(&mut buffer) {
            Ok(0) => return feeder.finish(),
            Ok(n) => feeder.feed(&buffer[..n])?,
            Err(_) => return Err(feeder.fail()),
        }
    }
}

/// Reads the rest of a reader's bytes, and returns the value that they spell, or their first fault. If there is no
/// memory for the value of an item line, the fault is Memory at that line, unless a line up to it has a fault.
pub fn read_text<R: Read, T: LineTaker + Drop>(
    reader: &mut R,
    feeder: Feeder<T>,
) -> Result<T::Value, DimacsError>
    requires { IsBehind T.rules T.After [] feeder }
    ensures exact { (text : List ℕ) → R.left reader.old ≡ Some text
        → AllRead T.rules T.Spelled text (R.left reader.new) (R.has_failed reader.new) result }
    ensures found { IfOk result (IsSpelled T.rules T.Spelled) }
    ensures read { IfErr result (λ e. e.kind ≡ Kind.Read → R.has_failed reader.new ≡ true) }
    ensures never { NeverRead (R.failing reader.old) result }
{
    read_on(reader, feeder)
}
