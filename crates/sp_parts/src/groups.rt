//! A text that one thread reads at first, and several once it is long.
ghost use Rattle.std.specs.Prelude.{◌≡◌, ℕ, List, [], Some, true, false, IfOk, IfErr};
ghost use Rattle.sp_device.specs.Failing.{Never};
ghost use Rattle.sp_text.specs.declared.faults.Kind.{Kind};
ghost use Rattle.sp_text.specs.Text.{judge};
ghost use Rattle.sp_text.specs.Collecting.{SpelledBy};
ghost use Rattle.sp_text.specs.Feeding.{IsBehind};
ghost use Rattle.sp_text.specs.Whole.{AllRead, IsSpelled, ReadOn, NeverRead};

use crate::leading::read_together;
use crate::pieces::KeepAcross;
use crate::plan::{Plan, Sizes, count_threads};
use crate::receiving::{Group, Received};
use sp_device::Read;
use sp_text::{Collector, DimacsError, Feeder, LineTaker, PIECE, read_items};
use sp_word::{ThreadsAndSleep, Workers};
use std::alloc::Global;
use std::marker::Brand;

// Reads a text alone, until enough came for others to join.
fn read_alone<K: KeepAcross + Send + Sync, H: ThreadsAndSleep, R: Read>(
    rt: &H,
    alloc: Global,
    device: &mut R,
    mut reader: Feeder<Collector<K>>,
    mut group: Group,
    plan: &Plan,
) -> Result<K::Value, DimacsError>
    requires { IsBehind (judge K.format K.ranges) ⟦<Collector<K> as LineTaker>⟧.After [] reader }
    ensures read { ReadOn (judge K.format K.ranges) (SpelledBy K.format K.Spelled)
        R.Read device.old result device.new }
    ensures never { R.failing device.old ≡ Never → R.has_failed device.new ≡ false }
{
    let mut came: usize = 0;
    loop {
        let received = group.receive(device);
        reader.feed_items(group.bytes())?;
        match received {
            Received::Over => return reader.finish(),
            Received::Failed => return Err(reader.fail()),
            Received::More => {}
        }
        came = came.saturating_add(group.bytes().len());
        if came < plan.sizes.alone || !reader.has_problem() {
            continue;
        }
        match read_together::<K, Brand, H, R>(rt, alloc, device, reader, plan) {
            Ok(result) => return result,
            Err(back) => reader = back,
        }
    }
}

/// Reads the rest of a device's bytes as `read_items` does, with this many workers, including this thread.
///
/// There are no more threads than processors. Only this thread reads the device. If there is no memory for what other threads
/// would read, this thread reads that itself.
pub fn read_items_by<K: KeepAcross + Send + Sync, H: ThreadsAndSleep, R: Read>(
    rt: &H,
    alloc: Global,
    device: &mut R,
    reader: Feeder<Collector<K>>,
    workers: Workers,
    sizes: Sizes,
) -> Result<K::Value, DimacsError>
    requires { IsBehind (judge K.format K.ranges) ⟦<Collector<K> as LineTaker>⟧.After [] reader }
    ensures exact { (text : List ℕ) → R.left device.old ≡ Some text
        → AllRead (judge K.format K.ranges) (SpelledBy K.format K.Spelled) text
        (R.left device.new) (R.has_failed device.new) result }
    ensures found { IfOk result
        (IsSpelled (judge K.format K.ranges) (SpelledBy K.format K.Spelled)) }
    ensures read { IfErr result (λ e. e.kind ≡ Kind.Read → R.has_failed device.new ≡ true) }
    ensures never { NeverRead (R.failing device.old) result }
{
    let threads = count_threads(rt, workers);
    if threads <= 1 {
        return read_items(device, reader);
    }
    let Ok(group) = Group::new(alloc, PIECE.min(sizes.piece).max(1)) else {
        return read_items(device, reader);
    };
    read_alone(rt, alloc, device, reader, group, &Plan { threads, sizes })
}
