// This module contains only the type, so that definitions can name it.
ghost use Rattle.std.specs.Prelude.{◌≡◌, ◌≤◌, ◌==◌, is_some};

mod calls;

use crate::slot::Slot;
pub use calls::Taken;

/// A place that keeps a graph between calls, or keeps none. For C it is a pointer and a number: 0 if it keeps none, 1 if it
/// keeps a graph, and 2 while a call uses it. If all bytes are 0, it keeps no graph. Only this crate may write it.
///
/// A call first swaps the number for 2, and last writes the number that is then right, each in one step of the machine. It
/// reads and writes the pointer only in between, and only if the swap found another number than 2. So a call that finds 2
/// has changed nothing, and can report that the place is in use. Several places may keep the same graph.
#[repr(C)]
pub struct KeptGraph {
    slot: Slot,
    state: u64,
    ghost tied: { (state == 1) ≡ is_some slot.shared },
    ghost known: { state ≤ 2 },
}
