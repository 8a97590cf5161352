//! Reads a graph's file.
ghost use Rattle.std.specs.Prelude.{◌≡◌, ℕ, List, true, false, Some, IfOk, IfErr};
ghost use Rattle.sp_word.specs.Word.{is_layout};
ghost use Rattle.sp_device.specs.Failing.{Never};
ghost use Rattle.sp_text.specs.Whole.{NeverRead};
ghost use Rattle.sp_dimacs.specs.Graph.{SpellsUpTo, ReadUpTo, IsNetworkUpTo};
ghost use Rattle.sp_network.specs.Network.{most_of, SpellsNetwork, NetworkRead, IsOfDevice, Answered};

use crate::directions::Direction;
use crate::faults::NetworkFault;
use crate::network::Network;
use sp_device::{Peeked, Read};
use sp_dimacs::{DimacsError, GrFile, Kind, read_gr_both_ways, read_gr_by};
use sp_packed::{is_packed, read_packed_file};
use sp_word::{ThreadsAndSleep, Workers};
use std::alloc::Global;

// Reads the rest of a device's bytes as lines. They may announce as many arcs as this direction allows.
fn read_directed<const P: u32, H: ThreadsAndSleep, R: Read>(
    rt: &H,
    alloc: Global,
    reader: &mut R,
    workers: Workers,
    direction: Direction,
) -> Result<GrFile, DimacsError>
    requires { is_layout P ≡ true }
    ensures exact { (text : List ℕ) → R.left reader.old ≡ Some text → ReadUpTo P (most_of direction)
        text (R.left reader.new) (R.has_failed reader.new) result }
    ensures found { IfOk result
        (λ file. (text : List ℕ) × SpellsUpTo P (most_of direction) text file) }
    ensures graph { IfOk result (IsNetworkUpTo P (most_of direction)) }
    ensures read { IfErr result (λ e. e.kind ≡ Kind.Read → R.has_failed reader.new ≡ true) }
    ensures never { NeverRead (R.failing reader.old) result }
{
    match direction {
        Direction::AsGiven | Direction::Towards => read_gr_by::<P, H, R>(
            rt, alloc, reader, workers,
        ),
        Direction::BothWays => read_gr_both_ways::<P, H, R>(rt, alloc, reader, workers),
    }
}

// Reads the rest of a device's bytes as a text of lines.
fn read_lines<const P: u32, H: ThreadsAndSleep, R: Read>(
    rt: &H,
    alloc: Global,
    reader: &mut R,
    workers: Workers,
    direction: Direction,
) -> Result<Network, NetworkFault>
    requires { is_layout P ≡ true }
    ensures { Answered false P (most_of direction) (R.left reader.old) (R.left reader.new)
        (R.has_failed reader.new) (R.failing reader.old) result }
{
    match read_directed::<P, H, R>(rt, alloc, reader, workers, direction) {
        Ok(file) => Ok(Network::of_lines(file)),
        Err(error) => Err(NetworkFault::Text(error)),
    }
}

// Reads the rest of a device's bytes as a packed text.
fn read_words<const P: u32, R: Read>(
    alloc: Global,
    reader: &mut R,
    direction: Direction,
) -> Result<Network, NetworkFault>
    requires { is_layout P ≡ true }
    ensures { Answered true P (most_of direction) (R.left reader.old) (R.left reader.new)
        (R.has_failed reader.new) (R.failing reader.old) result }
{
    match read_packed_file::<P, R>(alloc, reader, direction.most_arcs()) {
        Ok(file) => Ok(Network::of_words(file)),
        Err(fault) => Err(NetworkFault::Packed(fault)),
    }
}

/// Reads the rest of a device's bytes, and returns the network that they spell, or their first fault. A text whose first byte
/// is 0x89 is packed; every other text has lines. In both forms it may announce as many arcs as this direction allows.
///
/// A text of lines is read with this many workers, including this thread. Only this thread reads the device. An empty text
/// lacks a problem line. If the device fails before the first byte, the fault is Read at line 1.
pub fn read_network<const P: u32, H: ThreadsAndSleep, D: Read>(
    rt: &H,
    alloc: Global,
    reader: &mut Peeked<D>,
    workers: Workers,
    direction: Direction,
) -> Result<Network, NetworkFault>
    requires { is_layout P ≡ true }
    ensures exact { (text : List ℕ) → ⟦<Peeked<D> as Read>⟧.left reader.old ≡ Some text
        → NetworkRead P (most_of direction) text (⟦<Peeked<D> as Read>⟧.left reader.new)
        (⟦<Peeked<D> as Read>⟧.has_failed reader.new) result }
    ensures found { IfOk result
        (λ file. (text : List ℕ) × SpellsNetwork P (most_of direction) text file) }
    ensures network { IfOk result (IsNetworkUpTo P (most_of direction)) }
    ensures read { IfErr result (λ fault. IsOfDevice fault
        → ⟦<Peeked<D> as Read>⟧.has_failed reader.new ≡ true) }
    ensures never { ⟦<Peeked<D> as Read>⟧.failing reader.old ≡ Never
        → IfErr result (λ fault. IsOfDevice fault → ⊥) }
{
    let next = match reader.peek() {
        Ok(next) => next,
        Err(_) => {
            return Err(NetworkFault::Text(DimacsError {
                line: 1,
                kind: Kind::Read,
            }));
        }
    };
    if is_packed(next) {
        read_words::<P, Peeked<D>>(alloc, reader, direction)
    } else {
        read_lines::<P, H, Peeked<D>>(rt, alloc, reader, workers, direction)
    }
}
