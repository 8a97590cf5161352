//! The bytes of a device, block after block.
ghost use Rattle.std.specs.Prelude.{◌≡◌, [], false};
ghost use Rattle.sp_device.specs.Failing.{Never};
ghost use Rattle.sp_files.specs.Taking.{tree_form};
ghost use Rattle.sp_files.specs.Reading.{IsBehindFile};
ghost use Rattle.sp_files.specs.Stream.{stream, IsShort, IsLookedAt, BlockFed};

use crate::reading::TreeReader;
use crate::trees::block_state::{BlockState, run_of};
use sp_device::{Failed, Read};
use sp_dimacs::ReadBuffer;
use sp_text::DimacsError;

/// Feeds the reader of a tree the bytes of the next block, or all bytes that are left.
pub fn feed_block<const P: u32, R: Read>(
    reader: &mut R,
    piece: &mut ReadBuffer,
    tree: &mut TreeReader<P>,
) -> Result<(), DimacsError>
    ensures fed { IsShort R.Read (stream piece.old reader.old) → IsBehindFile tree_form [] tree.old
        → BlockFed R.Read (stream piece.old reader.old)
        result (stream piece.new reader.new) tree.new }
    ensures going { R.failing reader.old ≡ Never → R.has_failed reader.old ≡ false
        → R.has_failed reader.new ≡ false }
    ensures lasting { R.failing reader.new ≡ R.failing reader.old }
{
    let mut state = BlockState::Fresh;
    loop {
        let taken = run_of(&mut state, piece.bytes());
        let fed = tree.feed(&piece.bytes()[..taken]);
        piece.skip(taken);
        fed?;
        if state == BlockState::Over {
            return Ok(());
        }
        if piece.refill(reader).is_err() {
            piece.clear();
            return Err(tree.fail());
        }
        if piece.bytes().is_empty() {
            return Ok(());
        }
    }
}

/// Returns whether no bytes are left.
#[tactic(auto, using(crate::proofs::LeftBytes::one_waits, crate::proofs::LeftBytes::one_came))]
pub fn is_over<R: Read>(reader: &mut R, piece: &mut ReadBuffer) -> Result<bool, Failed>
    ensures looked { IsShort R.Read (stream piece.old reader.old)
        → IsLookedAt R.Read (stream piece.old reader.old)
        result (stream piece.new reader.new) }
    ensures going { R.failing reader.old ≡ Never → R.has_failed reader.old ≡ false
        → R.has_failed reader.new ≡ false }
    ensures lasting { R.failing reader.new ≡ R.failing reader.old }
{
    if !piece.bytes().is_empty() {
        return Ok(false);
    }
    if let Err(failed) = piece.refill(reader) {
        piece.clear();
        return Err(failed);
    }
    Ok(piece.bytes().is_empty())
}
