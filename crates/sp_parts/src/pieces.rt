//! Pieces of a text, which threads pass to one another. The type of a piece that comes back says what is known of it.
ghost use Rattle.std.specs.Prelude.{◌≡◌, ℕ, List, Option, Some, None};
ghost use Rattle.std.specs.Arc.{arc_value};
ghost use Rattle.sp_text.specs.Text.{ItemLine};
ghost use Rattle.sp_text.specs.Plain.{HasProblem};
ghost use Rattle.sp_parts.specs.Parts.{IsAt, AreParts};

use crate::parts::{Part, read_parts};
use crate::receiving::Group;
use sp_text::{Collector, Feeder, KeepParts};
use std::alloc::Global;
use std::marker::{Brand, PhantomData};
use std::sync::Arc;

/// Also keeps items that another thread has read. There is at most one proof that it keeps them, so that the result for a piece
/// can bring it along.
pub trait KeepAcross: KeepParts {
    ghost one_proof: { (keep : Self) (items : List ItemLine) → IsProp (Self.Kept keep items) };
}

/// Where the pieces of one call come from. The call chooses it, for its proof only.
pub trait Origin {
    // The text that the device had left when the first piece came, if it is known.
    ghost text: { Option (List ℕ) };

    // The numbers of the problem line that was read before, if one was.
    ghost problem: { Option (List ℕ) };
}

impl Origin for Brand {
    ghost text = { None };

    ghost problem = { None };
}

/// Some bytes that came from the device at once, and that several threads may hold.
#[derive(Drop)]
pub struct Piece<O: Origin> {
    /// The number of pieces that came before it.
    pub(crate) number: u64,
    /// The number of bytes that came before it.
    pub(crate) start: u64,
    pub(crate) group: Arc<Group>,
    origin: PhantomData<O>,
    ghost came: { IsAt O.text start (arc_value group) },
}

/// What was read from a piece.
#[derive(Drop)]
pub struct ReadPiece<K: KeepParts, O: Origin> {
    pub(crate) piece: Piece<O>,
    pub(crate) parts: Vec<Part<K>>,
    ghost read: { ∥ AreParts K.format K.ranges K.Kept O.problem
        (arc_value piece.group) parts.items ∥₁ },
}

impl<O: Origin> Piece<O> {
    /// Returns the piece of these bytes.
    pub(crate) fn new(number: u64, start: u64, group: Arc<Group>) -> Piece<O>
        requires { IsAt O.text start (arc_value group) }
    {
        Piece {
            number,
            start,
            group,
            origin: PhantomData,
        }
    }
}

/// Reads the plain lines of a piece, as long as there is memory.
pub(crate) fn read_piece<K: KeepParts, O: Origin>(
    alloc: Global,
    reader: &Feeder<Collector<K>>,
    piece: Piece<O>,
) -> ReadPiece<K, O>
    requires { (ps : List ℕ) → O.problem ≡ Some ps → HasProblem reader.now ps }
{
    let parts = read_parts(alloc, reader, piece.group.bytes());
    ReadPiece { piece, parts }
}
