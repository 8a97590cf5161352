//! Replay files.
ghost use Rattle.std.specs.Prelude.{◌≡◌, ℕ, List, All, IfOk, IfErr, Some, true};
ghost use Rattle.sp_word.specs.Word.{is_layout};
ghost use Rattle.sp_machine.specs.Programme.{IsNumber, IsProgramme};
ghost use Rattle.sp_text.specs.Whole.{NeverRead};
ghost use Rattle.sp_replay.specs.Keeping.{plan_of};
ghost use Rattle.sp_replay.specs.ReplayFile.{IsReplayFile, ReplayRead};

use crate::keeper::{Keeper, ReplayParts};
use sp_device::Read;
use sp_machine::Programme;
use sp_text::{Collector, DimacsError, Feeder, Kind, read_text};
use std::alloc::Global;

/// What a replay file holds.
#[derive(Drop)]
pub struct ReplayFile<const P: u32> {
    /// The words at the start, and the items of each actor.
    pub programme: Programme<P>,
    /// The actors of the steps, in order.
    pub steps: Vec<u32>,
}

// Returns the file that has these parts.
fn file_of<const P: u32>(parts: ReplayParts<P>) -> ReplayFile<P>
    requires layout { is_layout P ≡ true }
    requires programme { IsProgramme (plan_of parts) }
    ensures programme { result.programme ≡ plan_of parts.entry }
    ensures steps { result.steps.items ≡ parts.entry.steps.items }
{
    ReplayFile {
        programme: Programme::new(parts.words, parts.actors, parts.named, parts.rows),
        steps: parts.steps,
    }
}

/// Reads the rest of a reader's bytes, and returns the replay file that they spell, or their first fault.
///
/// It allocates memory for the values as they come. If an allocation fails, the fault is Memory at the line of that value,
/// unless that line or an earlier one has a fault. After a fault it is unspecified how much the reader took from its source.
pub fn read_replay<const P: u32, R: Read>(
    alloc: Global,
    reader: &mut R,
) -> Result<ReplayFile<P>, DimacsError>
    requires { is_layout P ≡ true }
    ensures found { IfOk result IsReplayFile }
    ensures steps { IfOk result (λ file. All (IsNumber file.programme.actors) file.steps.items) }
    ensures exact { (text : List ℕ) → R.left reader.old ≡ Some text
        → ReplayRead text (R.left reader.new) (R.has_failed reader.new) result }
    ensures read { IfErr result (λ e. e.kind ≡ Kind.Read → R.has_failed reader.new ≡ true) }
    ensures never { NeverRead (R.failing reader.old) result }
{
    let feeder = Feeder::new(Collector::new(Keeper::<P>::new(alloc)));
    match read_text(reader, feeder) {
        Ok(parts) => Ok(file_of(parts)),
        Err(e) => Err(e),
    }
}
