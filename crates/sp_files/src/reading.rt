//! Files of trees and forests, read whole or fed in pieces.
ghost use Rattle.std.specs.Prelude.{◌≡◌, ◌≤◌, ◌^◌, ◌++◌, ℕ, List, [], length, true, Err, Some, IfOk, IfErr};
ghost use Rattle.sp_word.specs.Word.{is_layout};
ghost use Rattle.sp_text.specs.First.{fault_at_failure};
ghost use Rattle.sp_text.specs.Whole.{NeverRead};
ghost use Rattle.sp_answer.specs.Table.{IsTable};
ghost use Rattle.sp_files.specs.Spelling.{judge};
ghost use Rattle.sp_files.specs.Taking.{IsContent, tree_form, forest_form};
ghost use Rattle.sp_files.specs.Reading.{IsBehindFile, IsSpentFile, FileFed, FileFinished, FileRead};
ghost use Rattle.sp_files.specs.TreeOrForest.{EitherRead, IsEither, IsHeld};

use crate::content::FileContent;
use crate::either::TreeOrForest;
use crate::forests::file::ForestFile;
use crate::taking::FileLines;
use sp_answer::Tree;
use sp_device::Read;
use sp_text::{DimacsError, Feeder, Kind, read_text};
use std::alloc::Global;

/// A reader of a file's text that comes in pieces, for words of `P` bits of predecessor. It reports the first fault of
/// the text, as early as the bytes so far show it, and returns the same fault from then on.
#[derive(Drop)]
pub struct FileReader<V, const P: u32> {
    feeder: Feeder<FileLines<V, P>>,
}

/// A reader of a tree's text.
pub type TreeReader<const P: u32> = FileReader<Tree<P>, P>;

/// A reader of a forest's text.
pub type ForestReader<const P: u32> = FileReader<ForestFile<P>, P>;

impl<V: FileContent<P>, const P: u32> FileReader<V, P> {
    /// Returns a reader that has read no text.
    pub fn new(alloc: Global) -> Self
        requires { is_layout P ≡ true }
        ensures { IsBehindFile V.form [] result }
    {
        FileReader {
            feeder: Feeder::new(FileLines::new(alloc)),
        }
    }

    /// Takes the next piece of the text.
    pub fn feed(&mut self, piece: &[u8]) -> Result<(), DimacsError>
        ensures again { (e : DimacsError) → IsSpentFile e self.old
            → (result ≡ Err e) × (self.new ≡ self.old) }
        ensures fed { (text : List ℕ) → length (text ++ piece.now) ≤ 2 ^ 62
            → IsBehindFile V.form text self.old
            → FileFed V.form text piece.now result self.new }
    {
        self.feeder.feed(piece)
    }

    /// Ends the text. A reader that returns what the text holds then begins a new text.
    #[tactic(auto, using(crate::proofs::FileEnds::file_finished))]
    pub fn finish(&mut self) -> Result<V, DimacsError>
        ensures again { (e : DimacsError) → IsSpentFile e self.old
            → (result ≡ Err e) × (self.new ≡ self.old) }
        ensures finished { (text : List ℕ) → length text ≤ 2 ^ 62
            → IsBehindFile V.form text self.old → FileFinished V.form text result self.new }
    {
        self.feeder.finish()
    }

    /// Reports a failure of the device: returns the fault that was met before, or Read at the line being read.
    pub fn fail(&mut self) -> DimacsError
        ensures again { (e : DimacsError) → IsSpentFile e self.old
            → (result ≡ e) × (self.new ≡ self.old) }
        ensures failed { (text : List ℕ) → length text ≤ 2 ^ 62 → IsBehindFile V.form text self.old
            → (fault_at_failure (judge P V.form.begins) text ≡ Some result)
            × IsSpentFile result self.new }
    {
        self.feeder.fail()
    }
}

/// Reads the rest of a device's bytes, and returns the tree that they spell, or their first fault. If there is no
/// memory for a row, the fault is Memory at its line, unless a line up to it has a fault.
#[tactic(auto, using(crate::proofs::FileEnds::file_read, crate::proofs::FileEnds::file_found))]
pub fn read_tree<const P: u32, R: Read>(
    alloc: Global,
    reader: &mut R,
) -> Result<Tree<P>, DimacsError>
    requires { is_layout P ≡ true }
    ensures exact { (text : List ℕ) → R.left reader.old ≡ Some text
        → FileRead P tree_form text (R.left reader.new) (R.has_failed reader.new) result }
    ensures found { IfOk result (IsTable P) }
    ensures read { IfErr result (λ e. e.kind ≡ Kind.Read → R.has_failed reader.new ≡ true) }
    ensures never { NeverRead (R.failing reader.old) result }
{
    read_text(reader, Feeder::new(FileLines::<Tree<P>, P>::new(alloc)))
}

/// Reads the rest of a device's bytes, and returns the forest that they spell with the number of its sources, or their
/// first fault. If there is no memory for a row, the fault is Memory at its line, unless a line up to it has a fault.
#[tactic(auto, using(crate::proofs::FileEnds::file_read))]
pub fn read_forest<const P: u32, R: Read>(
    alloc: Global,
    reader: &mut R,
) -> Result<ForestFile<P>, DimacsError>
    requires { is_layout P ≡ true }
    ensures exact { (text : List ℕ) → R.left reader.old ≡ Some text
        → FileRead P forest_form text (R.left reader.new) (R.has_failed reader.new) result }
    ensures found { IfOk result IsHeld }
    ensures read { IfErr result (λ e. e.kind ≡ Kind.Read → R.has_failed reader.new ≡ true) }
    ensures never { NeverRead (R.failing reader.old) result }
{
    let forest = FileLines::<ForestFile<P>, P>::new(alloc);
    read_text(reader, Feeder::new(forest))
}

/// Reads the rest of a device's bytes: as a forest's file if the first line begins with `p near`, and otherwise as a tree's.
/// Returns what they spell, or their first fault by the rules of that file. If there is no memory for a row, the fault is
/// Memory at its line, unless that line or an earlier one has a fault.
pub fn read_tree_or_forest<const P: u32, R: Read>(
    alloc: Global,
    reader: &mut R,
) -> Result<TreeOrForest<P>, DimacsError>
    requires { is_layout P ≡ true }
    ensures exact { (text : List ℕ) → R.left reader.old ≡ Some text
        → EitherRead text (R.left reader.new) (R.has_failed reader.new) result }
    ensures found { IfOk result IsEither }
    ensures read { IfErr result (λ e. e.kind ≡ Kind.Read → R.has_failed reader.new ≡ true) }
    ensures never { NeverRead (R.failing reader.old) result }
{
    let either = FileLines::<TreeOrForest<P>, P>::new(alloc);
    read_text(reader, Feeder::new(either))
}
