//! The trees of a file, one after the other.
ghost use Rattle.std.specs.Prelude.{◌≡◌, ◌+◌, ◌-◌, ◌^◌, [], Err, Some, min, true, false};
ghost use Rattle.sp_word.specs.Word.{is_layout};
ghost use Rattle.sp_text.specs.declared.faults.DimacsError.{DimacsError};
ghost use Rattle.sp_device.specs.Failing.{Never};
ghost use Rattle.sp_text.specs.First.{fault_at_failure};
ghost use Rattle.sp_text.specs.Whole.{NeverRead};
ghost use Rattle.sp_files.specs.Spelling.{tree_judge};
ghost use Rattle.sp_files.specs.Block.{lines_in};

use crate::reading::TreeReader;
use crate::trees::stream::{feed_block, is_over};
use sp_answer::Tree;
use sp_device::{Failed, Read};
use sp_dimacs::ReadBuffer;
use sp_text::DimacsError;
use std::alloc::Global;

/// Reads the trees of a file, which has a block for each, from one device, one after another. It keeps the memory of
/// one tree alone.
#[derive(Drop)]
pub struct TreeBlocks<const P: u32> {
    alloc: Global,
    piece: ReadBuffer,
    /// The number of the lines of the trees that were returned.
    lines: u64,
    spent: Option<DimacsError>,
    ghost layout: { is_layout P ≡ true },
}

// Returns the number of the file's lines up to the end of this tree's block.
fn lines_behind<const P: u32>(before: u64, tree: &Tree<P>) -> u64
    ensures { result ≡ min (before + lines_in tree.now) (2 ^ 64 - 1) }
{
    let rows = tree.rows().len() as u64;
    before.saturating_add(rows).saturating_add(2)
}

impl<const P: u32> TreeBlocks<P> {
    ghost use Rattle.sp_files.specs.Stream.{stream, IsShort, BlockRead};
    ghost use Rattle.sp_files.specs.Giving.{IsFresh, IsGoing, IsSpent, Gives, in_file};

    /// Returns a reader that stands before the first tree.
    pub fn new(alloc: Global) -> Self
        requires { is_layout P ≡ true }
        ensures { IsFresh result }
    {
        TreeBlocks {
            alloc,
            piece: ReadBuffer::new(),
            lines: 0,
            spent: None,
        }
    }

    // Reads the next block, and returns its tree.
    fn read_block<R: Read>(&mut self, reader: &mut R) -> Result<Tree<P>, DimacsError>
        ensures read { IsShort R.Read (stream self.old.piece reader.old)
            → BlockRead P R.Read (stream self.old.piece reader.old)
            result (stream self.new.piece reader.new) }
        ensures never { IsShort R.Read (stream self.old.piece reader.old)
            → R.has_failed reader.old ≡ false → NeverRead (R.failing reader.old) result }
        ensures going { R.failing reader.old ≡ Never → R.has_failed reader.old ≡ false
            → R.has_failed reader.new ≡ false }
        ensures lasting { R.failing reader.new ≡ R.failing reader.old }
        ensures lines { self.new.lines ≡ self.old.lines }
        ensures spent { self.new.spent ≡ self.old.spent }
    {
        let mut tree = TreeReader::new(self.alloc);
        feed_block(reader, &mut self.piece, &mut tree)?;
        tree.finish()
    }

    // Refuses the file: the block has this fault.
    fn refuse(&mut self, error: DimacsError) -> DimacsError
        ensures told { result ≡ in_file self.old.lines error }
        ensures spent { self.new.spent ≡ Some result }
        ensures piece { self.new.piece ≡ self.old.piece }
    {
        let error = DimacsError {
            line: self.lines.saturating_add(error.line),
            kind: error.kind,
        };
        self.spent = Some(error);
        error
    }

    // Refuses the file: the device has failed before a block.
    fn fail(&mut self) -> DimacsError
        ensures fault { (fault : DimacsError) × (result ≡ in_file self.old.lines fault)
            × (fault_at_failure (tree_judge P) [] ≡ Some fault) }
        ensures spent { self.new.spent ≡ Some result }
        ensures piece { self.new.piece ≡ self.old.piece }
    {
        let mut tree = TreeReader::<P>::new(self.alloc);
        let error = tree.fail();
        self.refuse(error)
    }

    /// Returns the next tree, or None if the file has ended after a block. What follows the last whole block is a block
    /// with a fault, and so is an empty file. A fault has the number of its line in the file, and every later call
    /// returns the same fault.
    pub fn next<R: Read>(&mut self, reader: &mut R) -> Result<Option<Tree<P>>, DimacsError>
        ensures again { (e : DimacsError) → IsSpent e self.old
            → (result ≡ Err e) × (self.new ≡ self.old) × (reader.new ≡ reader.old) }
        ensures gives { IsGoing R.Read self.old reader.old
            → Gives R.Read self.old reader.old result self.new reader.new }
        ensures never { IsGoing R.Read self.old reader.old → R.has_failed reader.old ≡ false
            → NeverRead (R.failing reader.old) result }
        ensures going { R.failing reader.old ≡ Never → R.has_failed reader.old ≡ false
            → R.has_failed reader.new ≡ false }
        ensures lasting { R.failing reader.new ≡ R.failing reader.old }
    {
        if let Some(error) = self.spent {
            return Err(error);
        }
        if self.lines > 0 {
            match is_over(reader, &mut self.piece) {
                Ok(true) => return Ok(None),
                Ok(false) => {}
                Err(Failed) => return Err(self.fail()),
            }
        }
        match self.read_block(reader) {
            Ok(tree) => {
                self.lines = lines_behind(self.lines, &tree);
                Ok(Some(tree))
            }
            Err(error) => Err(self.refuse(error)),
        }
    }
}
