//! Words of all vertices, which arcs lower.
ghost use Rattle.std.specs.Prelude.{◌≡◌, ◌-◌, ◌≤◌, true, List, length, slice_set, OnOk};
ghost use Rattle.sp_word.specs.Word.{Word as Label, Pair, is_layout, max_dist, max_pred};
ghost use Rattle.sp_paths.specs.Paths.{IsArc, IsVertex};
ghost use Rattle.sp_judge.specs.Lowering.{IsLoweredBy};

use sp_judge::relax;
use sp_paths::Arc;
use sp_word::Word;
use std::alloc::AllocError;

/// Words of all vertices, which arcs lower.
pub(crate) trait Table<const P: u32> {
    ghost labels: { Self → List Label };

    // What the table maintains beside the words.
    ghost IsKept: { Self → Type 0 };

    /// Returns the words.
    fn words(&self) -> &[Word<P>]
        ensures { result.now ≡ labels self.now };

    /// Gives a source its word. It fails only if there is no memory.
    fn start(&mut self, source: u32) -> Result<(), AllocError>
        requires layout { is_layout P ≡ true }
        requires source { IsVertex (length (labels self.old)) source }
        requires kept { IsKept self.old }
        ensures size { length (labels self.new) ≡ length (labels self.old) }
        ensures word { OnOk result
            (labels self.new ≡ slice_set (labels self.old) (source - 1) (Pair 0 0)) }
        ensures kept { IsKept self.new };

    /// Relaxes an arc, and returns its head's distance if that became shorter. It fails only if there is no memory.
    fn lower(&mut self, arc: Arc) -> Result<Option<u64>, AllocError>
        requires layout { is_layout P ≡ true }
        requires room { length (labels self.old) ≤ max_pred P }
        requires arc { IsArc (length (labels self.old)) arc }
        requires kept { IsKept self.old }
        ensures size { length (labels self.new) ≡ length (labels self.old) }
        ensures lowered { IsLoweredBy (max_dist P) arc (labels self.old) (labels self.new) }
        ensures kept { IsKept self.new };
}

impl<const P: u32> Table<P> for Vec<Word<P>> {
    ghost labels = { λ words. words.items };

    ghost IsKept = { λ _. Unit {0} };

    fn words(&self) -> &[Word<P>] {
        self.as_slice()
    }

    fn start(&mut self, source: u32) -> Result<(), AllocError> {
        self[(source - 1) as usize] = Word::pack(0, 0);
        Ok(())
    }

    fn lower(&mut self, arc: Arc) -> Result<Option<u64>, AllocError> {
        Ok(relax(self, arc))
    }
}
