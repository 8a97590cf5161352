//! The end of a run.
ghost use Rattle.std.specs.Prelude.{◌≡◌, None, IfOk, IfErr};
ghost use Rattle.sp_graph.specs.LeftOut.{IsLeastLeftOut};
ghost use Rattle.sp_offer.specs.Story.{known_table};
ghost use Rattle.sp_paths.specs.Paths.{word_at};
ghost use Rattle.sp_answer.specs.Answer.{IsAnswer, IsRefusal};
ghost use Rattle.sp_phase.specs.Sweep.{HasSwept, HasWords};

use crate::leader::Leader;
use sp_answer::{RunError, Tree};
use sp_graph::left_out;
use sp_offer::Caller;
use sp_paths::swept_copy;
use std::alloc::AllocError;

impl<'a, 'g, const P: u32> Leader<'a, 'g, P> {
    // The tree of a copy of the words in which no vertex is open, and that leaves none out.
    fn tree(&self) -> Result<Tree<P>, AllocError>
        requires swept { HasSwept P self.now }
        requires none { IsLeastLeftOut self.now.stage.graph (word_at self.now.words) None }
        ensures tree { IfOk result (IsAnswer P self.now.stage.graph self.now.stage.source) }
        ensures known { IfOk result (λ tree.
            HasWords tree self.now.stage.graph.n (known_table self.now.caller.story)) }
    {
        swept_copy();
        let tree = Tree::of_words(self.alloc, self.store.source(), self.words.as_slice())?;
        Ok(tree)
    }

    /// Returns the answer of a copy of the words in which no vertex is open, and the caller, which knows the tree's
    /// words.
    pub(crate) fn answer(self) -> Result<(Tree<P>, Caller), RunError>
        requires { HasSwept P self }
        ensures tree { IfOk result (λ done.
            IsAnswer P self.entry.stage.graph self.entry.stage.source done.0) }
        ensures caller { IfOk result (λ done. done.1.table ≡ self.entry.stage.table) }
        ensures known { IfOk result (λ done.
            HasWords done.0 self.entry.stage.graph.n (known_table done.1.story)) }
        ensures refused { IfErr result
            (IsRefusal P self.entry.stage.graph self.entry.stage.source) }
    {
        swept_copy();
        match left_out(self.words.as_slice(), self.store.arcs()) {
            Some(vertex) => Err(RunError::TooFar(vertex)),
            None => match self.tree() {
                Err(_) => Err(RunError::Memory),
                Ok(tree) => {
                    let Leader { caller, .. } = self;
                    Ok((tree, caller))
                }
            },
        }
    }
}
