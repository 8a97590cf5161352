//! Words of all vertices, with a list of those that a search has touched.
ghost use Rattle.std.specs.Prelude.{◌≡◌, true, replicate, vec_len, OnOk};
ghost use Rattle.sp_word.specs.Word.{Unreached, is_layout};
ghost use Rattle.sp_paths.specs.Paths.{IsVertex};
ghost use Rattle.sp_serial.specs.TrackedWords.{AreTouched, IsAmong};

use crate::table::Table;
use sp_graph::look_up;
use sp_judge::relax;
use sp_paths::Arc;
use sp_word::Word;
use std::alloc::AllocError;

/// The words of all vertices, and a list that has each vertex with a word. Resetting the words takes no more time than touching
/// them did.
#[derive(Drop)]
pub(crate) struct TrackedWords<const P: u32> {
    pub(crate) words: Vec<Word<P>>,
    pub(crate) reached: Vec<u32>,
    /// The width that the buckets of the last search have adapted to, as a power of 2.
    pub(crate) shift: u32,
}

// Puts an unreached vertex into the list, since it may get a word.
fn note<const P: u32>(tracked: &mut TrackedWords<P>, vertex: u32) -> Result<(), AllocError>
    requires vertex { IsVertex (vec_len tracked.old.words) vertex }
    requires tracked { AreTouched 0 tracked.old.reached.items tracked.old.words.items }
    ensures words { tracked.new.words ≡ tracked.old.words }
    ensures tracked { AreTouched 0 tracked.new.reached.items tracked.new.words.items }
    ensures among { OnOk result (IsAmong 0 tracked.new.reached.items vertex) }
{
    if look_up(&tracked.words, vertex).is_unreached() {
        tracked.reached.push(vertex)?;
    }
    Ok(())
}

impl<const P: u32> Table<P> for TrackedWords<P> {
    ghost labels = { λ tracked. tracked.words.items };

    ghost IsKept = { λ tracked. AreTouched 0 tracked.reached.items tracked.words.items };

    fn words(&self) -> &[Word<P>] {
        self.words.as_slice()
    }

    fn start(&mut self, source: u32) -> Result<(), AllocError> {
        note(self, source)?;
        self.words[(source - 1) as usize] = Word::pack(0, 0);
        Ok(())
    }

    // An unreached head is added to the list first.
    fn lower(&mut self, arc: Arc) -> Result<Option<u64>, AllocError> {
        note(self, arc.head)?;
        Ok(relax(&mut self.words, arc))
    }
}

/// Puts the list in order, by rising vertex.
pub(crate) fn sort<const P: u32>(tracked: &mut TrackedWords<P>)
    requires { AreTouched 0 tracked.old.reached.items tracked.old.words.items }
    ensures words { tracked.new.words ≡ tracked.old.words }
    ensures tracked { AreTouched 0 tracked.new.reached.items tracked.new.words.items }
{
    tracked.reached.sort_unstable();
}

// Makes the words of the listed vertices unreached, and so all words.
fn unreach<const P: u32>(words: &mut Vec<Word<P>>, reached: &[u32])
    requires layout { is_layout P ≡ true }
    requires tracked { AreTouched 0 reached.now words.old.items }
    ensures { words.new.items ≡ replicate (vec_len words.old) Unreached }
{
    for vertex in reached {
        words[(*vertex - 1) as usize] = Word::unreached();
    }
}

/// Makes all words unreached, and empties the list. It takes time only for the listed vertices.
pub(crate) fn clear<const P: u32>(tracked: &mut TrackedWords<P>)
    requires layout { is_layout P ≡ true }
    requires tracked { AreTouched 0 tracked.old.reached.items tracked.old.words.items }
    ensures { tracked.new.words.items ≡ replicate (vec_len tracked.old.words) Unreached }
{
    unreach(&mut tracked.words, &tracked.reached);
    tracked.reached.clear();
}
