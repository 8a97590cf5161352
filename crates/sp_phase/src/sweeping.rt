//! Finds the vertices whose arcs weren't relaxed at their distances, from a copy of all words.
ghost use Rattle.std.specs.Prelude.{◌≡◌, ◌<◌, ◌↔◌, [], Some, None, length, All, IsTrue, IfOk, IfSome, IfNone, OnOk};
ghost use Rattle.sp_paths.specs.Paths.{IsVertex};
ghost use Rattle.sp_phase.specs.Marks.{mark_of};
ghost use Rattle.sp_phase.specs.Settling.{Tells};
ghost use Rattle.sp_phase.specs.Sweep.{IsMarkedAt, AreRelaxed, IsRelaxedHere, IsOpen, HasRelaxed, HasCopied, HasSwept, TakesCopy};

use crate::leader::Leader;
use crate::marks::LeaderMark;
use crate::rounds::{push_some, put_all};
use sp_graph::look_up;
use sp_paths::swept_copy;
use sp_rounds::Entry;
use sp_word::Word;
use std::alloc::{AllocError, Global};

/// The bounds below which a vertex must have been relaxed at its distance.
#[derive(Clone, Copy, Debug)]
pub(crate) struct RelaxedBelow {
    pub light: u64,
    pub heavy: u64,
}

// Returns whether a vertex was relaxed at its distance.
fn is_relaxed(dist: u64, mark: &LeaderMark, bounds: RelaxedBelow) -> bool
    ensures { IsTrue result ↔ IsMarkedAt mark.now bounds dist }
{
    (dist >= bounds.light || mark.light == Some(dist))
        && (dist >= bounds.heavy || mark.heavy == Some(dist))
}

// Returns the mark of a vertex.
fn mark_of(marks: &[LeaderMark], vertex: u32) -> LeaderMark
    requires { IsVertex (length marks.now) vertex }
    ensures { result ≡ mark_of marks.now vertex }
{
    marks[(vertex - 1) as usize]
}

// Returns the entry of a vertex that wasn't relaxed at this distance.
fn open_at(vertex: u32, dist: u64, mark: &LeaderMark, bounds: RelaxedBelow) -> Option<Entry>
    ensures none { IfNone result (IsMarkedAt mark.now bounds dist) }
    ensures is { IfSome result (λ e. e ≡ record { vertex = vertex; dist = dist }) }
    ensures open { IfSome result (λ _. IsMarkedAt mark.now bounds dist → ⊥) }
{
    if is_relaxed(dist, mark, bounds) {
        None
    } else {
        Some(Entry { vertex, dist })
    }
}

// Returns the entry of a vertex that wasn't relaxed at its distance.
fn open_entry<const P: u32>(
    words: &[Word<P>],
    marks: &[LeaderMark],
    bounds: RelaxedBelow,
    vertex: u32,
) -> Option<Entry>
    requires vertex { IsVertex (length words.now) vertex }
    requires size { length words.now ≡ length marks.now }
    ensures none { IfNone result (IsRelaxedHere words.now marks.now bounds vertex) }
    ensures open { IfSome result (IsOpen words.now marks.now bounds) }
{
    let mark = mark_of(marks, vertex);
    let word = look_up(words, vertex);
    match word.dist() {
        None => None,
        Some(dist) => open_at(vertex, dist, &mark, bounds),
    }
}

// Returns an entry for each vertex that wasn't relaxed at its distance.
fn open_entries<const P: u32>(
    alloc: Global,
    words: &[Word<P>],
    marks: &[LeaderMark],
    bounds: RelaxedBelow,
) -> Result<Vec<Entry>, AllocError>
    requires size { length words.now ≡ length marks.now }
    requires few { length words.now < 4294967296 }
    ensures none { IfOk result (λ found. found.items ≡ []
        → AreRelaxed words.now marks.now bounds (length words.now)) }
    ensures open { IfOk result (λ found. All (IsOpen words.now marks.now bounds) found.items) }
{
    let mut open = Vec::new(alloc);
    for place in 0..words.len() {
        let entry = open_entry(words, marks, bounds, place as u32 + 1);
        push_some(&mut open, entry)?;
    }
    Ok(open)
}

impl<'a, 'g, const P: u32> Leader<'a, 'g, P> {
    // Copies all words.
    fn take_copy(&mut self)
        ensures { TakesCopy P self.old self.new }
    {
        self.store.copy_words(&mut self.caller, &mut self.words);
    }

    /// Copies all words, queues each vertex that wasn't relaxed at its distance, and returns whether there is none.
    pub(crate) fn queue_open(&mut self, bounds: RelaxedBelow) -> Result<bool, AllocError>
        ensures stage { self.new.stage ≡ self.old.stage }
        ensures copied { OnOk result (HasCopied P self.new) }
        ensures none { IfOk result (λ none. IsTrue none → HasRelaxed bounds self.new) }
    {
        self.take_copy();
        let marks = self.marks.each.as_slice();
        let open = open_entries(self.alloc, self.words.as_slice(), marks, bounds)?;
        put_all(&mut self.buckets, open.as_slice())?;
        Ok(open.is_empty())
    }

    /// Queues each vertex whose distance isn't the one last relaxed, light and heavy, and returns whether there is
    /// none.
    pub(crate) fn sweep(&mut self) -> Result<bool, AllocError>
        ensures stage { self.new.stage ≡ self.old.stage }
        ensures swept { IfOk result (λ none. IsTrue none → HasSwept P self.new) }
        ensures told { IfOk result (λ none. IsTrue none → Tells P None self.new) }
    {
        swept_copy();
        let every = RelaxedBelow {
            light: u64::MAX,
            heavy: u64::MAX,
        };
        let none = self.queue_open(every)?;
        Ok(none)
    }
}
