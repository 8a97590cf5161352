//! Keeps the lines of a replay file as they come.
ghost use Rattle.std.specs.Prelude.{◌≡◌, ℕ, ◌+◌, ◌≤◌, ◌∷◌, [], ◌++◌, List, slice_index, map, OnOk, IfOk, true};
ghost use Rattle.sp_word.specs.Word.{Pair, is_layout};
ghost use Rattle.sp_text.specs.Keeping.{CanKeep};
ghost use Rattle.sp_text.specs.Formats.{ranges_of};
ghost use Rattle.sp_text.specs.Text.{ItemLine as Line};
ghost use Rattle.sp_replay.specs.ReplayFormat.{replay};
ghost use Rattle.sp_replay.specs.Replay.{offer_of};

use crate::formats::{MOST_WORDS, OFFER, READ, RELAX, START, STEP, replay_format};
use crate::rows::ActorItems;
use sp_machine::Item;
use sp_text::{FileFormat, Keep, Ranges, Values, ranges_of};
use sp_word::Word;
use std::alloc::{AllocError, Global};
use std::collections::HashSet;
use std::mem;

/// What the lines read so far hold.
#[derive(Drop)]
pub struct Keeper<const P: u32> {
    alloc: Global,
    /// The vertices that have a word at the start.
    known: HashSet<u64>,
    named: Vec<(u32, Word<P>)>,
    rows: ActorItems<P>,
    steps: Vec<u32>,
    ghost layout: { is_layout P ≡ true },
}

/// What a replay file holds.
#[derive(Drop)]
pub struct ReplayParts<const P: u32> {
    pub words: u32,
    pub actors: u32,
    pub named: Vec<(u32, Word<P>)>,
    pub rows: Vec<Vec<Item<P>>>,
    pub steps: Vec<u32>,
}

fn word_at<const P: u32>(values: &Values, place: usize) -> Word<P>
    requires layout { is_layout P ≡ true }
    requires dist { slice_index values.now place ≤ (ranges_of P).dist }
    requires pred { slice_index values.now (place + 1) ≤ (ranges_of P).vertex }
    requires small { place ≤ 2 }
    ensures { result ≡ Pair (slice_index values.now place) (slice_index values.now (place + 1)) }
{
    Word::pack(values.get(place), values.get(place + 1) as u32)
}

/// Returns the offer of a line `o A V D P`.
pub fn offer_at<const P: u32>(values: &Values) -> Item<P>
    requires layout { is_layout P ≡ true }
    requires vertex { slice_index values.now 1 ≤ MOST_WORDS }
    requires dist { slice_index values.now 2 ≤ (ranges_of P).dist }
    requires pred { slice_index values.now 3 ≤ (ranges_of P).vertex }
    ensures { result ≡ offer_of values.now }
{
    Item::Offer {
        vertex: values.get(1) as u32,
        word: word_at(values, 2),
    }
}

impl<const P: u32> Keeper<P> {
    ghost use Rattle.sp_replay.specs.Keeping.{Keeps, IsNamed};

    /// Returns a keeper that has read no line.
    pub fn new(alloc: Global) -> Keeper<P>
        requires { is_layout P ≡ true }
        ensures { Keeps result [] }
    {
        Keeper {
            alloc,
            known: HashSet::new(alloc),
            named: Vec::new(alloc),
            rows: ActorItems::new(alloc),
            steps: Vec::new(alloc),
        }
    }

    // Gives the vertex this word at the start.
    fn name(&mut self, vertex: u64, word: Word<P>) -> Result<(), AllocError>
        requires { vertex ≤ MOST_WORDS }
        ensures named { OnOk result (IsNamed self.old vertex word.entry self.new) }
        ensures rows { self.new.rows ≡ self.old.rows }
        ensures steps { self.new.steps ≡ self.old.steps }
    {
        self.known.insert(vertex)?;
        self.named.push((vertex as u32, word))?;
        Ok(())
    }
}

impl<const P: u32> Keep for Keeper<P> {
    ghost use Rattle.std.specs.Prelude.{◌≡◌, ℕ, List};
    ghost use Rattle.sp_replay.specs.ReplayFormat.{replay};
    ghost use Rattle.sp_text.specs.Formats.{ranges_of};
    ghost use Rattle.sp_replay.specs.Keeping.{Keeps, Says};

    type Value = ReplayParts<P>;

    ghost format = { replay };

    ghost ranges = { ranges_of P };

    ghost Kept = { λ k lines. Keeps k lines };

    ghost Spelled = { λ problem lines parts. Says problem lines parts };

    fn format(&self) -> FileFormat {
        replay_format()
    }

    fn ranges(&self) -> Ranges {
        ranges_of::<P>()
    }

    fn keep(&mut self, place: usize, values: &Values) -> Result<(), AllocError> {
        match place {
            START => self.name(values.get(0), word_at(values, 1)),
            OFFER => self.rows.push(values.get(0), offer_at(values)),
            READ => {
                let item = Item::Read {
                    vertex: values.get(1) as u32,
                };
                self.rows.push(values.get(0), item)
            }
            RELAX => {
                let item = Item::Relax {
                    tail: values.get(1) as u32,
                    head: values.get(2) as u32,
                    len: values.get(3) as u32,
                };
                self.rows.push(values.get(0), item)
            }
            STEP => {
                self.steps.push(values.get(0) as u32)?;
                Ok(())
            }
            _ => Ok(()),
        }
    }

    fn is_named(&self, _place: usize, first: u64) -> bool {
        self.known.contains(&first)
    }

    fn give(&mut self, problem: &Values) -> ReplayParts<P> {
        self.known.clear();
        ReplayParts {
            words: problem.get(0) as u32,
            actors: problem.get(1) as u32,
            named: mem::replace(&mut self.named, Vec::new(self.alloc)),
            rows: self.rows.give(problem.get(1)),
            steps: mem::replace(&mut self.steps, Vec::new(self.alloc)),
        }
    }
}
