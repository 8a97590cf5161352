//! The layout of a picture, in pixels from its upper left corner.
ghost use Rattle.std.specs.Prelude.{◌≡◌, ◌≤◌, ◌+◌, IfOk};

use crate::labels::{Label, Side, most_lines};
use crate::texts::LINE;
use std::alloc::{AllocError, Global};

// The width to the left of all steps, for the names of lanes.
const LEFT: u64 = 100;

// The height above all lanes, for the numbers of steps.
const TOP: u64 = 34;

// The space between two lanes of words.
const BETWEEN: u64 = 8;

// The space between the lanes of words and those of actors.
const GAP: u64 = 12;

// The height of an actor's lane above its middle and below it, without labels.
const ABOVE: u64 = 24;

const BELOW: u64 = 24;

// No coordinate exceeds the sum of this one and the height of the legend.
const FARTHEST: u64 = 1 << 20;

// The names of lanes are repeated once in this many pixels.
const AGAIN: u64 = 600;

// The approximate width of a name.
const NAME: u64 = 80;

// The height of a line of names.
const NAMES: u64 = 14;

/// The least width of a picture: that of its legend.
pub(crate) const LEGEND_WIDTH: u64 = 780;

/// The height of the legend.
pub(crate) const LEGEND_HEIGHT: u64 = 140;

// The position of an actor's lane, from the top of all lanes.
#[derive(Clone, Copy)]
struct Band {
    // The line of its repeated names.
    names: u64,
    middle: u64,
}

/// The layout of a picture.
#[derive(Drop)]
pub(crate) struct Layout {
    // Where the lanes begin, the middles of the steps, and where the lanes end, all measured from where the lanes
    // begin.
    places: Vec<u64>,
    // The lanes of actors.
    actors: Vec<Band>,
    // The lower end of the lanes, from the top of all lanes.
    height: u64,
    // The height of the contents of a word's lane.
    cell: u64,
}

// Returns how often names are repeated in lanes of this length.
fn repeats_in(length: u64) -> u64 {
    length.saturating_sub(NAME).min(FARTHEST) / AGAIN
}

// Returns the height of the line of names above each lane, if there is one.
fn names_height(repeats: u64) -> u64
    ensures { result ≤ NAMES }
{
    if repeats == 0 { 0 } else { NAMES }
}

impl Layout {
    /// Returns the layout of a picture whose steps have these places, with this number of word lanes, whose contents
    /// have this height.
    pub(crate) fn new(
        alloc: Global,
        places: Vec<u64>,
        cell: u64,
        words: usize,
        actors: u32,
        labels: &[Label],
    ) -> Result<Layout, AllocError> {
        let head = names_height(repeats_in(places.last().copied().unwrap_or(0)));
        let lane = head.saturating_add(cell).saturating_add(BETWEEN);
        let mut height = lane.saturating_mul(words as u64).saturating_add(GAP);
        let mut bands = Vec::new(alloc);
        for actor in 1..=actors {
            let above = LINE.saturating_mul(most_lines(labels, actor, Side::Above));
            let below = LINE.saturating_mul(most_lines(labels, actor, Side::Below));
            let names = height.saturating_add(head);
            let middle = names.saturating_add(above).saturating_add(ABOVE);
            bands.push(Band { names, middle })?;
            height = middle.saturating_add(BELOW).saturating_add(below);
        }
        Ok(Layout {
            places,
            actors: bands,
            height,
            cell,
        })
    }

    /// Returns the middle of a step, numbered from 1; the middle of step 0 is where the lanes begin.
    pub(crate) fn across(&self, step: u64) -> u64
        ensures low { LEFT ≤ result }
        ensures high { result ≤ LEFT + FARTHEST }
    {
        let place = self.places.get(step as usize).copied().unwrap_or(0);
        LEFT + place.min(FARTHEST)
    }

    /// Returns where the lanes end.
    pub(crate) fn end(&self) -> u64
        ensures low { LEFT ≤ result }
        ensures high { result ≤ LEFT + FARTHEST }
    {
        let place = self.places.last().copied().unwrap_or(0);
        LEFT + place.min(FARTHEST)
    }

    /// Returns the number of steps.
    pub(crate) fn steps(&self) -> u64 {
        (self.places.len() as u64).saturating_sub(2)
    }

    /// Returns how often the names of lanes are repeated.
    pub(crate) fn repeats(&self) -> u64 {
        repeats_in(self.end() - LEFT)
    }

    /// Returns where the names of lanes are repeated for the given time, counted from 1.
    pub(crate) fn again(&self, time: u64) -> u64 {
        AGAIN.saturating_mul(time).saturating_add(LEFT)
    }

    // Returns the height of the line of names above each lane, if there is one.
    fn head(&self) -> u64
        ensures { result ≤ NAMES }
    {
        names_height(self.repeats())
    }

    /// Returns the height of the contents of a word's lane.
    pub(crate) fn cell(&self) -> u64
        ensures { result ≤ FARTHEST }
    {
        self.cell.min(FARTHEST)
    }

    /// Returns the middle of the contents of a word's lane, given its index among the words that have a lane.
    pub(crate) fn word_lane(&self, place: usize) -> u64
        ensures low { TOP ≤ result }
        ensures high { result ≤ TOP + NAMES + FARTHEST + FARTHEST }
    {
        let lane = self.head() + self.cell() + BETWEEN;
        let start = lane.saturating_mul(place as u64).min(FARTHEST);
        TOP + start + self.head() + self.cell() / 2
    }

    /// Returns where the names of a word's lane are repeated.
    pub(crate) fn word_names(&self, place: usize) -> u64 {
        self.word_lane(place).saturating_sub(self.cell() / 2 + 4)
    }

    // Returns the lane of an actor, numbered from 1.
    fn band(&self, actor: u32) -> Band {
        let place = actor.saturating_sub(1) as usize;
        match self.actors.get(place) {
            Some(band) => *band,
            None => Band {
                names: 0,
                middle: 0,
            },
        }
    }

    /// Returns the middle of the lane of an actor, numbered from 1.
    pub(crate) fn actor_lane(&self, actor: u32) -> u64
        ensures low { TOP ≤ result }
        ensures high { result ≤ TOP + FARTHEST }
    {
        TOP + self.band(actor).middle.min(FARTHEST)
    }

    /// Returns where the names of an actor's lane are repeated.
    pub(crate) fn actor_names(&self, actor: u32) -> u64
        ensures { result ≤ TOP + FARTHEST }
    {
        TOP - 4 + self.band(actor).names.min(FARTHEST)
    }

    /// Returns the lower end of the lanes.
    pub(crate) fn bottom(&self) -> u64
        ensures { result ≤ TOP + FARTHEST }
    {
        TOP + self.height.min(FARTHEST)
    }
}
