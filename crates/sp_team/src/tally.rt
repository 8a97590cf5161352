//! Counts a worker's relaxed vertices for the meter of its run.
use sp_word::Meter;

/// The number of vertices that a worker adds to the meter at once: updates are rare enough to cost nothing.
const LOT: u64 = 256;

/// The vertices that a worker has relaxed since it last updated the meter.
#[derive(Drop)]
pub(crate) struct Tally<'m> {
    meter: &'m Meter,
    untold: u64,
}

impl<'m> Tally<'m> {
    /// Makes the tally of a worker that has relaxed nothing.
    pub(crate) fn new(meter: &'m Meter) -> Tally<'m> {
        Tally { meter, untold: 0 }
    }

    /// Counts this number of vertices as relaxed.
    pub(crate) fn count(&mut self, vertices: usize) {
        self.untold = self.untold.saturating_add(vertices as u64);
        if self.untold >= LOT {
            self.tell();
        }
    }

    /// Adds the vertices not yet counted there to the meter.
    pub(crate) fn tell(&mut self) {
        self.meter.add(self.untold);
        self.untold = 0;
    }
}
