//! The first arcs of a vertex, in four places side by side.
ghost use Rattle.std.specs.Prelude.{◌≡◌, ◌≤◌, ◌<◌, ℕ, length, take, All};
ghost use Rattle.sp_paths.specs.Paths.{IsArc};
ghost use Rattle.sp_graph.specs.Placed.{arc_at, arcs_in, only, place_at, KeepsRow, Leaves};

use sp_paths::Arc;

/// An arc without its tail, which is the vertex that the place belongs to. If the length is 0, the place holds no arc.
#[derive(Clone, Copy, Debug, PartialEq, Eq)]
pub struct Place {
    /// The head of the arc.
    pub head: u32,
    /// The length of the arc.
    pub len: u32,
}

impl Place {
    /// A place without an arc.
    pub const NONE: Place = Place { head: 0, len: 0 };

    // Returns what a place holds of the arc at an index of a row, or nothing behind the row's end. No branch depends on where the
    // row ends.
    fn of(row: &[Arc], index: usize) -> Place
        requires { 0 < length row.now }
        ensures { result ≡ place_at row.now index }
    {
        let last = row.len() - 1;
        let arc = row[index.min(last)];
        if index > last {
            return Place::NONE;
        }
        Place {
            head: arc.head,
            len: arc.len,
        }
    }

    /// Returns the arc that the place holds, if this is the vertex that it belongs to.
    pub fn arc(self, tail: u32) -> Arc
        ensures { result ≡ arc_at tail self }
    {
        Arc {
            tail,
            head: self.head,
            len: self.len,
        }
    }
}

/// The four places of a vertex: up to four arcs, from the front on. Places behind one without an arc don't count.
#[derive(Clone, Copy, Debug, PartialEq, Eq)]
pub struct Few {
    pub first: Place,
    pub second: Place,
    pub third: Place,
    pub fourth: Place,
}

impl Few {
    /// The number of places.
    pub const PLACES: usize = 4;

    // Returns places of which only the first one isn't empty.
    fn with_first(first: Place) -> Few
        ensures { result ≡ only first }
    {
        Few {
            first,
            second: Place::NONE,
            third: Place::NONE,
            fourth: Place::NONE,
        }
    }

    /// Returns the places of a vertex with this row. A longer row than the places hold leaves the head of its first arc there,
    /// without a length.
    pub(crate) fn of(row: &[Arc]) -> Few
        ensures { (n v : ℕ) → All (IsArc n) row.now → All (Leaves v) row.now
            → KeepsRow v result row.now }
    {
        if row.is_empty() {
            return Few::with_first(Place::NONE);
        }
        let first = Place::of(row, 0);
        if row.len() > Few::PLACES {
            return Few::with_first(Place {
                head: first.head,
                len: 0,
            });
        }
        Few {
            first,
            second: Place::of(row, 1),
            third: Place::of(row, 2),
            fourth: Place::of(row, 3),
        }
    }

    /// Returns the number of arcs. No branch depends on it.
    pub fn count(self) -> usize
        ensures count { (tail : ℕ) → result ≡ length (arcs_in tail self) }
        ensures few { result ≤ 4 }
    {
        let first = self.first.len != 0;
        let second = first & (self.second.len != 0);
        let third = second & (self.third.len != 0);
        let fourth = third & (self.fourth.len != 0);
        usize::from(first) + usize::from(second) + usize::from(third) + usize::from(fourth)
    }

    /// Returns the arcs, from the front on, and behind them others.
    pub fn arcs(self, tail: u32) -> [Arc; 4]
        ensures { take (length (arcs_in tail self)) result ≡ arcs_in tail self }
    {
        [
            self.first.arc(tail),
            self.second.arc(tail),
            self.third.arc(tail),
            self.fourth.arc(tail),
        ]
    }
}
