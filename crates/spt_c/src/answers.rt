//! The results of calls.
ghost use Rattle.std.specs.Prelude.{◌≡◌};
ghost use Rattle.spt_c.specs.Outcome.{answer_of, batch_of};
ghost use Rattle.spt_c.specs.InUse.{answer_in_use, batch_in_use, part_in_use};
ghost use Rattle.spt_c.specs.KeptLists.{part_of};

use sp_lists::{BatchOutcome, ListingOutcome, Outcome};

/// The result of a call for one source: a status, the vertex that is too far, and the index of the invalid arc or
/// source. A field that the status doesn't use is 0.
#[repr(C)]
#[derive(Clone, Copy, Debug, PartialEq, Eq)]
pub struct SptAnswer {
    pub status: u32,
    pub vertex: u32,
    pub index: u64,
}

/// The result of a call for several sources. `done` is the number of sources, from the first on, that have their trees.
/// If this isn't all of them, the other fields are the result for the next source, or for the call.
#[repr(C)]
#[derive(Clone, Copy, Debug, PartialEq, Eq)]
pub struct SptBatch {
    pub status: u32,
    pub vertex: u32,
    pub index: u64,
    pub done: u64,
}

/// The result of a call that lists a part: a status, and the number of vertices in the part.
#[repr(C)]
#[derive(Clone, Copy, Debug, PartialEq, Eq)]
pub struct SptPart {
    pub status: u32,
    pub count: u64,
}

fn reply(status: u32, vertex: u32, place: usize) -> SptAnswer
    ensures { result ≡ record { status = status; vertex = vertex; index = place } }
{
    SptAnswer {
        status,
        vertex,
        index: place as u64,
    }
}

impl SptAnswer {
    /// Returns the result in the form for C.
    pub(crate) fn of(told: Outcome) -> SptAnswer
        ensures { result ≡ answer_of told }
    {
        match told {
            Outcome::Done => reply(0, 0, 0),
            Outcome::BadSize => reply(1, 0, 0),
            Outcome::BadDelta => reply(2, 0, 0),
            Outcome::BadArc(place) => reply(3, 0, place),
            Outcome::NoSuchVertex(place) => reply(4, 0, place),
            Outcome::TooFar(vertex) => reply(5, vertex, 0),
            Outcome::Memory => reply(6, 0, 0),
            Outcome::Wrong(vertex) => reply(9, vertex, 0),
            Outcome::NoGraph => reply(10, 0, 0),
            Outcome::BadLimit => reply(11, 0, 0),
        }
    }

    /// Returns the result of a call for a place in use.
    pub(crate) fn in_use() -> SptAnswer
        ensures { result ≡ answer_in_use }
    {
        reply(12, 0, 0)
    }
}

impl SptBatch {
    /// Returns the result for several sources in the form for C.
    pub(crate) fn of(batch: BatchOutcome) -> SptBatch
        ensures { result ≡ batch_of batch }
    {
        let answer = SptAnswer::of(batch.told);
        SptBatch {
            status: answer.status,
            vertex: answer.vertex,
            index: answer.index,
            done: batch.done as u64,
        }
    }

    /// Returns the result of a call for a place in use.
    pub(crate) fn in_use() -> SptBatch
        ensures { result ≡ batch_in_use }
    {
        SptBatch {
            status: 12,
            vertex: 0,
            index: 0,
            done: 0,
        }
    }
}

impl SptPart {
    /// Returns the result for a part in the form for C.
    pub(crate) fn of(listed: ListingOutcome) -> SptPart
        ensures { result ≡ part_of listed }
    {
        SptPart {
            status: SptAnswer::of(listed.told).status,
            count: listed.count as u64,
        }
    }

    /// Returns the result of a call for a place in use.
    pub(crate) fn in_use() -> SptPart
        ensures { result ≡ part_in_use }
    {
        SptPart {
            status: 12,
            count: 0,
        }
    }
}
