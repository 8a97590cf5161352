//! The notes that a worker keeps on the vertices that it relaxes.
ghost use Rattle.std.specs.Prelude.{◌≡◌, [], IfOk};
ghost use Rattle.sp_team.specs.Marked.{MayNote};

use crate::common::Common;
use crate::relax::{FEW, MOST, Request};
use sp_graph::{Graph, Mark};
use std::alloc::AllocError;

/// A worker may keep this many marks, however small its share of the vertices.
const FEWEST_MARKS: usize = 256;

/// The notes that a worker keeps on the vertices that it relaxes.
#[derive(Drop)]
pub struct Notes<const P: u32> {
    /// The requests of their arcs that weren't answered yet.
    pub requests: Vec<Request<P>>,
    /// Their marks, which are true once all requests are answered.
    pub marks: Vec<Mark>,
    // the greatest number of marks to keep
    most: usize,
}

// Returns the greatest number of marks that one of these workers keeps: twice its share of the vertices. It is 0 unless many arcs
// lead far from their tails, because checking all arcs again costs less than keeping marks then.
fn most_marks(graph: &Graph, common: &Common) -> usize {
    if !graph.has_far_heads() {
        return 0;
    }
    let workers = common.stealers.len().max(1);
    let share = graph.n() as usize / workers;
    (2 * share).max(FEWEST_MARKS)
}

impl<const P: u32> Notes<P> {
    /// Makes one worker's notes, which are empty.
    pub(crate) fn new(graph: &Graph, common: &Common) -> Result<Notes<P>, AllocError>
        ensures { IfOk result (λ notes. notes.marks.items ≡ []) }
    {
        Ok(Notes {
            requests: Vec::with_capacity(common.alloc, MOST + FEW)?,
            marks: Vec::new(common.alloc),
            most: most_marks(graph, common),
        })
    }

    /// Notes the mark of a vertex, unless enough are kept or the distance is too great for a mark. If memory is refused, the mark
    /// is left out.
    pub(crate) fn note(&mut self, vertex: u32, dist: u64)
        ensures requests { self.new.requests ≡ self.old.requests }
        ensures marks { MayNote vertex dist self.old.marks.items self.new.marks.items }
    {
        let Ok(dist) = u32::try_from(dist) else {
            return;
        };
        if self.marks.len() < self.most {
            let _ = self.marks.push(Mark { vertex, dist });
        }
    }
}
