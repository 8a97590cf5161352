//! The settings of a job, and the width of a bucket, which is given or computed from the graph.
ghost use Rattle.std.specs.Prelude.{◌≡◌, true};
ghost use Rattle.sp_word.specs.Word.{is_layout};
ghost use Rattle.sp_jobs.specs.Width.{width_among};

use sp_graph::Graph;
use sp_network::Direction;
use sp_word::{Delta, Team, Word, Workers};

/// The requested width of a bucket of tentative distances. What a batch returns and writes doesn't depend on it.
#[derive(Clone, Copy, Debug, PartialEq, Eq)]
pub enum BucketWidth<const P: u32> {
    /// This width.
    Of(Delta<P>),
    /// The mean length of the graph's arcs, rounded down, but no more than the greatest distance of a word. In a graph
    /// without arcs it is 1.
    MeanLength,
}

/// The settings of a job: how its runs are made, and the listener for its progress.
///
/// This is the form before the graph is read. `team_for` resolves it to the form that a run takes, a `Team`, in which
/// the width is a number.
#[derive(Drop)]
pub struct Settings<'a, const P: u32, L> {
    /// The direction of the graph's arcs, relative to its file.
    pub direction: Direction,
    /// The width of a bucket.
    pub width: BucketWidth<P>,
    /// The greatest number of threads, including the calling one.
    pub workers: Workers,
    /// The listener for the job's progress.
    pub listener: &'a L,
}

// Returns the width of a bucket as a number, for this graph.
fn width_for<const P: u32>(width: &BucketWidth<P>, graph: &Graph) -> Delta<P>
    requires { is_layout P ≡ true }
    ensures { result ≡ width_among graph.now.arcs width.now }
{
    match width {
        BucketWidth::Of(delta) => *delta,
        BucketWidth::MeanLength => {
            let mean = graph.mean_length().min(Word::<P>::max_dist());
            let Some(delta) = Delta::new(mean) else {
                unreachable!()
            };
            delta
        }
    }
}

impl<const P: u32, L> Settings<'_, P, L> {
    /// Returns what a run in this graph needs: the width of a bucket as a number, and the number of workers.
    pub fn team_for(&self, graph: &Graph) -> Team<P>
        requires { is_layout P ≡ true }
        ensures delta { result.delta ≡ width_among graph.now.arcs self.now.width }
        ensures workers { result.workers ≡ self.now.workers }
    {
        Team {
            delta: width_for(&self.width, graph),
            workers: self.workers,
        }
    }
}
