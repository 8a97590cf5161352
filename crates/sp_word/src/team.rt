//! The parameters of a run.
use crate::delta::Delta;
use crate::workers::Workers;

/// The parameters of a run: the width of a bucket and the number of workers.
#[derive(Clone, Copy, Debug, PartialEq, Eq)]
pub struct Team<const P: u32> {
    pub delta: Delta<P>,
    pub workers: Workers,
}
