//! What the commands that run from sources share: their options, their sources, the lists of `matrix`, the reports of
//! progress, and the way in which a run from sources ends.
#![tactic(auto)]

mod directions;
mod flags;
mod given;
mod lists;
mod places;
mod reading;
mod refusing;
mod running;
mod sources;
mod width;
mod within;
mod workers;

pub use directions::{add_directions, read_direction};
pub use flags::flag_in;
pub use given::Given;
pub use lists::Lists;
pub use reading::Watched;
pub use running::{ProgressReporter, RunOptions, fault_of};
pub use sources::Sources;
pub use width::Width;
pub use within::Within;
pub use workers::{WORKERS, read_workers, workers_option};
