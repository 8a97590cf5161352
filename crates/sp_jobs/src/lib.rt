//! Jobs, from bytes to bytes: the settings of a job and the lists that it answers; a question about each source; and
//! the jobs themselves: the trees of sources, the lines of a matrix, and the forest of all sources.
#![tactic(auto)]

mod answering;
mod answers;
mod batch;
mod finding;
mod forest_answer;
mod job;
mod listing;
mod matrix;
mod nearest;
mod places;
mod progress;
mod question;
mod row;
mod row_lines;
mod settings;
mod trees;
mod vertices;
mod writing;

pub use answering::{Assignment, LEAST_ITEMS, answer_alone, answer_sources};
pub use answers::{BatchError, Role, Summary};
pub use batch::{run_batch, run_batch_told};
pub use job::Job;
pub use listing::{Listed, Listing};
pub use matrix::run_matrix_told;
pub use nearest::run_nearest_told;
pub use places::{Places, chosen};
pub use progress::{Listener, Nobody, Progress};
pub use question::Question;
pub use settings::{BucketWidth, Settings};
pub use vertices::first_above;
