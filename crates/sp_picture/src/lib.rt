//! Pictures of runs of the step machine, as SVG: a lane for each word and each actor, a bar for each call, a mark for each
//! step, and each lost exchange tied to the store that beat it and to the load whose word it expected.
#![tactic(auto)]

mod bars;
mod columns;
mod drawing;
mod faults;
mod headings;
mod labels;
mod lanes;
mod layout;
mod marks;
mod picture;
mod shapes;
mod shown;
mod stretches;
mod styles;
mod texts;
mod ties;

pub use drawing::{Drawing, MOST_STEPS, draw_run};
pub use faults::NoPicture;
pub use marks::{Deed, StepMark};
pub use picture::{Picture, picture_of, write_picture};
pub use ties::Tie;
