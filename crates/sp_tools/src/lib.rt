//! The commands of the program `spt` other than those that run from sources: `check`, `pack`, `replay` and `offers`.
#![tactic(auto)]

mod check;
mod check_all;
mod graphs;
mod offers;
mod pack;
mod replay;

pub use check::CheckCommand;
pub use offers::OffersCommand;
pub use pack::PackCommand;
pub use replay::ReplayCommand;
