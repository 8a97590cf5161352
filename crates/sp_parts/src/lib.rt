//! Texts that several threads read: each reads pieces of what came from the device, and one thread puts them together.
#![tactic(auto)]

mod buffer_pool;
mod groups;
mod leading;
mod parts;
mod pieces;
mod plan;
mod progress;
mod receiving;
mod sharing;
mod signals;
mod taking;

pub use groups::read_items_by;
pub use pieces::KeepAcross;
pub use plan::{SIZES, Sizes};
