//! The engine as a static library for C, run by the calling thread alone. Each call tests all of its arguments. A graph
//! may be kept between calls: C holds a place of two words, and the graph is on the heap behind it, together with the
//! words of the searches in it. Several places, in several threads, may keep the same graph.
#![tactic(auto)]

mod answers;
mod arcs;
mod box_parts;
mod calls;
mod checking;
mod counts;
mod exports;
mod found;
mod kept;
mod making;
mod own;
mod packing;
mod place;
mod refusals;
mod routes;
mod shared;
mod slot;
mod texts;
mod turning;
mod word;

pub use answers::{SptAnswer, SptBatch, SptPart};
pub use arcs::SptArc;
pub use counts::SptCounts;
pub use found::SptFound;
pub use packing::{SptPacked, SptSaved};
pub use place::KeptGraph;
pub use routes::SptRoute;
pub use texts::SptText;
