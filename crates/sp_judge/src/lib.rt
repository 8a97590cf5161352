//! Whether a copy of the words answers what is asked. Only the arcs are looked at, so it doesn't matter how the words came to be.
//!
//! The copy of a team is judged on several threads, without the vertices that marks show to be relaxed (`judge_by`). The words of
//! the calling thread are judged there, and finished by the plain program if some arc isn't relaxed (`settle`). The words of a
//! search are judged by the rows of the vertices that it has reached (`are_answers`).
//!
//! The plain program finds shortest-path trees by the plainest method: every arc is relaxed, over and over, until no word
//! changes. (Bellman, "On a routing problem", Quarterly of Applied Mathematics 16 (1958).) Starting from a table that has only
//! the source's pair, it takes time in the order of `n * m`. Tests use it to check every other engine: its contract is the
//! definition of a tree itself. Starting from a table in which another program has lowered the words, it takes a pass or two,
//! and shows that nothing was missed.
#![tactic(auto)]

mod finishing;
mod judging;
mod lowering;
mod marked;
mod pass;
mod plain;
mod random;
mod scan;

pub use finishing::settle;
pub use judging::{MarkedWords, are_answers, judge_by};
pub use lowering::relax;
pub use plain::{Answer, plain_tree};
pub use random::{GraphKind, Random, random_graph};
pub use scan::{Scan, is_arc_relaxed, open_tails, scan_arcs};
