//! Runs on the calling thread. They start no other thread and never wait. One kind of run answers every question about one source
//! or several (`words_alone`), and `ByCaller` is the calling thread as an engine (`sp_answer`), off whose words a tree, a part, a forest
//! and answers for targets are read. Where a small part of a graph is enough, a search finds it first (`near.rt`).
//!
//! A run lowers the words bucket by bucket, as delta-stepping does (Meyer and Sanders, "Delta-stepping: a parallelizable shortest
//! path algorithm", Journal of Algorithms 49 (2003)), with buckets that adapt their width. Then it checks the arcs that bear on
//! what is asked. If one of them isn't relaxed, the plain program passes over all arcs until no word changes. So the answer
//! depends only on checks of arcs, whatever the buckets held.
#![tactic(auto)]

mod batch;
mod by_caller;
mod live;
mod lowering;
mod misses;
mod near;
mod part;
mod reach;
mod rooted;
mod run_alone;
mod search;
mod search_buffers;
mod search_pool;
mod shelf;
mod spare_buffers;
mod table;
mod tracked_words;

pub use by_caller::ByCaller;
pub use near::{answers_near, forest_near, part_near};
pub use run_alone::words_alone;
pub use search_buffers::SearchBuffers;
pub use search_pool::{OwnSearchPool, SearchPool, SearchPoolOn};
pub use sp_answer::{Forest, PairAnswer, RunError, RunRequest, RunWords, Tree, Until};
