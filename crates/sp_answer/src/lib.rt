//! What is asked of a run (`RunRequest`), who answers it (`Engine`), and what its words answer (`RunWords`): a tree, as rows or
//! as words, a part of it, the forest of several sources with the roots of its vertices, the answers for targets, as words
//! or with their routes, or why there is none.
#![tactic(auto)]

mod answer;
mod asked;
mod engine;
mod forest;
mod pair;
mod place;
mod reading;
mod rooting;
mod route;
mod rows;
mod run_words;
mod target;
mod tree;
mod within;
mod word_tree;

pub use answer::RunError;
pub use asked::{RunRequest, Until, are_vertices};
pub use engine::Engine;
pub use forest::Forest;
pub use pair::PairAnswer;
pub use reading::{answers_of, forest_of, part_of, tree_of};
pub use rooting::roots_of;
pub use route::{RouteAnswer, route_of};
pub use run_words::{RunWords, farthest};
pub use target::TargetAnswer;
pub use tree::Tree;
pub use within::{up_to, words_within};
pub use word_tree::WordTree;
