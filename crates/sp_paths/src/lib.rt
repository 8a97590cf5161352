//! Directed graphs with positive arc lengths: walks, least lengths, shortest-path trees, vertices that are too far, the same from
//! several sources, routes, and the theorems about tables of words on which every engine and every checker of trees relies.
#![tactic(auto)]

mod arc;
mod forest_laws;
mod laws;
mod offer;
mod route_laws;

pub use arc::Arc;
pub use forest_laws::{closed_table, finished_forest, forest_meanings, roots};
pub use laws::{
    answers_exist, bag_of_arcs, closed_calls, finished_table, meanings, passed_bucket,
    rows_of_arcs, swept_copy, tested_copy,
};
pub use offer::Offer;
pub use route_laws::routes;
