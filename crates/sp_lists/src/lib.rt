//! Questions about a graph, answered on the calling thread, in lists that the caller provides: the trees of several sources, the
//! part of a tree within a distance, whole or as a list of the vertices in it, the forest of several sources and a matrix of
//! distances; the answer for one target, alone or with its route; and the routes to several targets. Each answer uses the layout
//! with the greatest distances that can name the vertices.
#![tactic(auto)]

mod cells;
mod forest;
mod found_words;
mod limits;
mod matrix;
mod outcomes;
mod parts;
mod prepared;
mod queries;
mod routes;
mod search_pools;
mod solving;
mod targets;

pub use cells::Cell;
pub use forest::{ForestQuestion, write_forest};
pub use limits::{first_non_vertex, fits, is_count, is_vertex, reach};
pub use matrix::write_matrix;
pub use outcomes::{BatchOutcome, ListingOutcome, Outcome};
pub use parts::{PartQuestion, list_part, write_part};
pub use prepared::Prepared;
pub use routes::{RouteSize, RoutesQuestion, write_route, write_routes};
pub use search_pools::AnySearchPool;
pub use solving::write_trees;
pub use targets::find_target;
