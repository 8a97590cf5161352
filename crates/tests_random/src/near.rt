//! Tests of runs within a distance, from several sources, and for several targets and their routes, through the public calls.

mod nearest;
mod plain;
mod pool;
mod random;
mod routes;
mod runs;
mod targets;
mod within;
