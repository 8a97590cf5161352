//! The step machine: actors that lower the words of one table by single loads and exchanges, in any
//! interleaving; and the theorems that every run of it is linear, and that a closed run of relaxations ends in
//! the shortest-path tree.
#![tactic(auto)]

mod actor;
mod closing;
mod effect;
mod item;
mod laws;
mod log;
mod machine;
mod programme;
mod report;
mod running;
mod turn;

pub use actor::Actor;
pub use effect::{Call, Effect, Ended, ExchangeOutcome, Relaxation};
pub use item::Item;
pub use laws::{
    closed_run_ends_in_tree, every_run_is_linear, losses_are_bounded, offer_steps_are_the_machines,
};
pub use machine::Machine;
pub use programme::Programme;
pub use report::{Finished, Report};
pub use running::replay;
pub use turn::{At, Turn};
