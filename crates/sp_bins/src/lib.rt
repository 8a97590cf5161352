//! Entries by bucket, for schedules: the contracts promise nothing about which entries come out, or when.
#![tactic(auto)]

mod bins;
mod chunks;
mod entry;

pub use bins::Bins;
pub use entry::Entry;
