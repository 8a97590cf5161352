//! Tests of claim marks, of rounds, of what arcs show, and of whole runs, through the public calls.
#![tactic(auto)]

#[cfg(test)]
mod claim;
#[cfg(test)]
mod phase;
#[cfg(test)]
mod scan;
#[cfg(test)]
mod task;
