//! Tests of devices, and of the texts read from them and written to them, through the public calls.
#![tactic(auto)]

#[cfg(test)]
mod answers;
#[cfg(test)]
mod blocks;
#[cfg(test)]
mod device;
#[cfg(test)]
mod dimacs;
#[cfg(test)]
mod faulty;
#[cfg(test)]
mod packed;
#[cfg(test)]
mod replay;
#[cfg(test)]
mod text;
#[cfg(test)]
mod tree;
