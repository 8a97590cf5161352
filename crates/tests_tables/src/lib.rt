//! Tests of words, graphs, buckets, the offer table, the plain program and the checker, through the public calls.
#![tactic(auto)]

#[cfg(test)]
mod bins;
#[cfg(test)]
mod bucket;
#[cfg(test)]
mod cert;
#[cfg(test)]
mod graph;
#[cfg(test)]
mod offer;
#[cfg(test)]
mod plain;
#[cfg(test)]
mod serial;
#[cfg(test)]
mod word;
