//! Whole runs on random graphs compared with the plain program, and runs within a distance, from several sources and for several
//! targets, on worked examples too. Compiled unproved, with checks in the code, they take minutes.
#![tactic(auto)]

#[cfg(test)]
mod fire;
#[cfg(test)]
mod near;
#[cfg(test)]
mod refused;
#[cfg(test)]
mod roads;
#[cfg(test)]
mod runs;
#[cfg(test)]
mod small;
