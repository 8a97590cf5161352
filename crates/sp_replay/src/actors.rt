//! The offers of a programme, made by a thread for each actor.

mod law;
mod rows;
mod threads;
pub(crate) mod words_left;
