//! A table of words that many threads lower without a lock, and the one legal history of their calls.
//!
//! Each vertex has a word. An offer leaves the lesser of the current word and the word offered. A `Caller` is a thread's right to
//! call; contracts see the legal history that it has seen, and which calls in it are its own.
#![tactic(auto)]

mod atomic_words;
mod law;
mod lowering;
mod rule;
mod table;
mod view;

pub use atomic_words::{CallerSeat, Words};
pub use law::{AnyWord, Lawful};
pub use lowering::{Loop, Lowering, OneMin};
pub use table::{Caller, OfferTable, Offered, SplitRefused};
