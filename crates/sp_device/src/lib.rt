//! Devices that bytes are read from and written to, and printing through a block of memory.
#![tactic(auto)]

mod buffer;
mod devices;
mod faults;
mod memory;
mod peeked;
mod printing;
mod streams;

pub use buffer::{Block, Buffer};
pub use devices::{Failed, Read, Write, write_all};
pub use faults::WriteFault;
pub use memory::{UpTo, UpToWriter};
pub use peeked::Peeked;
pub use printing::{Printer, finish, make_room, print_number, print_text};
pub use streams::{OfRead, OfWrite};
