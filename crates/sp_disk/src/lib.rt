//! The files and the streams of the system, for commands.
//!
//! No contract can say what a file of the system holds. While files are read and written, this crate takes notes for
//! the second lines of error messages, and for the lines that show the progress.
#![tactic(auto)]

mod disk;
mod errors;
mod host;
mod noted;
mod output;
mod place;
mod screen;
mod sink;
mod stand;
mod status;
mod system;

pub use disk::Disk;
pub use errors::Errors;
pub use host::{Host, HostDevice, HostPart};
pub use noted::{FileNotes, Noted};
pub use output::Output;
pub use screen::{Screen, Watch};
pub use sink::{Sink, UnfinishedFile};
pub use status::{FileId, FileStatus};
pub use system::{Part, System, Target};
