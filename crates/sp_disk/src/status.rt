//! What the system says about a file.

/// What tells a file apart from all others: its device, and its number there.
#[derive(Clone, Copy, Debug, PartialEq, Eq)]
pub struct FileId {
    pub device: u64,
    pub inode: u64,
}

/// What the system says about a regular file.
#[derive(Clone, Copy, Debug, PartialEq, Eq)]
pub struct FileStatus {
    pub id: FileId,
    /// Its size in bytes.
    pub size: u64,
    /// The bits of its mode.
    pub mode: u32,
    /// The numbers of its owner and its group.
    pub owner: u32,
    pub group: u32,
}
