//! A file in memory.
ghost use Rattle.std.specs.Prelude.{◌≡◌, ◌≤◌, ◌^◌, length};

/// A file that a command can read.
#[derive(Clone, Copy)]
pub struct StoredFile<'a> {
    pub(crate) path: &'a str,
    pub(crate) text: &'a [u8],
    ghost short: { length text.now ≤ 2 ^ 62 },
}

impl<'a> StoredFile<'a> {
    /// Returns a file with this path and this text.
    pub fn new(path: &'a str, text: &'a [u8]) -> StoredFile<'a>
        requires { length text.now ≤ 2 ^ 62 }
        ensures path { result.path.now ≡ path.now }
        ensures text { result.text.now ≡ text.now }
    {
        StoredFile { path, text }
    }
}
