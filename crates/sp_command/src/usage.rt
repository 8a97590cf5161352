//! The text of `clap` for words that name no valid command.
use clap::Error;
use std::fmt;
use std::fmt::Write as _;

// The start of a misleading tip: no number has a sign, and no value begins with `--`.
const TIP: &str = "\n  tip: to pass '";

/// An error of `clap`. It displays without the tip to pass an option as a value.
#[derive(Clone, Copy, Debug)]
pub struct Untipped<'e>(pub &'e Error);

impl fmt::Display for Untipped<'_> {
    fn fmt<W: fmt::Write>(&self, f: &mut fmt::Formatter<W>) -> fmt::Result {
        let mut cut = WithoutTip { inner: f };
        write!(cut, "{}", self.0)
    }
}

/// A writer that leaves out the tip. It expects the text in one piece.
#[derive(Drop)]
struct WithoutTip<'f, T> {
    inner: &'f mut T,
}

impl<T: fmt::Write> fmt::Write for WithoutTip<'_, T> {
    fn write_str(&mut self, text: &str) -> fmt::Result {
        let Some((before, rest)) = text.split_once(TIP) else {
            return self.inner.write_str(text);
        };
        let Some((_, behind)) = rest.split_once('\n') else {
            return self.inner.write_str(text);
        };
        self.inner.write_str(before)?;
        self.inner.write_str(behind)
    }
}
