//! File names, as messages show them and as shell commands spell them.
ghost use Rattle.std.specs.Prelude.{◌≡◌};
ghost use Rattle.sp_command.specs.Names.{is_unprintable};

use std::fmt;

/// Returns whether a terminal can't show a character as it is. This holds for control characters, and for characters
/// that hide or reorder the characters beside them.
pub fn is_unprintable(c: char) -> bool
    ensures { result ≡ is_unprintable c }
{
    c.is_control()
        || matches!(
            c,
            '\u{ad}'
                | '\u{61c}'
                | '\u{200b}'..='\u{200f}'
                | '\u{2028}'..='\u{202e}'
                | '\u{2060}'..='\u{206f}'
                | '\u{feff}'
        )
}

/// A name in a message. It displays with `?` for each character that a terminal can't show.
#[derive(Clone, Copy, Debug)]
pub struct Shown<'a>(pub &'a str);

impl fmt::Display for Shown<'_> {
    fn fmt<W: fmt::Write>(&self, f: &mut fmt::Formatter<W>) -> fmt::Result {
        for c in self.0.chars() {
            f.write_char(if is_unprintable(c) { '?' } else { c })?;
        }
        Ok(())
    }
}

/// A file name as a word of a shell command.
#[derive(Clone, Copy, Debug)]
pub struct Quoted<'a> {
    name: &'a str,
}

impl<'a> Quoted<'a> {
    /// Returns the word, if a terminal can show the whole name.
    pub fn new(name: &'a str) -> Option<Quoted<'a>> {
        if name.chars().any(is_unprintable) {
            return None;
        }
        Some(Quoted { name })
    }
}

impl fmt::Display for Quoted<'_> {
    fn fmt<W: fmt::Write>(&self, f: &mut fmt::Formatter<W>) -> fmt::Result {
        // A word that begins with `-` would be read as an option.
        let folder = if self.name.starts_with('-') { "./" } else { "" };
        if !self.name.is_empty() && self.name.chars().all(is_word) {
            f.write_str(folder)?;
            return f.write_str(self.name);
        }
        f.write_str("'")?;
        f.write_str(folder)?;
        for c in self.name.chars() {
            if c == '\'' {
                f.write_str("'\\''")?;
            } else {
                f.write_char(c)?;
            }
        }
        f.write_str("'")
    }
}

// Returns whether a shell reads a character in a word as itself.
fn is_word(c: char) -> bool {
    matches!(c, 'a'..='z' | 'A'..='Z' | '0'..='9' | '.' | '_' | '-' | '/' | ',' | '+' | ':' | '@' | '%' | '=')
}
