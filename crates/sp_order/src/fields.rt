//! The fields of a line, for advice about it.
use std::str::from_utf8;

// The greatest number of fields in a line of any file.
const MOST: usize = 5;

/// The first fields of a line, and the number of all its fields.
#[derive(Clone, Copy, Debug)]
pub struct Fields<'l> {
    kept: [&'l str; MOST],
    /// The number of fields in the line.
    pub count: usize,
}

impl<'l> Fields<'l> {
    /// Returns the fields of a line. A line that isn't text has none.
    pub fn of(line: &'l [u8]) -> Fields<'l> {
        let mut fields = Fields {
            kept: [""; MOST],
            count: 0,
        };
        let Ok(text) = from_utf8(line) else {
            return fields;
        };
        for field in text.split_ascii_whitespace() {
            fields.add(field);
        }
        fields
    }

    fn add(&mut self, field: &'l str) {
        if self.count < MOST {
            self.kept[self.count] = field;
        }
        self.count = self.count.saturating_add(1);
    }

    /// Returns the field at this index, counted from 0. If there is none, or if lines of files never have a field
    /// there, the result is an empty field.
    pub fn at(&self, place: usize) -> &'l str {
        self.kept.get(place).copied().unwrap_or("")
    }

    /// Returns the field at this index, if it is a number.
    pub fn number(&self, place: usize) -> Option<u64> {
        self.at(place).parse().ok()
    }
}
