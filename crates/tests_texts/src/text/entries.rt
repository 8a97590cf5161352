//! A file to try the engine on: arcs, and words at the start.
ghost use Rattle.std.specs.Prelude.{◌≡◌, ◌==◌, ◌&&◌, ℕ, List, []};
ghost use Rattle.std.specs.List.{list_any};
ghost use Rattle.sp_text.specs.Formats.{format_of};
ghost use Rattle.tests_texts.specs.Samples.{sample, usual, AreEntries};
ghost use Rattle.sp_text.specs.Text.{ItemLine};

use sp_device::Read;
use sp_text::{
    Collector, DimacsError, Feeder, Field, FileFormat, Form, Keep, Ranges, Top, Values, read_items,
    read_text,
};
use std::alloc::{AllocError, Global};
use std::mem;

const SAMPLE: FileFormat = FileFormat {
    problem: Form {
        words: b"p sp",
        fields: &[
            Field {
                letter: b'N',
                least: 1,
                most: Top::Vertex,
            },
            Field {
                letter: b'M',
                least: 0,
                most: Top::Number(1_073_741_824),
            },
        ],
        fresh: false,
        group: 0,
        limit: Top::Number(1),
    },
    items: &[
        Form {
            words: b"a",
            fields: &[
                Field {
                    letter: b'U',
                    least: 1,
                    most: Top::Problem(0),
                },
                Field {
                    letter: b'V',
                    least: 1,
                    most: Top::Problem(0),
                },
                Field {
                    letter: b'W',
                    least: 1,
                    most: Top::Number(4_294_967_295),
                },
            ],
            fresh: false,
            group: 0,
            limit: Top::Problem(1),
        },
        Form {
            words: b"i",
            fields: &[
                Field {
                    letter: b'V',
                    least: 1,
                    most: Top::Problem(0),
                },
                Field {
                    letter: b'D',
                    least: 0,
                    most: Top::Dist,
                },
                Field {
                    letter: b'P',
                    least: 0,
                    most: Top::Vertex,
                },
            ],
            fresh: true,
            group: 1,
            limit: Top::Problem(0),
        },
    ],
    needed: Top::Problem(1),
};

fn sample_format() -> FileFormat
    ensures { format_of result ≡ sample }
{
    SAMPLE
}

pub type Entry = (usize, u64, u64, u64);

/// The items so far.
#[derive(Drop)]
pub struct Entries {
    alloc: Global,
    entries: Vec<Entry>,
}

impl Entries {
    pub fn new(alloc: Global) -> Self
        ensures { result.entries.items ≡ [] }
    {
        Entries {
            alloc,
            entries: Vec::new(alloc),
        }
    }
}

fn has_entry(entries: &[Entry], place: usize, first: u64) -> bool
    ensures { result ≡ list_any (λ e. (e.0 == place) && (e.1 == first)) entries.now }
{
    entries.iter().any(|e| e.0 == place && e.1 == first)
}

impl Keep for Entries {
    type Value = Vec<Entry>;

    ghost format = { sample };

    ghost ranges = { usual };

    ghost Kept = { λ s items. AreEntries items s.entries.items };

    ghost Spelled = { λ ps items value. AreEntries items value.items };

    fn format(&self) -> FileFormat {
        sample_format()
    }

    fn ranges(&self) -> Ranges {
        Ranges {
            vertex: 268_435_454,
            dist: 68_719_476_734,
        }
    }

    fn keep(&mut self, place: usize, values: &Values) -> Result<(), AllocError> {
        let entry = (place, values.get(0), values.get(1), values.get(2));
        self.entries.push(entry)?;
        Ok(())
    }

    fn is_named(&self, place: usize, first: u64) -> bool {
        has_entry(&self.entries, place, first)
    }

    fn give(&mut self, _problem: &Values) -> Vec<Entry> {
        mem::replace(&mut self.entries, Vec::new(self.alloc))
    }
}

pub type Reader = Feeder<Collector<Entries>>;

pub fn new_reader(alloc: Global) -> Reader {
    Feeder::new(Collector::new(Entries::new(alloc)))
}

pub fn read_entries<R: Read>(alloc: Global, reader: &mut R) -> Result<Vec<Entry>, DimacsError> {
    read_text(reader, Feeder::new(Collector::new(Entries::new(alloc))))
}

/// The same by `read_items`.
pub fn read_quickly<R: Read>(alloc: Global, reader: &mut R) -> Result<Vec<Entry>, DimacsError> {
    read_items(reader, Feeder::new(Collector::new(Entries::new(alloc))))
}
