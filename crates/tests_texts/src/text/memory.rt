//! Items that find no room.
ghost use Rattle.tests_texts.specs.Samples.{sample, usual, AreEntries};

use super::entries::{Entries, Entry};
use crate::answers::fault;
use sp_text::{Collector, DimacsError, Feeder, FileFormat, Keep, Kind, Ranges, Values};
use std::alloc::{AllocError, Global};

// Keeps so many items more.
#[derive(Drop)]
struct Scarce {
    kept: Entries,
    room: usize,
}

impl Keep for Scarce {
    type Value = Vec<Entry>;

    ghost format = { sample };

    ghost ranges = { usual };

    ghost Kept = { λ s items. ⟦<Entries as Keep>⟧.Kept s.kept items };

    ghost Spelled = { λ ps items value. AreEntries items value.items };

    fn format(&self) -> FileFormat {
        self.kept.format()
    }

    fn ranges(&self) -> Ranges {
        self.kept.ranges()
    }

    fn keep(&mut self, place: usize, values: &Values) -> Result<(), AllocError> {
        if self.room == 0 {
            return Err(AllocError);
        }
        self.room -= 1;
        self.kept.keep(place, values)
    }

    fn is_named(&self, place: usize, first: u64) -> bool {
        self.kept.is_named(place, first)
    }

    fn give(&mut self, problem: &Values) -> Vec<Entry> {
        self.kept.give(problem)
    }
}

fn new_reader(alloc: Global, room: usize) -> Feeder<Collector<Scarce>> {
    let kept = Entries::new(alloc);
    Feeder::new(Collector::new(Scarce { kept, room }))
}

fn memory(line: u64) -> DimacsError {
    fault(line, Kind::Memory)
}

#[test]
fn the_line_without_room(rt: HostRuntime) {
    let mut reader = new_reader(rt.alloc(), 1);
    assert!(rt; reader.feed(b"p sp 2 3\na 1 2 5\n") == Ok(()));
    assert!(rt; reader.feed(b"c\na 2 1 5\n\nx\n") == Err(memory(4)));
    assert!(rt; reader.feed(b"c\n") == Err(memory(4)));
    assert!(rt; reader.finish().err() == Some(memory(4)));
}

#[test]
fn the_last_line_without_room(rt: HostRuntime) {
    let mut reader = new_reader(rt.alloc(), 1);
    assert!(rt; reader.feed(b"p sp 2 2\na 1 2 5\na 2 1 5") == Ok(()));
    assert!(rt; reader.finish().err() == Some(memory(3)));
}

#[test]
fn earlier_faults_are_told(rt: HostRuntime) {
    let mut reader = new_reader(rt.alloc(), 0);
    let fed = reader.feed(b"p sp 2 2\nx\na 1 2 5\n");
    assert!(rt; fed == Err(fault(2, Kind::BadLine)));
}
