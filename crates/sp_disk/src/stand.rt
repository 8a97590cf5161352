//! The state of a run, and the line that shows it.
use sp_command::ProgressReport;
use std::fmt;
use std::time::{Duration, Instant};

// If a total has more bits than `EXACT_BITS`, both numbers of a share are divided by 2 to the power `UNIT_BITS`.
const EXACT_BITS: u32 = 32;

const UNIT_BITS: u32 = 24;

/// The state of a run: its last report, and what has been relaxed and written since then.
#[derive(Clone, Copy)]
pub struct Stand {
    report: ProgressReport,
    // The size in bytes of the file that is being read, if it is known.
    size: Option<u64>,
    // The number of vertices of the graph, once it has been built.
    vertices: u64,
    // The number of trees written since the report, and the vertex that the next one has reached.
    trees: u64,
    vertex: u64,
    // The number on the workers' meter at the report.
    counted: u64,
    // The number of vertices relaxed in all runs, as far as it has been shown.
    relaxed: u64,
    begun: Instant,
    // When the stage of the last report began.
    stage_begun: Instant,
}

/// A part of a whole.
#[derive(Clone, Copy)]
struct DoneShare {
    done: u64,
    all: u64,
}

impl DoneShare {
    // Returns the share in units so large that its numbers can be multiplied by a time.
    fn in_units(self) -> Self {
        if self.all >> EXACT_BITS == 0 {
            return self;
        }
        DoneShare {
            done: self.done >> UNIT_BITS,
            all: self.all >> UNIT_BITS,
        }
    }

    // Returns the share in percent. It is 100 only if everything is done.
    fn percent(self) -> u64 {
        let most = if self.done < self.all { 99 } else { 100 };
        let DoneShare { done, all } = self.in_units();
        done.saturating_mul(100)
            .checked_div(all)
            .unwrap_or(100)
            .min(most)
    }

    // Returns how long the rest will take if it goes on at the rate of this time.
    fn time_left(self, passed: Duration) -> Option<Duration> {
        let DoneShare { done, all } = self.in_units();
        let millis = passed.as_secs().saturating_mul(1000);
        let millis = millis.saturating_add(u64::from(passed.subsec_millis()));
        let rest = all.saturating_sub(done);
        let left = millis.saturating_mul(rest).checked_div(done)?;
        Some(Duration::from_millis(left))
    }
}

impl Stand {
    /// Returns the state at the first report of a run. The workers have counted this many relaxed vertices.
    pub fn new(report: ProgressReport, size: Option<u64>, counted: u64, now: Instant) -> Self {
        let begun = Stand {
            report,
            size,
            vertices: 0,
            trees: 0,
            vertex: 0,
            counted,
            relaxed: 0,
            begun: now,
            stage_begun: now,
        };
        begun.after(report, size, counted, now)
    }

    /// Returns the state at the next report. The file that is being read has this size, if it is known.
    pub fn after(
        self,
        report: ProgressReport,
        size: Option<u64>,
        counted: u64,
        now: Instant,
    ) -> Self {
        let stage_begun = if self.report.is_like(report) {
            self.stage_begun
        } else {
            now
        };
        let vertices = match report {
            ProgressReport::Graph { vertices, .. } => u64::from(vertices),
            _ => self.vertices,
        };
        Stand {
            report,
            size,
            vertices,
            trees: 0,
            vertex: 0,
            counted,
            relaxed: self.relaxed,
            begun: self.begun,
            stage_begun,
        }
    }

    /// Returns the state after these bytes of the output were written.
    pub fn with_written(self, written: &[u8]) -> Self {
        let more = written.len() as u64;
        let report = match self.report {
            ProgressReport::Sources { done, count, bytes } => ProgressReport::Sources {
                done,
                count,
                bytes: bytes.saturating_add(more),
            },
            ProgressReport::Runs { done, count, bytes } => ProgressReport::Runs {
                done,
                count,
                bytes: bytes.saturating_add(more),
            },
            ProgressReport::Lines { done, count, bytes } => ProgressReport::Lines {
                done,
                count,
                bytes: bytes.saturating_add(more),
            },
            _ => return self,
        };
        let Some(vertex) = last_vertex(written) else {
            return Stand { report, ..self };
        };
        // The vertices of a tree are in increasing order.
        let is_next = vertex < self.vertex;
        let trees = self.trees.saturating_add(u64::from(is_next));
        Stand {
            report,
            trees,
            vertex,
            ..self
        }
    }

    /// Returns the state once the workers have counted this many relaxed vertices. A vertex that is relaxed again is
    /// counted again, so a report may take some of the count back. The number that was shown doesn't decrease.
    pub fn with_counted(self, counted: u64) -> Self {
        let (ProgressReport::Sources { done, count, .. }
        | ProgressReport::Runs { done, count, .. }
        | ProgressReport::Pairs { done, count }) = self.report
        else {
            return self;
        };
        let since = counted.saturating_sub(self.counted);
        let runs = self.each(done).saturating_add(since);
        let relaxed = runs.min(self.each(count)).max(self.relaxed);
        Stand { relaxed, ..self }
    }

    /// Returns the line that shows the state at this time.
    pub fn line(&self, now: Instant) -> ProgressLine<'_> {
        ProgressLine { stand: self, now }
    }

    // Returns the number of vertices of this many trees.
    fn each(&self, trees: u64) -> u64 {
        trees.saturating_mul(self.vertices.max(1))
    }

    // Returns how much of the report's stage is done.
    fn share(&self) -> Option<DoneShare> {
        match self.report {
            ProgressReport::Read { bytes, .. } => self
                .size
                .map(|all| DoneShare { done: bytes, all }),
            ProgressReport::Graph { .. } => None,
            ProgressReport::Lines { done, count, .. } => Some(DoneShare { done, all: count }),
            ProgressReport::Sources { done, count, .. }
            | ProgressReport::Runs { done, count, .. }
            | ProgressReport::Pairs { done, count } => Some(self.share_of_runs(done, count)),
        }
    }

    // Relaxing a vertex counts as much as writing two.
    fn share_of_runs(&self, done: u64, count: u64) -> DoneShare {
        let all = self.each(count);
        let whole = done.saturating_add(self.trees).min(count);
        let written = self.each(whole).saturating_add(self.vertex).min(all);
        // A tree that is being written has been relaxed.
        let begun = whole.saturating_add(u64::from(self.vertex > 0));
        let relaxed = self.relaxed.max(self.each(begun)).min(all);
        DoneShare {
            done: relaxed.saturating_mul(2).saturating_add(written),
            all: all.saturating_mul(3),
        }
    }

    // Returns what is being done for the next source, if there is one left.
    fn stage(&self) -> &'static str {
        match self.report {
            ProgressReport::Sources { done, count, .. } | ProgressReport::Runs { done, count, .. }
                if done < count => {
                if self.trees == 0 && self.vertex == 0 {
                    ", relaxing"
                } else {
                    ", writing"
                }
            }
            _ => "",
        }
    }
}

// Returns the vertex on the last complete line of these bytes, if that is a line of a tree.
fn last_vertex(bytes: &[u8]) -> Option<u64> {
    let mut lines = bytes.rsplit(|byte| *byte == b'\n');
    let _cut = lines.next()?;
    let row = lines.next()?.strip_prefix(b"v ")?;
    let number = row.split(|byte| *byte == b' ').next()?;
    str::from_utf8(number).ok()?.parse().ok()
}

/// What is shown of a run: its stage, how much of it is done, the time passed since the run began, and the time that
/// the rest of the stage will take.
#[derive(Clone, Copy)]
pub struct ProgressLine<'a> {
    stand: &'a Stand,
    now: Instant,
}

impl fmt::Display for ProgressLine<'_> {
    fn fmt<W: fmt::Write>(&self, f: &mut fmt::Formatter<W>) -> fmt::Result {
        let ProgressLine { stand, now } = *self;
        let report = stand.report;
        let stage = stand.stage();
        let passed = ClockTime(now.duration_since(stand.begun));
        let Some(share) = stand.share() else {
            return write!(f, "{report}, {passed}");
        };
        let percent = share.percent();
        write!(f, "{report}{stage}, {percent} %, {passed}")?;
        if share.done < share.all {
            if let Some(left) = share.time_left(now.duration_since(stand.stage_begun)) {
                let left = ClockTime(left);
                return write!(f, ", {left} left");
            }
        }
        Ok(())
    }
}

// A time in hours, minutes and seconds.
#[derive(Clone, Copy)]
struct ClockTime(Duration);

impl fmt::Display for ClockTime {
    fn fmt<W: fmt::Write>(&self, f: &mut fmt::Formatter<W>) -> fmt::Result {
        let seconds = self.0.as_secs();
        let (hours, minutes, seconds) = (seconds / 3600, seconds / 60 % 60, seconds % 60);
        if hours == 0 {
            return write!(f, "{minutes}:{seconds:02}");
        }
        write!(f, "{hours}:{minutes:02}:{seconds:02}")
    }
}
