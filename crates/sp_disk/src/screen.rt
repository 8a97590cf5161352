//! The progress of a run, shown on standard error. A terminal shows one line, which is overwritten; any other output
//! gets a new line now and then.
//!
//! The command's thread shows it at each report and when it writes. A second thread shows it in between, since a single
//! report can cover hours of work.
use crate::stand::Stand;
use sp_command::ProgressReport;
use sp_word::Meter;
use std::rt::Clock;
use std::sync::atomic::{AtomicU64, Ordering};
use std::sync::{Mutex, Wait};
use std::time::{Duration, Instant};

// The shortest time for which a line stays on a terminal, and the shortest time between two lines elsewhere, in
// milliseconds.
const PAUSE_ON_TERMINAL: u64 = 100;

const PAUSE_ELSEWHERE: u64 = 5000;

// How long the second thread sleeps before it checks whether a line is due, in milliseconds.
const NAP: u64 = 200;

/// What was shown of a run's progress, and what the next line needs.
#[derive(Drop)]
pub struct Watch {
    meter: Meter,
    // Locked while a line is written, so that the lines of two threads don't mix.
    shown: Mutex<Screenful>,
    // 1 once the run has ended, 0 before.
    over: AtomicU64,
}

// What the user sees.
#[derive(Drop)]
struct Screenful {
    // The state of the run, once there has been a report.
    stand: Option<Stand>,
    // When the last line was shown; before that, on anything but a terminal, when the first report came.
    at: Option<Instant>,
    // Whether a terminal shows a line that is still to be overwritten or ended.
    is_open: bool,
    // Whether the last line showed everything that has been reported and written.
    is_last: bool,
}

impl Watch {
    /// Returns a watch that has shown nothing.
    pub fn new() -> Self {
        Watch {
            meter: Meter::new(),
            shown: Mutex::new(Screenful {
                stand: None,
                at: None,
                is_open: false,
                is_last: true,
            }),
            over: AtomicU64::new(0),
        }
    }

    /// Returns the meter on which the workers of a run count the vertices that they have relaxed.
    pub fn meter(&self) -> &Meter {
        &self.meter
    }
}

impl Screenful {
    // Notes the state of the run, which no line has shown.
    fn put(&mut self, stand: Stand) {
        self.stand = Some(stand);
        self.is_last = false;
    }

    // Returns whether at least this many milliseconds have passed since the last line.
    fn is_due(&self, now: Instant, pause: u64) -> bool {
        match self.at {
            Some(at) => now.duration_since(at) >= Duration::from_millis(pause),
            None => true,
        }
    }
}

/// Standard error, as the screen that shows the user the progress of a run.
pub struct Screen<'a, R> {
    rt: &'a R,
    is_terminal: bool,
    watch: &'a Watch,
}

impl<R> Drop for Screen<'_, R> {
    fn drop(self) {
        let Screen {
            rt: _,
            is_terminal: _,
            watch: _,
        } = self;
    }
}

impl<'a, R: Eprint + Clock + Wait> Screen<'a, R> {
    /// Returns a screen that writes through the runtime, and keeps its notes in the watch.
    pub fn new(rt: &'a R, is_terminal: bool, watch: &'a Watch) -> Self {
        Screen {
            rt,
            is_terminal,
            watch,
        }
    }

    /// Notes a report, and shows it if a line is due. The file that is being read has this size, if it is known.
    pub fn hear(&self, report: ProgressReport, size: Option<u64>) {
        let Ok(now) = Instant::now(self.rt) else {
            return;
        };
        let counted = self.watch.meter.count();
        let mut guard = self.watch.shown.lock(self.rt);
        let shown = &mut *guard;
        match shown.stand {
            Some(stand) => shown.put(stand.after(report, size, counted, now)),
            None => {
                shown.put(Stand::new(report, size, counted, now));
                if !self.is_terminal {
                    shown.at = Some(now);
                }
            }
        }
        self.tell_if_due(shown, now);
    }

    /// Notes what was written to the output, and shows the progress if a line is due.
    pub fn see_written(&self, bytes: &[u8]) {
        let mut guard = self.watch.shown.lock(self.rt);
        let shown = &mut *guard;
        let Some(stand) = shown.stand else {
            return;
        };
        shown.put(stand.with_written(bytes));
        if let Ok(now) = Instant::now(self.rt) {
            self.tell_if_due(shown, now);
        }
    }

    /// Shows the progress now and then, until the run has ended.
    pub fn watch(&self) {
        let nap = Duration::from_millis(NAP);
        for _ in self.rt.forever() {
            self.watch.over.park_timeout(self.rt, 0, nap);
            if self.watch.over.load(Ordering::SeqCst) != 0 {
                return;
            }
            if let Ok(now) = Instant::now(self.rt) {
                let mut guard = self.watch.shown.lock(self.rt);
                self.tell_if_due(&mut *guard, now);
            }
        }
    }

    /// Ends the watch at once.
    pub fn end_watch(&self) {
        self.watch.over.store(1, Ordering::SeqCst);
        self.watch.over.wake_all();
    }

    // Shows the progress if a line is due.
    fn tell_if_due(&self, shown: &mut Screenful, now: Instant) {
        let pause = if self.is_terminal {
            PAUSE_ON_TERMINAL
        } else {
            PAUSE_ELSEWHERE
        };
        if shown.is_due(now, pause) {
            self.tell(shown, now);
        }
    }

    // Shows the progress.
    fn tell(&self, shown: &mut Screenful, now: Instant) {
        let Some(stand) = shown.stand else {
            return;
        };
        let stand = stand.with_counted(self.watch.meter.count());
        let line = stand.line(now);
        // If it can't be shown, the run continues.
        if self.is_terminal {
            let _ = eprint!(self.rt; "\rspt: {line}\x1b[K");
            shown.is_open = true;
        } else {
            let _ = eprintln!(self.rt; "spt: {line}");
        }
        shown.stand = Some(stand);
        shown.at = Some(now);
        shown.is_last = true;
    }

    /// Shows the final progress, if the last line didn't, and ends the display.
    pub fn end(&self) {
        let mut guard = self.watch.shown.lock(self.rt);
        let shown = &mut *guard;
        if !shown.is_last
            && let Ok(now) = Instant::now(self.rt)
        {
            self.tell(shown, now);
        }
        self.close(shown);
    }

    /// Ends the line on a terminal, because other text follows, and shows no more of this run.
    pub fn give_way(&self) {
        let mut guard = self.watch.shown.lock(self.rt);
        self.close(&mut *guard);
    }

    // Ends the line on a terminal, and shows no more of this run.
    fn close(&self, shown: &mut Screenful) {
        if shown.is_open {
            let _ = eprintln!(self.rt; "");
        }
        shown.is_open = false;
        shown.is_last = true;
        shown.stand = None;
    }
}
