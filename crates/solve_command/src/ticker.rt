//! When is a line of progress due, and how is it written?

use std::fmt;
use std::rt::Clock;
use std::sync::atomic::{AtomicU64, Ordering};
use std::time::Instant;

/// How lines of progress are written.
#[derive(Clone, Copy, PartialEq, Eq)]
pub enum Lines {
    /// One below the other.
    Apart,
    /// Each over the one before, as at a terminal.
    Over,
}

/// A line that takes the place of the one before.
#[derive(Drop)]
struct Instead<D: fmt::Display + Drop>(D);

impl<D: fmt::Display + Drop> fmt::Display for Instead<D> {
    fn fmt<W: fmt::Write>(&self, f: &mut fmt::Formatter<W>) -> fmt::Result {
        write!(f, "\r{}\x1b[K", self.0)
    }
}

/// Lines on a screen, one a second at most.
#[derive(Drop)]
pub struct Ticker<'a, S: Clock + Eprint> {
    screen: &'a S,
    lines: Lines,
    started: Option<Instant>,
    /// The second of the last line.
    told: AtomicU64,
}

impl<'a, S: Clock + Eprint> Ticker<'a, S> {
    /// No line is written yet.
    pub fn on(screen: &'a S, lines: Lines) -> Self {
        Ticker {
            screen,
            lines,
            started: Instant::now(screen).ok(),
            told: AtomicU64::new(0),
        }
    }

    /// The milliseconds that have passed; 0 where the clock can't be read.
    pub fn millis(&self) -> u64 {
        match &self.started {
            Some(started) => match started.elapsed(self.screen) {
                Ok(time) => time.as_millis().min(u128::from(u64::MAX)) as u64,
                Err(_) => 0,
            },
            None => 0,
        }
    }

    /// The seconds that have passed, from which the next line is a second away.
    pub fn begin(&self) -> u64 {
        let seconds = self.millis() / 1000;
        self.told.store(seconds, Ordering::SeqCst);
        seconds
    }

    /// The seconds that have passed, and how many of them since the last line, where one is due: one caller alone is told so.
    pub fn due(&self, millis: u64) -> Option<(u64, u64)> {
        let order = Ordering::SeqCst;
        let (seconds, last) = (millis / 1000, self.told.load(order));
        if seconds > last
            && self
                .told
                .compare_exchange(last, seconds, order, order)
                .is_ok()
        {
            Some((seconds, seconds - last))
        } else {
            None
        }
    }

    /// Writes what is known now.
    pub fn write<D: fmt::Display + Drop>(&self, line: D) {
        match self.lines {
            Lines::Apart => self.write_line(line),
            Lines::Over => {
                let _ = self.screen.eprint(Instead(line));
            }
        }
    }

    /// Writes a line that stays.
    pub fn write_line<D: fmt::Display + Drop>(&self, line: D) {
        let _ = self.screen.eprintln(line);
    }

    /// Leaves the last line as it is, where others were written over.
    pub fn end(&self) {
        if self.lines == Lines::Over {
            self.write_line("");
        }
    }
}
