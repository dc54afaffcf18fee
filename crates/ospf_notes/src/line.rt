//! Standard error while something runs: messages, and on a terminal a line that shows the progress.

use std::io::Write;
use std::time::{Clock, Duration};

// The time between two lines, and before the first one, in milliseconds.
const BETWEEN_LINES: u64 = 200;

/// Standard error. On a terminal each progress line overwrites the last. What cannot be written is
/// lost.
#[derive(Drop)]
pub struct StatusLine<T: Write + Drop> {
    stream: T,
    is_terminal: bool,
    // When the next line is due; `None` before the first is requested.
    next: Option<Duration>,
    is_shown: bool,
}

impl<T: Write + Drop> StatusLine<T> {
    /// No line yet. If the stream is not a terminal there never is one.
    pub fn new(stream: T, is_terminal: bool) -> StatusLine<T> {
        StatusLine {
            stream,
            is_terminal,
            next: None,
            is_shown: false,
        }
    }

    /// Whether there can be a line.
    pub fn has_terminal(&self) -> bool {
        self.is_terminal
    }

    /// Where to write the line, if one is due.
    pub fn begin<C: Clock>(&mut self, clock: &C) -> Option<&mut T> {
        if !self.has_terminal() || !self.is_due(clock) {
            return None;
        }
        self.is_shown = true;
        Some(&mut self.stream)
    }

    /// Where to write a message, which ends in a line feed. A line that is shown is erased first.
    pub fn messages(&mut self) -> &mut T {
        self.erase();
        &mut self.stream
    }

    /// Erases the line.
    pub fn erase(&mut self) {
        if !self.is_shown {
            return;
        }
        self.is_shown = false;
        let _ = write!(self.stream, "\r\x1b[K");
    }

    // Whether a line is due now. If so, the next one is due later.
    fn is_due<C: Clock>(&mut self, clock: &C) -> bool {
        let Ok(now) = clock.monotonic() else {
            return false;
        };
        let (is_first, is_due) = match self.next {
            None => (true, false),
            Some(next) => (false, next <= now),
        };
        if is_first || is_due {
            self.next = now.checked_add(Duration::from_millis(BETWEEN_LINES));
        }
        is_due
    }
}
