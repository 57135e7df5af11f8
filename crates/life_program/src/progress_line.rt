//! Progress on a terminal.

use std::io::IsTerminal;
use std::time::Instant;

/// A line on standard error, replaced at most once a second. It stays empty if standard error is not a terminal or
/// there is no clock. Failed writes are ignored.
#[derive(Drop)]
pub struct ProgressLine<'a> {
    rt: &'a HostRuntime,
    /// When the work began; `None` if no line is shown.
    began: Option<Instant>,
    /// The full seconds that had passed when the line was last written; 0 if there is no line now.
    shown: u64,
}

impl<'a> ProgressLine<'a> {
    /// Starts the clock, and writes nothing yet.
    pub fn begin(rt: &'a HostRuntime) -> ProgressLine<'a> {
        let began = if rt.stderr().is_terminal() {
            Instant::now(rt).ok()
        } else {
            None
        };
        ProgressLine {
            rt,
            began,
            shown: 0,
        }
    }

    /// The full seconds that have passed, if the line should be written now.
    pub fn due(&self) -> Option<u64> {
        let began = self.began?;
        let seconds = began.elapsed(self.rt).ok()?.as_secs();
        if seconds == self.shown {
            return None;
        }
        Some(seconds)
    }

    /// Replaces the line. `seconds` comes from [`due`](ProgressLine::due).
    pub fn write(&mut self, seconds: u64, text: &str) {
        self.shown = seconds;
        let _written = eprint!(self.rt; "\r\x1b[K{text}");
    }

    /// Removes the line, if there is one.
    pub fn clear(&mut self) {
        if self.shown != 0 {
            self.shown = 0;
            let _written = eprint!(self.rt; "\r\x1b[K");
        }
    }
}
