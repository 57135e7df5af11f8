//! The progress line of `life-haul`, on a terminal.

use life_hauls::HaulWatch;
use life_program::ProgressLine;
use std::alloc::{AllocError, Global};

/// Shows how many soups are counted, the speed, and an estimate of the seconds left.
#[derive(Drop)]
pub struct Progress<'a> {
    alloc: Global,
    line: ProgressLine<'a>,
}

/// The line after `seconds`, which is 1 or more. The estimate assumes that the remaining soups take as long on average
/// as those counted so far.
fn text(alloc: Global, done: u64, count: u64, seconds: u64) -> Result<String, AllocError> {
    let speed = done.checked_div(seconds).unwrap_or(0);
    let spent = count.saturating_sub(done).saturating_mul(seconds);
    let left = spent.checked_div(done).unwrap_or(0);
    format!(in alloc; "{done} of {count} soups, {speed} a second, {left} seconds left")
}

impl<'a> Progress<'a> {
    /// Starts the clock.
    pub fn begin(rt: &'a HostRuntime) -> Progress<'a> {
        Progress {
            alloc: rt.alloc(),
            line: ProgressLine::begin(rt),
        }
    }
}

impl HaulWatch for Progress<'_> {
    fn report(&mut self, done: u64, count: u64) {
        if done == count {
            return self.line.clear();
        }
        let Some(seconds) = self.line.due() else {
            return;
        };
        if let Ok(text) = text(self.alloc, done, count, seconds) {
            self.line.write(seconds, text.as_str());
        }
    }

    /// Removes the line if the haul stopped early; [`report`](HaulWatch::report) removes it after the last soup.
    fn ended(&mut self) {
        self.line.clear();
    }
}
