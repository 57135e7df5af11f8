//! The progress line of `life check` on standard error.

use life_check::CheckWatch;
use life_program::ProgressLine;
use std::alloc::{AllocError, Global};

/// Shows how many rows a check has read. Deposits are read first, then censuses.
#[derive(Drop)]
pub struct CheckProgress<'a> {
    alloc: Global,
    line: ProgressLine<'a>,
    /// How many deposits are read.
    deposits: u64,
}

/// The text of the progress line.
fn text(alloc: Global, deposits: u64, censuses: u64, seconds: u64) -> Result<String, AllocError> {
    format!(in alloc; "{deposits} deposits and {censuses} censuses read, {seconds} s")
}

impl<'a> CheckProgress<'a> {
    /// The progress of a check that starts now.
    pub fn begin(rt: &'a HostRuntime) -> CheckProgress<'a> {
        CheckProgress {
            alloc: rt.alloc(),
            line: ProgressLine::begin(rt),
            deposits: 0,
        }
    }

    /// Updates the line, if an update is due.
    fn show(&mut self, censuses: u64) {
        let Some(seconds) = self.line.due() else {
            return;
        };
        if let Ok(text) = text(self.alloc, self.deposits, censuses, seconds) {
            self.line.write(seconds, text.as_str());
        }
    }
}

impl CheckWatch for CheckProgress<'_> {
    fn deposits_read(&mut self, count: u64) {
        self.deposits = count;
        self.show(0);
    }

    fn censuses_read(&mut self, count: u64) {
        self.show(count);
    }

    fn ended(&mut self) {
        self.line.clear();
    }
}
