//! Reporting the progress of a check.

/// Receives the progress of a check, for a display. The result of the check doesn't depend on it.
pub trait CheckWatch {
    /// Called when this many rows of deposits are read.
    fn deposits_read(&mut self, count: u64);

    /// Called when this many censuses are read, with their rows and their flags.
    fn censuses_read(&mut self, count: u64);

    /// Called once, after the last row.
    fn ended(&mut self);
}

/// Ignores the progress.
#[derive(Clone, Copy, Debug)]
pub struct Unwatched;

impl CheckWatch for Unwatched {
    fn deposits_read(&mut self, _count: u64) {}

    fn censuses_read(&mut self, _count: u64) {}

    fn ended(&mut self) {}
}
