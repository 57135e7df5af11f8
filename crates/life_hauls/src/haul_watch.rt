//! How a program learns of a haul's progress.

/// Receives the progress of a haul. It cannot affect the table.
pub trait HaulWatch {
    /// Called after each soup: `done` of `count` soups are counted.
    fn report(&mut self, done: u64, count: u64);

    /// Called once the job has ended, before anything is printed about it.
    fn ended(&mut self);
}

/// A watch that ignores the progress.
#[derive(Clone, Copy, Debug)]
pub struct Unwatched;

impl HaulWatch for Unwatched {
    fn report(&mut self, _done: u64, _count: u64) {}

    fn ended(&mut self) {}
}
