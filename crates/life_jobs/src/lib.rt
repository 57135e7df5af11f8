//! The jobs of `life` that need no archive, on any streams, and why they stop.
#![tactic(auto)]

mod pattern_jobs;
mod stop;
mod streams;

pub use pattern_jobs::{run_census, run_generation, run_kind, run_object};
pub use stop::Stop;
pub use streams::{put_text, read_input};
