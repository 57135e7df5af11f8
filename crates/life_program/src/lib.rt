//! Shared by the programs: the line printed if a job stops, the exit status, and a line of progress. For programs with
//! the arguments of `life`, it also runs the job.
#![tactic(auto)]

mod explain_job;
mod job;
mod printing;
mod program;
mod progress_line;
mod usage_hint;

pub use explain_job::run_explain;
pub use job::{ArchiveJobs, do_job};
pub use printing::{print_fault, print_stop};
pub use program::{run_program, run_words};
pub use progress_line::ProgressLine;
pub use usage_hint::print_fault_of;
