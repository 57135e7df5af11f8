//! Checks that the tables of a database represent an archive. It reads the rows from the store and compares each with
//! the row that an archive writes. `run_check` prints the result.
#![tactic(auto)]

mod archive_check;
mod check_watch;
mod checked_censuses;
mod checked_deposits;
mod checked_files;
mod checked_rows;
mod listing;
mod report;
mod schemas;
mod walk;

pub use archive_check::{CheckVerdict, Wrong, check, check_trees, law_of_unique_tokens};
pub use check_watch::{CheckWatch, Unwatched};
pub use checked_files::{CheckedFiles, check_path};
pub use listing::further_errors;
pub use report::{CheckStop, run_check};
