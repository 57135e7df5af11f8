//! The archive: deposits and censuses, kept in the tables of a database.
//!
//! Crates above this one know neither rows nor SQL. Each call is one act on a list of deposits and a list of censuses,
//! which the rows of the tables represent (`specs/Tables.antt`).
#![tactic(auto)]

mod archive;
mod archive_laws;
mod censuses;
mod creating;
mod deposits;
mod executing;
mod flags;
mod kept;
mod log_path;
mod migration;
mod opening;
mod reading;
mod store_fault;
mod unprepared;

pub use archive::Archive;
pub use archive_laws::laws_of_archives;
pub use kept::{Census, Deposit, KeptCensus, Listed, Listing};
pub use store_fault::{OpenFault, Unavailable};
pub use unprepared::MadeLog;
