//! The clusters of a pattern, their counts by code, and whether they ever meet.
#![tactic(auto)]

mod census_laws;
mod census_table;
mod cluster;
mod code_cache;
mod code_text;
mod flood;
mod meeting;
mod survey;
mod tally_rows;
mod tallying;

pub use census_laws::{laws_of_clusters, laws_of_steady_fields, laws_of_tallies};
pub use census_table::csv;
pub use cluster::clusters;
pub use code_cache::CodeCache;
pub use code_text::{CodeText, is_code_text};
pub use meeting::{steady, tally_and_steady};
pub use tally_rows::{Row, Rows, Tally};
pub use tallying::tally;
