//! Hauls: the clusters of many random fields, counted by code. A text and a number determine each field.
#![tactic(auto)]

mod haul_arguments;
mod haul_jobs;
mod haul_laws;
mod haul_program;
mod haul_rows;
mod haul_table;
mod haul_watch;
mod hauls;
mod soup_counting;
mod soups;
mod symmetry;

pub use haul_arguments::{HaulJob, haul_command, read_haul_words};
pub use haul_jobs::{COUNT_LIMIT, FIRST_LIMIT, HaulWords, SoupWords, run_haul, run_soup};
pub use haul_laws::{laws_of_hauls, laws_of_limits, laws_of_soups};
pub use haul_program::{run_program, run_words};
pub use haul_rows::{Haul, HaulRow, Occurrences};
pub use haul_table::csv;
pub use haul_watch::{HaulWatch, Unwatched};
pub use hauls::{HaulQuestion, haul};
pub use soups::soup;
pub use symmetry::{Mirror, Symmetry};
