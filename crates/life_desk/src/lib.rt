//! Requests to the archive, and their replies. HTTP is added by `life_pages`; storage comes from `life_store`.
#![tactic(auto)]

mod bytes;
mod counting;
mod desk;
mod headline;
mod lookups;
mod refusal;
mod request;
mod run_laws;
mod validation;

pub use bytes::Bytes;
pub use counting::tally_of_generation;
pub use desk::{answer, answer_all, answer_all_in_memory};
pub use headline::{
    law_of_durability, law_of_migrated_archives, law_of_new_archives, law_of_the_archive,
};
pub use refusal::{REFUSALS, Refusal, law_of_refusals};
pub use request::{Reply, Request, Shown};
pub use run_laws::laws_of_runs;
pub use validation::{check_census, check_deposit, check_total};
