//! Rules, finite sets of cells, and their generations.
#![tactic(auto)]

pub mod cell;
pub mod cell_list;
mod constant_laws;
pub mod core_fault;
pub mod generations;
pub mod orientation;
pub mod packed;
pub mod pattern;
pub mod plane;
pub mod rule;
pub mod rule_text;
mod runs;
mod sorted;

pub use cell::{Cell, PLANE};
pub use cell_list::CellList;
pub use constant_laws::{law_of_life, laws_of_constants};
pub use core_fault::Fault;
pub use generations::{
    GENERATION_LIMIT, PACKED_LIMIT, generation, generation_by, is_packed, laws_of_generations,
};
pub use orientation::{Orientation, laws_of_symmetries};
pub use packed::packed_rows::PackedRows;
pub use packed::row::{laws_of_row_steps, row_step};
pub use pattern::{Bounds, Pattern, laws_of_patterns};
pub use plane::Plane;
pub use rule::Rule;
pub use rule_text::{RuleFault, laws_of_rule_texts};
pub use runs::{Run, Runs, first_from, list_run, list_runs};
