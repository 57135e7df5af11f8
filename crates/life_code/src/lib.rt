//! Kinds and codes of periodic patterns.
#![tactic(auto)]

mod apart;
mod cell_marks;
mod code_fault;
mod code_laws;
mod codes;
mod decode;
mod growing;
mod kinds;
mod object;
mod open;
mod part_frames;
mod period;
mod settled;
mod wechsler;

pub use code_fault::CodeFault;
pub use code_laws::laws_of_codes;
pub use kinds::Kind;
pub use object::{Coded, code, code_of_kind, same_object};
pub use open::open_code;
pub use period::{PERIOD_LIMIT, kind, kind_by};
pub use settled::settled_generation;
