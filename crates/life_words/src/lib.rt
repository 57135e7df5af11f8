//! The arguments of `life`, read by `clap`; what the commands of all programs share; and the explanations of refusals.
#![tactic(auto)]

mod commands;
mod explain;
mod life_arguments;
mod word_fault;

pub use commands::{
    VERSION, generation_arg, limit_arg, named_command, number_arg, program_command, read_matches,
    text_arg, with_arg, with_command, words_of,
};
pub use explain::{explanation, refusal_names};
pub use life_arguments::{Job, life_command, number_in, read_words, text_in};
pub use word_fault::WordFault;
