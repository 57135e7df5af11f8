//! Pictures of patterns: lines of half blocks, and SVG documents.
#![tactic(auto)]

mod corners;
mod document;
mod draw_arguments;
mod draw_job;
mod draw_program;
mod extent;
mod numbers;
mod picture_frames;
mod picture_laws;
mod picture_lines;
mod picture_runs;
mod title;

pub use document::svg;
pub use draw_arguments::{draw_command, read_draw_words};
pub use draw_job::{Picture, run_draw};
pub use draw_program::{run_program, run_words};
pub use picture_frames::{MOST_FRAMES, animation};
pub use picture_laws::laws_of_pictures;
pub use picture_lines::text;
