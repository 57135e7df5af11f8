//! Tests of patterns, jobs, pictures and hauls. The public modules are helpers that `archive_tests` shares: an
//! allocator that fails, calls whose allocations fail in turn, jobs on streams that fail at a call, and command lines.
#![tactic(auto)]

pub mod allocations;
pub mod arguments;
#[cfg(test)]
mod draw_command_lines;
#[cfg(test)]
mod drawing;
#[cfg(test)]
mod drawing_allocations;
#[cfg(test)]
mod failures;
#[cfg(test)]
mod fields;
#[cfg(test)]
mod file_tests;
#[cfg(test)]
mod haul_command_lines;
#[cfg(test)]
mod haul_tests;
#[cfg(test)]
mod job_runs;
pub mod job_streams;
#[cfg(test)]
mod kind_tests;
#[cfg(test)]
mod life_command_lines;
#[cfg(test)]
mod planes;
pub mod refusing;
#[cfg(test)]
mod row_tests;
#[cfg(test)]
mod rules;
#[cfg(test)]
mod settled_tests;
