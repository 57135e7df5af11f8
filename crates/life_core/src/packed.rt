//! Sets of cells as rows of packed words: a bit for each cell of a box.
mod block_lines;
mod block_marks;
mod blocks;
mod frame;
mod lane_rule;
mod lanes;
mod margins;
pub mod packed_rows;
mod packing;
pub mod row;
mod row_kernel;
mod row_lanes;
mod rule_form;
mod shifts;
mod trimming;
mod wide_blocks;
