//! Stepping the marked blocks of a frame, in the order of their marks.
ghost use Rattle.std.specs.Prelude.{◌≡◌, ◌⊎◌, ℕ, ◌+◌, ◌-◌, ◌*◌, ◌^◌, ◌≤◌, ◌<◌, length, slice_index_or, IsTrue};
ghost use Rattle.life_core.specs.Rule.{RuleSets};
ghost use Rattle.life_core.specs.PackedBlocksState.{flat_next, IsOutside};
ghost use Rattle.life_core.specs.PackedMarksState.{KeepsMarks, IsMarked, IsStepped, IsAdvanced, block_at, mark_at};

use crate::packed::block_marks::{is_marked, mark_neighbours, next_mark};
use crate::packed::blocks::block_step;
use crate::packed::lane_rule::LaneRule;
use crate::packed::lanes::{left_half, right_half};
use crate::packed::wide_blocks::wide_step;

/// Steps the block in a line and a column, and marks the blocks that its changes reach.
#[inline(always)]
fn single_step<R: LaneRule<4>>(
    rule: &R,
    columns: usize,
    line: usize,
    column: usize,
    rows: &[u64],
    out: &mut [u64],
    next_marks: &mut [u64],
)
    requires column { column < columns }
    requires line { 1 ≤ line }
    requires rows { block_at columns (line + 2) 0 ≤ length rows.now }
    requires out { length out.old ≡ length rows.now }
    requires next_marks { mark_at columns (line + 2) 0 < 64 * length next_marks.old }
    ensures out { length out.new ≡ length out.old }
    ensures next_marks { KeepsMarks next_marks.old next_marks.new }
    ensures rest { (j : ℕ) → IsOutside 2 (block_at columns line column) (2 * columns) 16 j → slice_index_or out.new j 0 ≡ slice_index_or out.old j 0 }
    ensures block { (r : RuleSets) → R.is_of rule.now r → IsStepped (flat_next r rows.now (64 * (2 * columns))) columns line column out.old out.new next_marks.new }
{
    let changes = block_step(
        rule,
        rows,
        2 * columns,
        16 * line * (2 * columns) + 2 * column,
        out,
    );
    mark_neighbours(
        changes.all,
        changes.top,
        changes.bottom,
        columns,
        1 + line * columns + column,
        next_marks,
    );
}

/// Steps two neighbouring blocks of a line at once.
#[inline(always)]
fn pair_step<R: LaneRule<4>>(
    rule: &R,
    columns: usize,
    line: usize,
    column: usize,
    rows: &[u64],
    out: &mut [u64],
    next_marks: &mut [u64],
)
    requires column { column + 2 ≤ columns }
    requires line { 1 ≤ line }
    requires rows { block_at columns (line + 2) 0 ≤ length rows.now }
    requires out { length out.old ≡ length rows.now }
    requires next_marks { mark_at columns (line + 2) 0 < 64 * length next_marks.old }
    ensures out { length out.new ≡ length out.old }
    ensures next_marks { KeepsMarks next_marks.old next_marks.new }
    ensures rest { (j : ℕ) → IsOutside 4 (block_at columns line column) (2 * columns) 16 j → slice_index_or out.new j 0 ≡ slice_index_or out.old j 0 }
    ensures left { (r : RuleSets) → R.is_of rule.now r → IsStepped (flat_next r rows.now (64 * (2 * columns))) columns line column out.old out.new next_marks.new }
    ensures right { (r : RuleSets) → R.is_of rule.now r → IsStepped (flat_next r rows.now (64 * (2 * columns))) columns line (column + 1) out.old out.new next_marks.new }
{
    let b = 1 + line * columns + column;
    let changes = wide_step(
        rule,
        rows,
        2 * columns,
        16 * line * (2 * columns) + 2 * column,
        out,
    );
    mark_neighbours(
        left_half(changes.all),
        left_half(changes.top),
        left_half(changes.bottom),
        columns,
        b,
        next_marks,
    );
    mark_neighbours(
        right_half(changes.all),
        right_half(changes.top),
        right_half(changes.bottom),
        columns,
        b + 1,
        next_marks,
    );
}

/// Whether the right neighbour of the block in the column is marked.
#[inline(always)]
fn is_pair(columns: usize, line: usize, column: usize, marks: &[u64]) -> bool
    requires column { column < columns }
    requires marks { mark_at columns line columns < 64 * length marks.now }
    requires few { mark_at columns line columns < 2 ^ 63 }
    ensures { IsTrue result → column + 2 ≤ columns }
{
    column + 1 < columns && is_marked(marks, 1 + line * columns + column + 1)
}

/// Steps the block in a line and a column, together with its right neighbour if that is marked. Returns the next
/// column.
#[inline(always)]
fn columns_step<R: LaneRule<4>>(
    rule: &R,
    columns: usize,
    line: usize,
    column: usize,
    rows: &[u64],
    marks: &[u64],
    out: &mut [u64],
    next_marks: &mut [u64],
) -> usize
    requires column { column < columns }
    requires line { 1 ≤ line }
    requires rows { block_at columns (line + 2) 0 ≤ length rows.now }
    requires out { length out.old ≡ length rows.now }
    requires marks { mark_at columns line columns < 64 * length marks.now }
    requires next_marks { mark_at columns (line + 2) 0 < 64 * length next_marks.old }
    ensures result { (column < result) × (result ≤ columns) }
    ensures out { length out.new ≡ length out.old }
    ensures next_marks { KeepsMarks next_marks.old next_marks.new }
    ensures rest { (j : ℕ) → ((c : ℕ) → column ≤ c → c < result → IsOutside 2 (block_at columns line c) (2 * columns) 16 j) → slice_index_or out.new j 0 ≡ slice_index_or out.old j 0 }
    ensures blocks { (r : RuleSets) (c : ℕ) → R.is_of rule.now r → column ≤ c → c < result → IsStepped (flat_next r rows.now (64 * (2 * columns))) columns line c out.old out.new next_marks.new }
{
    if is_pair(columns, line, column, marks) {
        pair_step(rule, columns, line, column, rows, out, next_marks);
        return column + 2;
    }
    single_step(rule, columns, line, column, rows, out, next_marks);
    column + 1
}

/// The line of the block with mark `b`, which is `line` or a later one. It divides only if the line has changed.
#[inline(always)]
fn line_of(columns: usize, line: usize, b: usize) -> usize
    requires some { 1 ≤ columns }
    requires from { mark_at columns line 0 ≤ b }
    requires fits { mark_at columns (line + 1) 0 < 2 ^ 63 }
    ensures line { line ≤ result }
    ensures from { mark_at columns result 0 ≤ b }
    ensures to { b < mark_at columns (result + 1) 0 }
{
    if b < 1 + (line + 1) * columns {
        return line;
    }
    (b - 1) / columns
}

/// Steps the marked blocks. The first and the last line are margins: they are read but never written.
pub(crate) fn advance_blocks<R: LaneRule<4>>(
    rule: &R,
    columns: usize,
    lines: usize,
    rows: &[u64],
    marks: &[u64],
    out: &mut [u64],
    next_marks: &mut [u64],
)
    requires columns { 1 ≤ columns }
    requires lines { 3 ≤ lines }
    requires rows { length rows.now ≡ block_at columns lines 0 }
    requires out { length out.old ≡ length rows.now }
    requires marks { mark_at columns lines 0 < 64 * length marks.now }
    requires next_marks { mark_at columns lines 0 < 64 * length next_marks.old }
    ensures out { length out.new ≡ length out.old }
    ensures next_marks { KeepsMarks next_marks.old next_marks.new }
    ensures guards { (j : ℕ) → (j < block_at columns 1 0) ⊎ (block_at columns (lines - 1) 0 ≤ j) → slice_index_or out.new j 0 ≡ slice_index_or out.old j 0 }
    ensures blocks { (r : RuleSets) (line column : ℕ) → R.is_of rule.now r → 1 ≤ line → line + 2 ≤ lines → column < columns → IsAdvanced (flat_next r rows.now (64 * (2 * columns))) columns line column marks.now out.old out.new next_marks.new }
{
    let end = 1 + (lines - 1) * columns;
    let mut line = 1;
    let mut b = next_mark(marks, 1 + columns, end);
    while b < end {
        line = line_of(columns, line, b);
        let start = 1 + line * columns;
        let next = columns_step(rule, columns, line, b - start, rows, marks, out, next_marks);
        b = next_mark(marks, start + next, end);
    }
}
