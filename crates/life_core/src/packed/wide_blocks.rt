//! One generation of two neighbouring blocks at once: sixteen rows, each a vector of four words.
ghost use Rattle.std.specs.Prelude.{◌≡◌, ℕ, ◌+◌, ◌*◌, ◌≤◌, ◌<◌, length, slice_index_or};
ghost use Rattle.life_core.specs.PackedRow.{place};
ghost use Rattle.life_core.specs.Rule.{RuleSets};
ghost use Rattle.life_core.specs.PackedBlocksState.{flat_next, AreWideSums, IsOutside, IsWideBlock};

use crate::packed::lane_rule::LaneRule;
use crate::packed::lanes::{lanes_at, lanes_from_left, lanes_from_right};
use crate::packed::row_kernel::{WideSums, sums_of, wide_row};
use std::simd::prelude::*;

/// The sums of the four words from `k` on.
#[inline(always)]
pub(crate) fn wide_sums(rows: &[u64], k: usize) -> WideSums
    requires first { 1 ≤ k }
    requires last { k + 5 ≤ length rows.now }
    ensures { AreWideSums rows.now k result }
{
    sums_of(
        lanes_from_left(rows, k),
        lanes_at(rows, k),
        lanes_from_right(rows, k),
    )
}

/// A bit for each of the 256 columns of two blocks: whether it changed in any row, in the first row, in the last row.
#[derive(Clone, Copy)]
pub(crate) struct WideChanges {
    pub(crate) all: u64x4,
    pub(crate) top: u64x4,
    pub(crate) bottom: u64x4,
}

/// Writes the next generation of the two blocks whose first word has the index `at`.
pub(crate) fn wide_step<R: LaneRule<4>>(
    rule: &R,
    rows: &[u64],
    words: usize,
    at: usize,
    out: &mut [u64],
) -> WideChanges
    requires wide { 4 ≤ words }
    requires first { words + 1 ≤ at }
    requires last { at + 16 * words + 5 ≤ length rows.now }
    requires out { length out.old ≡ length rows.now }
    ensures long { length out.new ≡ length out.old }
    ensures rest { (j : ℕ) → IsOutside 4 at words 16 j → slice_index_or out.new j 0 ≡ slice_index_or out.old j 0 }
    ensures block { (r : RuleSets) → R.is_of rule.now r → IsWideBlock (flat_next r rows.now (64 * words)) at words out.old out.new result }
{
    let before = wide_sums(rows, at - words);
    let first = wide_sums(rows, at);
    let second = wide_sums(rows, at + words);
    let top = wide_row(rule, before, first, second, out, at);
    let mut above = first;
    let mut here = second;
    let mut all = top;
    let mut k = at + words;
    for _i in 1..15_usize {
        let below = wide_sums(rows, k + words);
        let changed = wide_row(rule, above, here, below, out, k);
        all |= changed;
        above = here;
        here = below;
        k += words;
    }
    let after = wide_sums(rows, k + words);
    let bottom = wide_row(rule, above, here, after, out, k);
    WideChanges {
        all: all | bottom,
        top,
        bottom,
    }
}
