//! One generation of blocks of two words and sixteen rows, two rows at a time: a vector holds two words of a row and
//! the two words below them.
ghost use Rattle.std.specs.Prelude.{◌≡◌, ℕ, ◌+◌, ◌-◌, ◌*◌, ◌≤◌, ◌<◌, List, length, slice_index_or};
ghost use Rattle.life_core.specs.PackedRow.{place};
ghost use Rattle.life_core.specs.Rule.{RuleSets};
ghost use Rattle.life_core.specs.PackedBlocksState.{flat_next, AreTwoRows, AreNextRows, IsOutside, IsBlock};

use crate::packed::lane_rule::LaneRule;
use crate::packed::lanes::{joined, lanes_at, left_half, right_half};
use crate::packed::row_kernel::{WideSums, put_lanes, sums_of};
use std::simd::prelude::*;

/// The two words from `k` on, and the two below them.
#[inline(always)]
fn two_rows(rows: &[u64], words: usize, k: usize) -> u64x4
    requires { k + words + 2 ≤ length rows.now }
    ensures upper { (j : ℕ) → j < 2 → slice_index_or result j 0 ≡ slice_index_or rows.now (k + j) 0 }
    ensures lower { (j : ℕ) → j < 2 → slice_index_or result (2 + j) 0 ≡ slice_index_or rows.now (k + words + j) 0 }
{
    joined(lanes_at(rows, k), lanes_at(rows, k + words))
}

/// The left neighbours of the places of [`two_rows`].
#[inline(always)]
fn two_rows_from_left(rows: &[u64], words: usize, k: usize) -> u64x4
    requires first { 1 ≤ k }
    requires last { k + words + 2 ≤ length rows.now }
    ensures upper { (p : ℕ) → p < 128 → place result p ≡ place rows.now (64 * k + p - 1) }
    ensures lower { (p : ℕ) → p < 128 → place result (128 + p) ≡ place rows.now (64 * (k + words) + p - 1) }
{
    (two_rows(rows, words, k) << 1) | (two_rows(rows, words, k - 1) >> 63)
}

/// The right neighbours of the places of [`two_rows`].
#[inline(always)]
fn two_rows_from_right(rows: &[u64], words: usize, k: usize) -> u64x4
    requires { k + words + 3 ≤ length rows.now }
    ensures upper { (p : ℕ) → p < 128 → place result p ≡ place rows.now (64 * k + p + 1) }
    ensures lower { (p : ℕ) → p < 128 → place result (128 + p) ≡ place rows.now (64 * (k + words) + p + 1) }
{
    (two_rows(rows, words, k) >> 1) | (two_rows(rows, words, k + 1) << 63)
}

/// The sums of the two words from `k` on, and of the two below them.
#[inline(always)]
fn two_sums(rows: &[u64], words: usize, k: usize) -> WideSums
    requires first { 1 ≤ k }
    requires last { k + words + 3 ≤ length rows.now }
    ensures { AreTwoRows rows.now words k result }
{
    sums_of(
        two_rows_from_left(rows, words, k),
        two_rows(rows, words, k),
        two_rows_from_right(rows, words, k),
    )
}

/// The lower row of `upper` and the upper row of `lower`.
#[inline(always)]
fn between(upper: u64x4, lower: u64x4) -> u64x4
    ensures first { (p : ℕ) → p < 128 → place result p ≡ place upper (128 + p) }
    ensures second { (p : ℕ) → p < 128 → place result (128 + p) ≡ place lower p }
{
    joined(right_half(upper), left_half(lower))
}

/// The next generation of two rows. `above` has the sums of the row above them and of the first row, `below` has the
/// sums of the second row and of the row below them.
#[inline(always)]
fn next_rows<R: LaneRule<4>>(rule: &R, above: WideSums, below: WideSums) -> u64x4
    ensures { (r : RuleSets) (rows : List ℕ) (words k : ℕ) → R.is_of rule.now r → words + 1 ≤ k → AreTwoRows rows words (k - words) above → AreTwoRows rows words (k + words) below → AreNextRows (flat_next r rows (64 * words)) words k result }
{
    rule.next_lanes(
        between(above.here, below.here),
        above.all,
        above.all2,
        between(above.sides, below.sides),
        between(above.sides2, below.sides2),
        below.all,
        below.all2,
    )
}

/// A bit for each of a block's 128 columns: whether it changed in any row, in the first row, in the last row.
#[derive(Clone, Copy)]
pub(crate) struct Changes {
    pub(crate) all: u64x2,
    pub(crate) top: u64x2,
    pub(crate) bottom: u64x2,
}

/// Writes the next generation of the block whose first word is at `at`.
pub(crate) fn block_step<R: LaneRule<4>>(
    rule: &R,
    rows: &[u64],
    words: usize,
    at: usize,
    out: &mut [u64],
) -> Changes
    requires wide { 2 ≤ words }
    requires first { words + 1 ≤ at }
    requires last { at + 16 * words + 3 ≤ length rows.now }
    requires out { length out.old ≡ length rows.now }
    ensures long { length out.new ≡ length out.old }
    ensures rest { (j : ℕ) → IsOutside 2 at words 16 j → slice_index_or out.new j 0 ≡ slice_index_or out.old j 0 }
    ensures block { (r : RuleSets) → R.is_of rule.now r → IsBlock (flat_next r rows.now (64 * words)) at words out.old out.new result }
{
    let before = two_sums(rows, words, at - words);
    let mut above = two_sums(rows, words, at + words);
    let next = next_rows(rule, before, above);
    let top = put_lanes(out, at, left_half(next));
    let mut bottom = put_lanes(out, at + words, right_half(next));
    let mut all = top | bottom;
    let mut k = at + 2 * words;
    for _i in 1..8_usize {
        let below = two_sums(rows, words, k + words);
        let next = next_rows(rule, above, below);
        let upper = put_lanes(out, k, left_half(next));
        bottom = put_lanes(out, k + words, right_half(next));
        all = (all | upper) | bottom;
        above = below;
        k += 2 * words;
    }
    Changes { all, top, bottom }
}
