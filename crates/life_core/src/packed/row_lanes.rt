//! The two parts of `row_step`: groups of four words by `row_kernel`, then the remaining words one by one.
ghost use Rattle.std.specs.Prelude.{◌≡◌, ◌⊎◌, ℕ, ◌+◌, ◌-◌, ◌*◌, ◌/◌, ◌<◌, ◌≤◌, length, nat_lt, slice_index_or, if◌then◌else◌};
ghost use Rattle.std.specs.Int.{bit_at};
ghost use Rattle.life_core.specs.PackedRow.{place, place_before, next_place};
ghost use Rattle.life_core.specs.PackedRowState.{AreStepped, AreGroupSums};
ghost use Rattle.life_core.specs.PackedLanesState.{digits_at};
ghost use Rattle.life_core.specs.Rule.{RuleSets};

use crate::packed::lane_rule::LaneRule;
use crate::packed::lanes::{carry, lanes_at, odd};
use crate::packed::row::{from_left, from_right};
use crate::packed::row_kernel::{WideSums, put_lanes, sums_of, wide_row};
use std::simd::prelude::*;

/// Writes the groups of four words, from the beginning of the row.
pub(crate) fn step_groups<R: LaneRule<4>>(
    rule: &R,
    above: &[u64],
    here: &[u64],
    below: &[u64],
    out: &mut [u64],
)
    requires above { length above.now ≡ length out.old }
    requires here { length here.now ≡ length out.old }
    requires below { length below.now ≡ length out.old }
    ensures { (r : RuleSets) → R.is_of rule.now r → AreStepped (next_place r above.now here.now below.now) 0 (4 * (length out.old / 4)) out.old out.new }
{
    for group in 0..out.len() / 4 {
        let k = 4 * group;
        let sums_above = group_sums(above, k);
        let sums_here = group_sums(here, k);
        let sums_below = group_sums(below, k);
        let _changed = wide_row(rule, sums_above, sums_here, sums_below, out, k);
    }
}

/// The sums of the four words from `k` on, with dead cells outside the row.
#[inline(always)]
fn group_sums(words: &[u64], k: usize) -> WideSums
    requires { k + 4 ≤ length words.now }
    ensures { AreGroupSums words.now k result }
{
    sums_of(
        group_from_left(words, k),
        lanes_at(words, k),
        group_from_right(words, k),
    )
}

/// Writes the words after the last group of four.
pub(crate) fn step_rest<R: LaneRule<1>>(
    rule: &R,
    above: &[u64],
    here: &[u64],
    below: &[u64],
    out: &mut [u64],
)
    requires above { length above.now ≡ length out.old }
    requires here { length here.now ≡ length out.old }
    requires below { length below.now ≡ length out.old }
    ensures { (r : RuleSets) → R.is_of rule.now r → AreStepped (next_place r above.now here.now below.now) (4 * (length out.old / 4)) (length out.old) out.old out.new }
{
    for j in 4 * (out.len() / 4)..out.len() {
        step_word(rule, above, here, below, out, j);
    }
}

/// Writes the word at `j`, one generation later.
#[inline(always)]
fn step_word<R: LaneRule<1>>(
    rule: &R,
    above: &[u64],
    here: &[u64],
    below: &[u64],
    out: &mut [u64],
    j: usize,
)
    requires above { length above.now ≡ length out.old }
    requires here { length here.now ≡ length out.old }
    requires below { length below.now ≡ length out.old }
    requires inside { j < length out.old }
    ensures long { length out.new ≡ length out.old }
    ensures rest { (m : ℕ) → (m < j) ⊎ (j + 1 ≤ m) → slice_index_or out.new m 0 ≡ slice_index_or out.old m 0 }
    ensures next { (r : RuleSets) (i : ℕ) → R.is_of rule.now r → i < 64 → place out.new (64 * j + i) ≡ next_place r above.now here.now below.now (64 * j + i) }
{
    let middle = lane(here[j]);
    let left = lane(from_left(here, j));
    let right = lane(from_right(here, j));
    let (up, up2) = word_sums(above, j);
    let (down, down2) = word_sums(below, j);
    let new = rule.next_lanes(middle, up, up2, left ^ right, left & right, down, down2);
    let _changed = put_lanes(out, j, new);
}

/// For each cell of the word at `j`, the digits of how many of it and its two neighbours in the row are live.
#[inline(always)]
fn word_sums(words: &[u64], j: usize) -> (Simd<u64, 1>, Simd<u64, 1>)
    requires { j < length words.now }
    ensures { (i : ℕ) → i < 64 → digits_at result.0 result.1 i ≡ place_before words.now (64 * j + i) + (place words.now (64 * j + i) + place words.now (64 * j + i + 1)) }
{
    let left = lane(from_left(words, j));
    let here = lane(words[j]);
    let right = lane(from_right(words, j));
    (odd(left, here, right), carry(left, here, right))
}

/// A word as a vector of one word.
#[inline(always)]
fn lane(word: u64) -> Simd<u64, 1>
    ensures { slice_index_or result 0 0 ≡ word }
{
    Simd::splat(word)
}

/// The left neighbours of the places of the four words from `k` on. The place before the row is dead.
#[inline(always)]
fn group_from_left(words: &[u64], k: usize) -> u64x4
    requires { k + 4 ≤ length words.now }
    ensures { (p : ℕ) → p < 256 → place result p ≡ place_before words.now (64 * k + p) }
{
    let here: u64x4 = lanes_at(words, k);
    (here << 1) | (words_before(words, k) >> 63)
}

/// The right neighbours of the places of the four words from `k` on. The place after the row is dead.
#[inline(always)]
fn group_from_right(words: &[u64], k: usize) -> u64x4
    requires { k + 4 ≤ length words.now }
    ensures { (p : ℕ) → p < 256 → place result p ≡ place words.now (64 * k + p + 1) }
{
    let here: u64x4 = lanes_at(words, k);
    (here >> 1) | (words_after(words, k) << 63)
}

/// The words before each of the four from `k` on, or 0 before the row.
#[inline(always)]
fn words_before(words: &[u64], k: usize) -> u64x4
    requires { k + 4 ≤ length words.now }
    ensures { (j : ℕ) → j < 4 → slice_index_or result j 0 ≡ (if nat_lt 0 (k + j) then slice_index_or words.now (k + j - 1) 0 else 0) }
{
    if k == 0 {
        return Simd::from_array([0, words[0], words[1], words[2]]);
    }
    lanes_at(words, k - 1)
}

/// The words after each of the four from `k` on, or 0 after the row.
#[inline(always)]
fn words_after(words: &[u64], k: usize) -> u64x4
    requires { k + 4 ≤ length words.now }
    ensures { (j : ℕ) → j < 4 → slice_index_or result j 0 ≡ slice_index_or words.now (k + 1 + j) 0 }
{
    if k + 4 < words.len() {
        lanes_at(words, k + 1)
    } else {
        Simd::from_array([words[k + 1], words[k + 2], words[k + 3], 0])
    }
}
