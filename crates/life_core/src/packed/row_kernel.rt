//! The next generation of a row's words. The sums of each row are computed once, and serve that row and the rows above
//! and below it.
ghost use Rattle.std.specs.Prelude.{◌≡◌, ◌⊎◌, ℕ, ◌+◌, ◌-◌, ◌*◌, ◌≤◌, ◌<◌, List, length, nat_eq, slice_index_or};
ghost use Rattle.life_core.specs.PackedRow.{place, one_if};
ghost use Rattle.life_core.specs.Rule.{RuleSets, lives_at};
ghost use Rattle.life_core.specs.PackedLanesState.{sum_at};
ghost use Rattle.life_core.specs.PackedBlocksState.{flat_next, AreSumsOf, AreWideSums, IsRowStep};

use crate::packed::lane_rule::LaneRule;
use crate::packed::lanes::{carry, lanes_at, odd};
use std::simd::prelude::*;

/// Writes the `N` words from `k` on. The result has a bit for each cell that changed.
#[inline(always)]
pub(crate) fn put_lanes<const N: usize>(
    out: &mut [u64],
    k: usize,
    new: Simd<u64, N>,
) -> Simd<u64, N>
    requires { k + N ≤ length out.old }
    ensures long { length out.new ≡ length out.old }
    ensures rest { (j : ℕ) → (j < k) ⊎ (k + N ≤ j) → slice_index_or out.new j 0 ≡ slice_index_or out.old j 0 }
    ensures put { (p : ℕ) → p < 64 * N → place out.new (64 * k + p) ≡ place new.entry p }
    ensures same { (p : ℕ) → p < 64 * N → place result p ≡ 0 → place out.new (64 * k + p) ≡ place out.old (64 * k + p) }
{
    let old = lanes_at(out, k);
    new.copy_to_slice(&mut out[k..]);
    old ^ new
}

/// Four words, of a row or of two. For each cell, `sides` counts its two neighbours in the row, and `all` counts the
/// cell itself as well. `sides2` and `all2` are the upper binary digits.
#[derive(Clone, Copy)]
pub(crate) struct WideSums {
    pub(crate) here: u64x4,
    pub(crate) sides: u64x4,
    pub(crate) sides2: u64x4,
    pub(crate) all: u64x4,
    pub(crate) all2: u64x4,
}

/// The sums of four words, given the words of their left and right neighbours.
#[inline(always)]
pub(crate) fn sums_of(left: u64x4, here: u64x4, right: u64x4) -> WideSums
    ensures { AreSumsOf left here right result }
{
    WideSums {
        here,
        sides: left ^ right,
        sides2: left & right,
        all: odd(left, right, here),
        all2: carry(left, right, here),
    }
}

/// Writes the next generation of the four words from `k` on, from the sums of the rows above, here and
/// below. The result has a bit for each cell that changed.
#[inline(always)]
pub(crate) fn wide_row<R: LaneRule<4>>(
    rule: &R,
    above: WideSums,
    here: WideSums,
    below: WideSums,
    out: &mut [u64],
    k: usize,
) -> u64x4
    requires { k + 4 ≤ length out.old }
    ensures long { length out.new ≡ length out.old }
    ensures rest { (j : ℕ) → (j < k) ⊎ (k + 4 ≤ j) → slice_index_or out.new j 0 ≡ slice_index_or out.old j 0 }
    ensures next { (r : RuleSets) (p : ℕ) → R.is_of rule.now r → p < 256 → sum_at above.all above.all2 here.sides here.sides2 below.all below.all2 p < 9 → place out.new (64 * k + p) ≡ one_if (lives_at r (nat_eq (place here.here p) 1) (sum_at above.all above.all2 here.sides here.sides2 below.all below.all2 p)) }
    ensures row { (r : RuleSets) (rows : List ℕ) (words : ℕ) → R.is_of rule.now r → words + 1 ≤ k → AreWideSums rows (k - words) above → AreWideSums rows k here → AreWideSums rows (k + words) below → IsRowStep 4 (flat_next r rows (64 * words)) k out.old out.new result }
{
    let new = rule.next_lanes(
        here.here,
        above.all,
        above.all2,
        here.sides,
        here.sides2,
        below.all,
        below.all2,
    );
    put_lanes(out, k, new)
}
