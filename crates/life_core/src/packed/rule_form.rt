//! Rules as algebraic normal forms: the XOR of ANDs of a count's binary digits, evaluated on several words at once.
ghost use Rattle.std.specs.Prelude.{◌≡◌, ℕ, ◌+◌, ◌*◌, ◌%◌, ◌≤◌, ◌<◌, length, min, nat_eq, slice_index_or, if◌then◌else◌};
ghost use Rattle.std.specs.Int.{bit_at};
ghost use Rattle.life_core.specs.PackedRow.{place, one_if};
ghost use Rattle.life_core.specs.Rule.{RuleSets};
ghost use Rattle.life_core.specs.PackedLanesState.{AreNextLanes};
ghost use Rattle.life_core.specs.PackedRuleFormState.{toggled_bit, part_bit, form_bit, AreParts, IsForm};

use crate::packed::lane_rule::{Evolves, LaneRule};
use crate::packed::lanes::{carry, odd};
use crate::rule::Rule;
use std::simd::prelude::*;

/// A rule as words that have all bits set or none. For `n` below 8, word `n` of `parts` toggles the
/// places whose count has all the digits of `n`; word 8 toggles those whose count is eight. The words
/// of `parts_here` do the same for live places only.
#[derive(Clone, Copy)]
pub(crate) struct RuleForm {
    pub(crate) parts: [u64; 9],
    pub(crate) parts_here: [u64; 9],
}

impl RuleForm {
    /// The form of a rule.
    pub(crate) fn of(rule: &Rule) -> RuleForm
        ensures { IsForm rule.now result }
    {
        let (birth, survival) = rule.flags();
        let parts = parts_of(birth);
        let parts_here = toggles(&parts, &parts_of(survival));
        RuleForm { parts, parts_here }
    }
}

/// The words that toggle each of nine words into another.
fn toggles(from: &[u64; 9], to: &[u64; 9]) -> [u64; 9]
    ensures { (n i : ℕ) → n < 9 → bit_at (slice_index_or result n 0) i ≡ (bit_at (slice_index_or from.now n 0) i + bit_at (slice_index_or to.now n 0) i) % 2 }
{
    let mut toggles = *from;
    for n in 0..9_usize {
        toggles[n] = from[n] ^ to[n];
    }
    toggles
}

/// The `parts` of the form whose value at each count is the flag of that count.
fn parts_of(flags: &[bool; 9]) -> [u64; 9]
    ensures { AreParts flags.now result }
{
    let low = parts_of_four(flags[0], flags[1], flags[2], flags[3]);
    let high = parts_of_four(flags[4], flags[5], flags[6], flags[7]);
    [
        low[0],
        low[1],
        low[2],
        low[3],
        low[0] ^ high[0],
        low[1] ^ high[1],
        low[2] ^ high[2],
        low[3] ^ high[3],
        low[0] ^ mask(flags[8]),
    ]
}

/// The coefficients for four flags, by two binary digits.
fn parts_of_four(zero: bool, one: bool, two: bool, three: bool) -> [u64; 4]
    ensures { (i o t : ℕ) → i < 64 → o < 2 → t < 2 → toggled_bit (toggled_bit (bit_at (slice_index_or result 0 0) i) o (bit_at (slice_index_or result 1 0) i)) t (toggled_bit (bit_at (slice_index_or result 2 0) i) o (bit_at (slice_index_or result 3 0) i)) ≡ (if nat_eq t 1 then (if nat_eq o 1 then one_if three else one_if two) else (if nat_eq o 1 then one_if one else one_if zero)) }
{
    let low = parts_of_two(zero, one);
    let high = parts_of_two(two, three);
    [low[0], low[1], low[0] ^ high[0], low[1] ^ high[1]]
}

/// The coefficients for two flags, by one binary digit.
fn parts_of_two(zero: bool, one: bool) -> [u64; 2]
    ensures { (i o : ℕ) → i < 64 → o < 2 → toggled_bit (bit_at (slice_index_or result 0 0) i) o (bit_at (slice_index_or result 1 0) i) ≡ (if nat_eq o 1 then one_if one else one_if zero) }
{
    let zero = mask(zero);
    [zero, zero ^ mask(one)]
}

/// All bits, or none.
pub(crate) fn mask(flag: bool) -> u64
    ensures { (i : ℕ) → i < 64 → bit_at result i ≡ one_if flag }
{
    if flag { u64::MAX } else { 0 }
}

/// The places of `x`, toggled by those of `y` if `s` is set.
#[inline(always)]
fn toggled<const N: usize>(x: Simd<u64, N>, s: Simd<u64, N>, y: Simd<u64, N>) -> Simd<u64, N>
    ensures { (p : ℕ) → place result p ≡ toggled_bit (place x.entry p) (place s.entry p) (place y.entry p) }
{
    x ^ (s & y)
}

/// A word in each lane.
#[inline(always)]
fn spread<const N: usize>(word: u64) -> Simd<u64, N>
    ensures { (p : ℕ) → p < 64 * N → place result p ≡ bit_at word (p % 64) }
{
    Simd::splat(word)
}

/// Coefficient `n` of the form at each place: the part for all places, toggled at live ones by the part for those.
#[inline(always)]
fn coefficient<const N: usize>(rule: &RuleForm, here: Simd<u64, N>, n: usize) -> Simd<u64, N>
    requires { n < 9 }
    ensures { (p : ℕ) → p < 64 * N → place result p ≡ part_bit rule.now (p % 64) (place here.entry p) n }
{
    toggled(spread(rule.parts[n]), here, spread(rule.parts_here[n]))
}

/// The places where both are set.
#[inline(always)]
fn and_bits<const N: usize>(a: Simd<u64, N>, b: Simd<u64, N>) -> Simd<u64, N>
    ensures { (p : ℕ) → place result p ≡ min (place a.entry p) (place b.entry p) }
{
    a & b
}

/// The places where exactly one of two is set.
#[inline(always)]
fn xor_bits<const N: usize>(a: Simd<u64, N>, b: Simd<u64, N>) -> Simd<u64, N>
    ensures { (p : ℕ) → place result p ≡ (place a.entry p + place b.entry p) % 2 }
{
    a ^ b
}

/// The value of the form at the three lower digits of the counts.
#[inline(always)]
fn eval_form<const N: usize>(
    rule: &RuleForm,
    here: Simd<u64, N>,
    ones: Simd<u64, N>,
    twos: Simd<u64, N>,
    fours: Simd<u64, N>,
) -> Simd<u64, N>
    ensures { (p : ℕ) → p < 64 * N → place result p ≡ form_bit (part_bit rule.now (p % 64) (place here.entry p)) (place ones.entry p) (place twos.entry p) (place fours.entry p) }
{
    let zero = toggled(coefficient(rule, here, 0), ones, coefficient(rule, here, 1));
    let two = toggled(coefficient(rule, here, 2), ones, coefficient(rule, here, 3));
    let four = toggled(coefficient(rule, here, 4), ones, coefficient(rule, here, 5));
    let six = toggled(coefficient(rule, here, 6), ones, coefficient(rule, here, 7));
    toggled(toggled(zero, twos, two), fours, toggled(four, twos, six))
}

impl Evolves for RuleForm {
    ghost is_of = { λ m r. IsForm r m };
}

impl<const N: usize> LaneRule<N> for RuleForm {
    #[inline(always)]
    fn next_lanes(
        &self,
        here: Simd<u64, N>,
        above: Simd<u64, N>,
        above2: Simd<u64, N>,
        sides: Simd<u64, N>,
        sides2: Simd<u64, N>,
        below: Simd<u64, N>,
        below2: Simd<u64, N>,
    ) -> Simd<u64, N>
        ensures { (r : RuleSets) → IsForm r self.now → AreNextLanes r N here.entry above.entry above2.entry sides.entry sides2.entry below.entry below2.entry result }
    {
        let ones = odd(above, sides, below);
        let more = carry(above, sides, below);
        let some = odd(above2, sides2, below2);
        let high = carry(above2, sides2, below2);
        let twos = xor_bits(some, more);
        let rest = and_bits(some, more);
        let fours = xor_bits(high, rest);
        let eights = and_bits(high, rest);
        toggled(
            eval_form(self, here, ones, twos, fours),
            eights,
            coefficient(self, here, 8),
        )
    }
}
