//! Operations on several words of a row at once.
ghost use Rattle.std.specs.Prelude.{◌≡◌, ℕ, ◌+◌, ◌-◌, ◌*◌, ◌/◌, ◌%◌, ◌≤◌, ◌<◌, length, slice_index_or};
ghost use Rattle.life_core.specs.PackedRow.{place};

use std::simd::prelude::*;

/// The lower digit of the sums of three bits at each place.
#[inline(always)]
pub(crate) fn odd<const N: usize>(a: Simd<u64, N>, b: Simd<u64, N>, c: Simd<u64, N>) -> Simd<u64, N>
    ensures { (p : ℕ) → place result p ≡ (place a.entry p + (place b.entry p + place c.entry p)) % 2 }
{
    a ^ b ^ c
}

/// The upper digit of the sums of three bits at each place.
#[inline(always)]
pub(crate) fn carry<const N: usize>(
    a: Simd<u64, N>,
    b: Simd<u64, N>,
    c: Simd<u64, N>,
) -> Simd<u64, N>
    ensures { (p : ℕ) → place result p ≡ (place a.entry p + (place b.entry p + place c.entry p)) / 2 }
{
    (a & b) | ((a ^ b) & c)
}

/// The words from `k` on.
#[inline(always)]
pub(crate) fn lanes_at<const N: usize>(words: &[u64], k: usize) -> Simd<u64, N>
    requires { k + N ≤ length words.now }
    ensures { (j : ℕ) → j < N → slice_index_or result j 0 ≡ slice_index_or words.now (k + j) 0 }
{
    Simd::from_slice(&words[k..])
}

/// The left neighbours of the places of the words from `k` on.
#[inline(always)]
pub(crate) fn lanes_from_left<const N: usize>(words: &[u64], k: usize) -> Simd<u64, N>
    requires first { 1 ≤ k }
    requires last { k + N ≤ length words.now }
    ensures { (p : ℕ) → p < 64 * N → place result p ≡ place words.now (64 * k + p - 1) }
{
    (lanes_at(words, k) << 1) | (lanes_at(words, k - 1) >> 63)
}

/// The right neighbours of the places of the words from `k` on.
#[inline(always)]
pub(crate) fn lanes_from_right<const N: usize>(words: &[u64], k: usize) -> Simd<u64, N>
    requires { k + N + 1 ≤ length words.now }
    ensures { (p : ℕ) → p < 64 * N → place result p ≡ place words.now (64 * k + p + 1) }
{
    (lanes_at(words, k) >> 1) | (lanes_at(words, k + 1) << 63)
}

/// The words of both vectors, one after the other.
#[inline(always)]
pub(crate) fn joined(first: u64x2, second: u64x2) -> u64x4
    ensures first { (j : ℕ) → j < 2 → slice_index_or result j 0 ≡ slice_index_or first j 0 }
    ensures second { (j : ℕ) → j < 2 → slice_index_or result (2 + j) 0 ≡ slice_index_or second j 0 }
{
    first.shuffle(second, [0, 1, 2, 3])
}

/// The first two of four words.
#[inline(always)]
pub(crate) fn left_half(words: u64x4) -> u64x2
    ensures { (p : ℕ) → p < 128 → place result p ≡ place words p }
{
    words.shuffle(words, [0, 1])
}

/// The last two of four words.
#[inline(always)]
pub(crate) fn right_half(words: u64x4) -> u64x2
    ensures { (p : ℕ) → p < 128 → place result p ≡ place words (128 + p) }
{
    words.shuffle(words, [2, 3])
}
