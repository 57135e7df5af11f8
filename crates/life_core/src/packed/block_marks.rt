//! Marks: a bit for each block, set if a change reaches it, so that the next step has to compute it.
ghost use Rattle.std.specs.Prelude.{◌≡◌, ℕ, ◌+◌, ◌-◌, ◌*◌, ◌^◌, ◌≤◌, ◌<◌, length, slice_index_or, IsTrue, IsFalse};
ghost use Rattle.life_core.specs.PackedRow.{place};
ghost use Rattle.life_core.specs.PackedMarksState.{KeepsMarks, IsMarked, AreNeighboursMarked};

use std::simd::prelude::*;

/// Whether any place is set.
#[inline(always)]
fn any(words: u64x2) -> bool
    ensures { IsFalse result → (p : ℕ) → p < 128 → place words p ≡ 0 }
{
    let words = words.to_array();
    words[0] | words[1] != 0
}

/// Whether the first place is set.
#[inline(always)]
fn first(words: u64x2) -> bool
    ensures { IsFalse result → place words 0 ≡ 0 }
{
    words.to_array()[0] & 1 != 0
}

/// Whether the last place is set.
#[inline(always)]
fn last(words: u64x2) -> bool
    ensures { IsFalse result → place words 127 ≡ 0 }
{
    words.to_array()[1] >> 63 != 0
}

/// Whether a mark is set.
#[inline(always)]
pub(crate) fn is_marked(marks: &[u64], j: usize) -> bool
    requires { j < 64 * length marks.now }
    ensures { IsTrue result → IsMarked marks.now j }
{
    (marks[j / 64] >> (j % 64)) % 2 == 1
}

/// The first set mark in `from..to`, or `to`.
#[inline(always)]
pub(crate) fn next_mark(marks: &[u64], from: usize, to: usize) -> usize
    requires from { from ≤ to }
    requires to { to ≤ 64 * length marks.now }
    requires few { to < 2 ^ 63 }
    ensures from { from ≤ result }
    ensures to { result ≤ to }
    ensures none { (j : ℕ) → from ≤ j → j < result → place marks.now j ≡ 0 }
{
    let mut j = from;
    while j < to {
        let rest = marks[j / 64] >> (j % 64);
        if rest != 0 {
            return (j + rest.trailing_zeros() as usize).min(to);
        }
        j = 64 * (j / 64 + 1);
    }
    to
}

/// Sets a mark.
#[inline(always)]
pub(crate) fn set_mark(marks: &mut [u64], j: usize)
    requires { j < 64 * length marks.old }
    ensures kept { KeepsMarks marks.old marks.new }
    ensures set { IsMarked marks.new j }
{
    marks[j / 64] |= 1 << (j % 64);
}

/// Sets a mark, if `is_asked`.
#[inline(always)]
fn set_mark_if(marks: &mut [u64], j: usize, is_asked: bool)
    requires { j < 64 * length marks.old }
    ensures kept { KeepsMarks marks.old marks.new }
    ensures raised { IsTrue is_asked → IsMarked marks.new j }
{
    if is_asked {
        set_mark(marks, j);
    }
}

/// Marks block `b` if any place has changed, and its left or right neighbour if the outermost place on that side has.
#[inline(always)]
fn mark_block(changed: u64x2, b: usize, marks: &mut [u64])
    requires first { 1 ≤ b }
    requires last { b + 1 < 64 * length marks.old }
    requires few { b + 1 < 2 ^ 63 }
    ensures marks { KeepsMarks marks.old marks.new }
    ensures own { (p : ℕ) → p < 128 → place changed p ≡ 1 → IsMarked marks.new b }
    ensures left { place changed 0 ≡ 1 → IsMarked marks.new (b - 1) }
    ensures right { place changed 127 ≡ 1 → IsMarked marks.new (b + 1) }
{
    if !any(changed) {
        return;
    }
    set_mark(marks, b);
    set_mark_if(marks, b - 1, first(changed));
    set_mark_if(marks, b + 1, last(changed));
}

/// Marks each block that a change in block `b` reaches: itself, and up to eight around it. The vectors have a bit for
/// each column that changed: in any row, in the first row and in the last.
#[inline(always)]
pub(crate) fn mark_neighbours(
    all: u64x2,
    top: u64x2,
    bottom: u64x2,
    columns: usize,
    b: usize,
    marks: &mut [u64],
)
    requires first { columns + 1 ≤ b }
    requires last { b + columns + 1 < 64 * length marks.old }
    requires few { b + columns + 1 < 2 ^ 63 }
    ensures marks { KeepsMarks marks.old marks.new }
    ensures marked { (i p : ℕ) → p < 128 → place all p ≡ 1 → (i ≡ 0 → place top p ≡ 1) → (i ≡ 15 → place bottom p ≡ 1) → AreNeighboursMarked columns b i p marks.new }
{
    mark_block(all, b, marks);
    mark_block(top, b - columns, marks);
    mark_block(bottom, b + columns, marks);
}
