//! Generations of a pattern.
ghost use Rattle.std.specs.Prelude.{◌↔◌, ◌+◌, ◌*◌, ◌≤◌, IsTrue, MatchOption};
ghost use Rattle.life_core.specs.Generations.{HasRoomFor, GivesGeneration, NextByCells, GrowsByOne};

use crate::cell::PLANE;
use crate::cell_list::CellList;
use crate::core_fault::Fault;
use crate::packed::packed_rows::PackedRows;
use crate::pattern::{Bounds, Pattern};
use crate::plane::Plane;
use crate::rule::Rule;
use std::alloc::Allocator;

/// The most generations that one call computes.
pub const GENERATION_LIMIT: u32 = 2048;

/// The greatest width and height, in cells, of a box that is stored in rows of packed words. At one bit a cell, the
/// largest box takes 32 MiB, and a plane stores two generations.
pub const PACKED_LIMIT: u64 = 16_384;

/// Generation `n` of the pattern, computed on a plane of the type `P`.
pub fn generation_by<A: Allocator + Copy, P: Plane<A>>(
    alloc: A,
    rule: &Rule,
    pattern: &Pattern<A>,
    n: u32,
) -> Result<Pattern<A>, Fault>
    requires { HasRoomFor n pattern.now }
    ensures { GivesGeneration rule.now pattern.now n result }
{
    let mut plane = P::from_pattern(alloc, pattern)?;
    for _i in 0..n {
        plane.step(rule)?;
    }
    plane.to_pattern(alloc)
}

/// Generation `n` of the pattern, computed in packed rows if [`is_packed`] allows it, otherwise by a list of cells.
pub fn generation<A: Allocator + Copy>(
    alloc: A,
    rule: &Rule,
    pattern: &Pattern<A>,
    n: u32,
) -> Result<Pattern<A>, Fault>
    requires { HasRoomFor n pattern.now }
    ensures { GivesGeneration rule.now pattern.now n result }
{
    if n == 0 {
        return pattern.copy(alloc);
    }
    if is_packed(pattern.bounds(), n) {
        generation_by::<A, PackedRows<A>>(alloc, rule, pattern, n)
    } else {
        generation_by::<A, CellList<A>>(alloc, rule, pattern, n)
    }
}

/// Whether a pattern with this box is stored in rows of packed words for `n` generations. Its width and height may
/// grow by `2 * n`, and must then be at most [`PACKED_LIMIT`]. An empty pattern has no box and is always packed.
pub fn is_packed(bounds: Option<Bounds>, n: u32) -> bool
    requires { n ≤ GENERATION_LIMIT }
    ensures { MatchOption bounds (IsTrue result) (λ b. IsTrue result ↔ ((b.width + 2 * n ≤ PACKED_LIMIT) × (b.height + 2 * n ≤ PACKED_LIMIT))) }
{
    let most = PACKED_LIMIT - 2 * u64::from(n);
    match bounds {
        None => true,
        Some(bounds) => bounds.width <= most && bounds.height <= most,
    }
}

/// Whether a cell of the plane is live next depends only on the rule, the cell and its eight neighbours. A generation
/// reaches at most one cell further than the one before. A law: calling it does nothing.
pub fn laws_of_generations()
    ensures by_cells { NextByCells }
    ensures grows { GrowsByOne }
{}
