//! Finds the period of a pattern, and so its kind.
ghost use Rattle.std.specs.Prelude.{◌≡◌, ◌↔◌, ◌≤◌, ◌+◌, ◌*◌, IfOk, IsTrue};
ghost use Rattle.life_code.specs.Period.{IsSearchable, GivesKind};

use crate::growing::{grows_for_ever, is_past_return};
use crate::kinds::{Kind, kind_of_period};
use life_core::{CellList, Fault, PackedRows, Pattern, Plane, Rule, is_packed};
use std::alloc::Allocator;

/// The largest limit on the period that a call may pass.
pub const PERIOD_LIMIT: u32 = 2048;

/// The longest period of a part that the test for parts moving apart looks for.
const ORBIT_LIMIT: u32 = 60;

/// Like [`kind`], computed on planes of type `P`. It runs at most `limit` generations, and tests at generations 1, 2,
/// 4, 8 and so on whether the pattern can still return.
pub fn kind_by<A: Allocator + Copy, P: Plane<A>>(
    alloc: A,
    rule: &Rule,
    pattern: &Pattern<A>,
    limit: u32,
) -> Result<Kind, Fault>
    requires { IsSearchable limit pattern.now }
    ensures { GivesKind rule.now pattern.now limit result }
{
    if pattern.population() == 0 {
        return Ok(Kind::Empty);
    }
    // With a birth at one neighbour, the pattern grows on every side in each generation.
    if rule.is_live_next(false, 1) {
        return Ok(Kind::Unresolved);
    }
    if grows_for_ever(rule, pattern) {
        return Ok(Kind::Unresolved);
    }
    let start = P::from_pattern(alloc, pattern)?;
    let mut plane = P::from_pattern(alloc, pattern)?;
    // Generation `mark`. If it repeats although the pattern itself has not returned, the pattern never returns.
    let mut kept = P::from_pattern(alloc, pattern)?;
    let mut mark = 0;
    for period in 1..limit + 1 {
        plane.step(rule)?;
        if let Some((dx, dy)) = start.shift_to(&plane) {
            return Ok(kind_of_period(period, dx, dy));
        }
        if kept.shift_to(&plane).is_some() {
            return Ok(Kind::Unresolved);
        }
        // Keeps generations 1, 2, 4, 8 and so on, so that one of them soon lies in the cycle. The plane frees the room
        // that the cells have left.
        if period >= 2 * mark {
            let here = plane.to_pattern(alloc)?;
            if here.population() == 0 {
                return Ok(Kind::Unresolved);
            }
            if is_past_return::<A, P>(alloc, rule, &here, (period / 4).min(ORBIT_LIMIT))? {
                return Ok(Kind::Unresolved);
            }
            kept = P::from_pattern(alloc, &here)?;
            plane.trim();
            mark = period;
        }
    }
    Ok(Kind::Unresolved)
}

/// The kind of the pattern for periods up to `limit`. It steps packed rows if the pattern's box fits them, and otherwise
/// a list of cells.
pub fn kind<A: Allocator + Copy>(
    alloc: A,
    rule: &Rule,
    pattern: &Pattern<A>,
    limit: u32,
) -> Result<Kind, Fault>
    requires { IsSearchable limit pattern.now }
    ensures { GivesKind rule.now pattern.now limit result }
{
    if is_packed(pattern.bounds(), limit) {
        kind_by::<A, PackedRows<A>>(alloc, rule, pattern, limit)
    } else {
        kind_by::<A, CellList<A>>(alloc, rule, pattern, limit)
    }
}
