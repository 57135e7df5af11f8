//! Tests that show that a pattern never returns, because it grows for ever or falls apart.
ghost use Rattle.std.specs.Prelude.{◌≡◌, ◌≤◌, ℤ, pos, ◌+ℤ◌, ◌-ℤ◌, false, IfOk, IfSome, IsTrue};
ghost use Rattle.std.specs.FinSet as set;
ghost use Rattle.life_core.specs.Cell.{cell_at};
ghost use Rattle.life_core.specs.Pattern.{IsWithin};
ghost use Rattle.life_core.specs.Rule.{IsRule};
ghost use Rattle.life_code.specs.Growing.{IsAlone, HasPair};
ghost use Rattle.life_code.specs.PeriodState.{NeverReturns};

use crate::apart::moves_apart;
use crate::period::PERIOD_LIMIT;
use life_core::{Bounds, Cell, Fault, Pattern, Plane, Rule, Run};
use std::alloc::Allocator;

fn first_cell(run: Run) -> Cell
    ensures { result ≡ cell_at (run.first, run.row) }
{
    Cell {
        row: i64::from(run.row),
        column: i64::from(run.first),
    }
}

fn cell_before(run: Run, columns: u32) -> Cell
    ensures { result ≡ cell_at (run.first -ℤ pos columns, run.row) }
{
    Cell {
        row: i64::from(run.row),
        column: i64::from(run.first) - i64::from(columns),
    }
}

/// Whether the two nearest cells on either side of a pair are dead.
fn is_alone<A: Allocator>(pattern: &Pattern<A>, run: Run) -> bool
    ensures { IsTrue result → IsAlone pattern.now run.first run.row }
{
    if pattern.contains(cell_before(run, 2)) {
        return false;
    }
    if pattern.contains(cell_before(run, 1)) {
        return false;
    }
    if pattern.contains(run.cell(2)) {
        return false;
    }
    !pattern.contains(run.cell(3))
}

/// Whether a run begins with a pair that gives birth to another pair one row further out.
fn is_pair<A: Allocator>(rule: &Rule, pattern: &Pattern<A>, run: Run) -> bool
    ensures { IsTrue result → HasPair rule.now pattern.now run.first run.row }
{
    if !pattern.contains(first_cell(run)) {
        return false;
    }
    if !pattern.contains(run.cell(1)) {
        return false;
    }
    if rule.is_live_next(false, 3) {
        return true;
    }
    is_alone(pattern, run)
}

fn is_pair_of_row<A: Allocator>(rule: &Rule, pattern: &Pattern<A>, run: Run, row: i64) -> bool
    ensures { IsTrue result → HasPair rule.now pattern.now run.first row }
{
    if i64::from(run.row) != row {
        return false;
    }
    is_pair(rule, pattern, run)
}

/// Whether any run of this row begins with such a pair.
fn has_pair<A: Allocator>(rule: &Rule, pattern: &Pattern<A>, row: i64) -> bool
    ensures { IsTrue result → (x : ℤ) × HasPair rule.now pattern.now x row }
{
    for run in pattern.cells().runs() {
        if is_pair_of_row(rule, pattern, *run, row) {
            return true;
        }
    }
    false
}

/// `None` on overflow.
fn last_row(bounds: Bounds) -> Option<i64>
    ensures { IfSome result (λ y. y ≡ (bounds.top +ℤ pos bounds.height) -ℤ pos 1) }
{
    let height = i64::try_from(bounds.height).ok()?;
    bounds.top.checked_add(height)?.checked_sub(1)
}

/// Whether pairs in the first and the last row reach one row further in each generation, for ever. Only tested under
/// rules with a birth at 2 neighbours and none at 1.
pub fn grows_for_ever<A: Allocator>(rule: &Rule, pattern: &Pattern<A>) -> bool
    ensures { IsTrue result → NeverReturns rule.now pattern.now }
{
    if rule.is_live_next(false, 1) {
        return false;
    }
    if !rule.is_live_next(false, 2) {
        return false;
    }
    let Some(bounds) = pattern.bounds() else {
        return false;
    };
    let Some(bottom) = last_row(bounds) else {
        return false;
    };
    if !has_pair(rule, pattern, bounds.top) {
        return false;
    }
    has_pair(rule, pattern, bottom)
}

/// Whether we can show that a pattern never returns: it grows for ever, or parts of it move apart. A part must return
/// within `limit` generations.
pub fn is_past_return<A: Allocator + Copy, P: Plane<A>>(
    alloc: A,
    rule: &Rule,
    pattern: &Pattern<A>,
    limit: u32,
) -> Result<bool, Fault>
    requires few { limit ≤ PERIOD_LIMIT }
    requires room { IsWithin 500_000_000 pattern.now }
    ensures { IfOk result (λ b. IsTrue b → IsRule rule.now → NeverReturns rule.now pattern.now) }
{
    if grows_for_ever(rule, pattern) {
        return Ok(true);
    }
    moves_apart::<A, P>(alloc, rule, pattern, limit)
}
