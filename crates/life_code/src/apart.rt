//! Finds parts of a pattern that never meet. If two of them move differently, the pattern never returns.
ghost use Rattle.std.specs.Prelude.{◌≡◌, ◌≤◌, ◌<◌, ◌+ℤ◌, ◌-ℤ◌, length, slice_index_or, IfOk, IfSome, IsTrue};
ghost use Rattle.std.specs.List.{All};
ghost use Rattle.std.specs.FinSet as set;
ghost use Rattle.life_core.specs.Pattern.{IsWithin};
ghost use Rattle.life_core.specs.Rule.{IsRule};
ghost use Rattle.life_code.specs.Apart.{union_of};
ghost use Rattle.life_code.specs.ApartState.{IsOrbit, ComesNoNearer, KeepsLeft, KeepsAbove, KeepsUpperLeft, KeepsUpperRight, KeepsAside, KeepApart, MoveDifferently, IsMoving, AreMoving, KeepsApartFrom, SomeMoveDifferently, AreParted, parts_of};
ghost use Rattle.life_code.specs.PeriodState.{NeverReturns};

use crate::part_frames::{Frame, frames_of};
use crate::period::PERIOD_LIMIT;
use life_core::{Cell, Fault, Pattern, Plane, Rule};
use std::alloc::{AllocError, Allocator};

/// Patterns with more cells or parts are not examined: that would take longer than running them.
const MOST_CELLS: usize = 4096;

const MOST_PARTS: usize = 64;

/// How a part would return if it were the only one, and the box of its cells until then.
#[derive(Clone, Copy)]
pub struct Orbit {
    pub period: u32,
    pub dx: i64,
    pub dy: i64,
    frame: Frame,
}

impl Orbit {
    /// `true` only if this part always stays more than 2 columns to the left of the other.
    fn keeps_left(&self, other: &Orbit) -> bool
        ensures { IsTrue result → KeepsLeft self.now other.now }
    {
        if !self.frame.columns.is_before(&other.frame.columns, 2) {
            return false;
        }
        comes_no_nearer(self.period, self.dx, other.period, other.dx)
    }

    /// `true` only if this part always stays more than 2 rows above the other.
    fn keeps_above(&self, other: &Orbit) -> bool
        ensures { IsTrue result → KeepsAbove self.now other.now }
    {
        if !self.frame.rows.is_before(&other.frame.rows, 2) {
            return false;
        }
        comes_no_nearer(self.period, self.dy, other.period, other.dy)
    }

    /// The motion along the sum of row and column; `None` on overflow.
    fn sum_drift(&self) -> Option<Drift>
        ensures { IfSome result (λ d. (d.period ≡ self.now.period) × (d.by ≡ self.now.dy +ℤ self.now.dx)) }
    {
        match self.dy.checked_add(self.dx) {
            Some(by) => Some(Drift {
                period: self.period,
                by,
            }),
            None => None,
        }
    }

    /// The motion along the difference row - column; `None` on overflow.
    fn difference_drift(&self) -> Option<Drift>
        ensures { IfSome result (λ d. (d.period ≡ self.now.period) × (d.by ≡ self.now.dy -ℤ self.now.dx)) }
    {
        match self.dy.checked_sub(self.dx) {
            Some(by) => Some(Drift {
                period: self.period,
                by,
            }),
            None => None,
        }
    }

    /// `true` only if this part stays on the upper left: its sums of row and column stay more than 4 below the
    /// other's.
    fn keeps_upper_left(&self, other: &Orbit) -> bool
        ensures { IsTrue result → KeepsUpperLeft self.now other.now }
    {
        if !self.frame.sums.is_before(&other.frame.sums, 4) {
            return false;
        }
        match (self.sum_drift(), other.sum_drift()) {
            (Some(here), Some(there)) => here.comes_no_nearer(there),
            _ => false,
        }
    }

    /// `true` only if this part stays on the upper right: its differences row - column stay more than 4 below the
    /// other's.
    fn keeps_upper_right(&self, other: &Orbit) -> bool
        ensures { IsTrue result → KeepsUpperRight self.now other.now }
    {
        if !self
            .frame
            .differences
            .is_before(&other.frame.differences, 4)
        {
            return false;
        }
        match (self.difference_drift(), other.difference_drift()) {
            (Some(here), Some(there)) => here.comes_no_nearer(there),
            _ => false,
        }
    }

    /// Whether we can show that this part stays on one side of the other: to its left, above it, or beyond a diagonal.
    fn keeps_aside(&self, other: &Orbit) -> bool
        ensures { IsTrue result → KeepsAside self.now other.now }
    {
        if self.keeps_left(other) {
            return true;
        }
        if self.keeps_above(other) {
            return true;
        }
        if self.keeps_upper_left(other) {
            return true;
        }
        self.keeps_upper_right(other)
    }

    /// Whether we can show that the two are never near each other.
    fn keeps_apart(&self, other: &Orbit) -> bool
        ensures { IsTrue result → KeepApart self.now other.now }
    {
        if self.keeps_aside(other) {
            return true;
        }
        other.keeps_aside(self)
    }

    /// Compares the moves over the product of both periods. An overflow counts as no difference.
    fn moves_differently(&self, other: &Orbit) -> bool
        ensures { IsTrue result → MoveDifferently self.now other.now }
    {
        let period = i64::from(self.period);
        let other_period = i64::from(other.period);
        if let (Some(here), Some(there)) = (
            other_period.checked_mul(self.dx),
            period.checked_mul(other.dx),
        ) {
            if here != there {
                return true;
            }
        }
        if let (Some(here), Some(there)) = (
            other_period.checked_mul(self.dy),
            period.checked_mul(other.dy),
        ) {
            return here != there;
        }
        false
    }
}

/// A motion along one direction: `by` in every `period` generations.
#[derive(Clone, Copy)]
struct Drift {
    period: u32,
    by: i64,
}

impl Drift {
    /// Whether we can show that a part drifting like this never gets closer to a part after it that drifts like
    /// `other`.
    fn comes_no_nearer(self, other: Drift) -> bool
        ensures { IsTrue result → ComesNoNearer self.period self.by other.period other.by }
    {
        comes_no_nearer(self.period, self.by, other.period, other.by)
    }
}

/// Whether we can show that a part never gets closer to the part after it. They move by `here` and `there` in their
/// periods.
fn comes_no_nearer(period: u32, here: i64, other_period: u32, there: i64) -> bool
    ensures { IsTrue result → ComesNoNearer period here other_period there }
{
    if here <= 0 && 0 <= there {
        return true;
    }
    period == other_period && here <= there
}

/// A part of a pattern with its orbit.
#[derive(Drop)]
pub struct Moving<A: Allocator> {
    pub part: Pattern<A>,
    pub orbit: Orbit,
}

/// Runs the part for up to `limit` generations. `None` if it doesn't return by then, or is empty.
fn orbit_of<A: Allocator + Copy, P: Plane<A>>(
    alloc: A,
    rule: &Rule,
    part: &Pattern<A>,
    limit: u32,
) -> Result<Option<Orbit>, Fault>
    requires few { limit ≤ PERIOD_LIMIT }
    requires room { IsWithin 500_000_000 part.now }
    ensures { IfOk result (λ o. IfSome o (IsOrbit rule.now part.now)) }
{
    let runs = part.cells().runs();
    let Some(first) = runs.first() else {
        return Ok(None);
    };
    let mut frame = Frame::of(*first).with_runs(runs);
    let mut plane = P::from_pattern(alloc, part)?;
    for period in 1..limit + 1 {
        plane.step(rule)?;
        let phase = plane.to_pattern(alloc)?;
        if let Some((dx, dy)) = part.shift_to(&phase) {
            return Ok(Some(Orbit {
                period,
                dx,
                dy,
                frame,
            }));
        }
        frame = frame.with_runs(phase.cells().runs());
    }
    Ok(None)
}

/// The orbit of a known part of which this one is a translated copy. Ash has many copies of few objects.
fn known_orbit<A: Allocator>(rule: &Rule, known: &[Moving<A>], part: &Pattern<A>) -> Option<Orbit>
    requires { All (IsMoving rule.now) known.now }
    ensures { IfSome result (IsOrbit rule.now part.now) }
{
    let _rule = *rule;
    for moving in known {
        if let Some((column, row)) = moving.part.shift_to(part) {
            let frame = moving.orbit.frame.moved(Cell { row, column })?;
            return Some(Orbit {
                frame,
                ..moving.orbit
            });
        }
    }
    None
}

/// Like [`orbit_of`], but looks among the known parts first, and adds the part to them if it is new.
fn cached_orbit<A: Allocator + Copy, P: Plane<A>>(
    alloc: A,
    rule: &Rule,
    part: &Pattern<A>,
    limit: u32,
    known: &mut Vec<Moving<A>, A>,
) -> Result<Option<Orbit>, Fault>
    requires few { limit ≤ PERIOD_LIMIT }
    requires room { IsWithin 500_000_000 part.now }
    requires known { All (IsMoving rule.now) known.old.items }
    ensures known { All (IsMoving rule.now) known.new.items }
    ensures orbit { IfOk result (λ o. IfSome o (IsOrbit rule.now part.now)) }
{
    if let Some(orbit) = known_orbit(rule, known, part) {
        return Ok(Some(orbit));
    }
    let Some(orbit) = orbit_of::<A, P>(alloc, rule, part, limit)? else {
        return Ok(None);
    };
    let part = part.copy(alloc)?;
    known.push(Moving { part, orbit })?;
    Ok(Some(orbit))
}

/// Splits the cells into those inside a box and the others.
fn parted<A: Allocator + Copy>(
    alloc: A,
    cells: &[Cell],
    frame: &Frame,
) -> Result<(Vec<Cell, A>, Vec<Cell, A>), AllocError>
    ensures { IfOk result (λ p. AreParted cells.now p.0.items p.1.items) }
{
    let mut inside = Vec::new(alloc);
    let mut outside = Vec::new(alloc);
    for cell in cells {
        if frame.has(*cell) {
            inside.push(*cell)?;
        } else {
            outside.push(*cell)?;
        }
    }
    Ok((inside, outside))
}

/// Whether we can show that an orbit is never near the orbits of the parts.
fn keeps_apart_from<A: Allocator>(parts: &[Moving<A>], orbit: &Orbit) -> bool
    ensures { IsTrue result → KeepsApartFrom parts.now orbit.now }
{
    for part in parts {
        if !part.orbit.keeps_apart(orbit) {
            return false;
        }
    }
    true
}

/// The cells as a part, if it returns within the limit and we can show that it is never near the other parts.
fn moving_part<A: Allocator + Copy, P: Plane<A>>(
    alloc: A,
    rule: &Rule,
    cells: Vec<Cell, A>,
    limit: u32,
    known: &mut Vec<Moving<A>, A>,
    parts: &[Moving<A>],
) -> Result<Option<Moving<A>>, Fault>
    requires few { limit ≤ PERIOD_LIMIT }
    requires room { IsWithin 500_000_000 (set.from_list cells.items) }
    requires known { All (IsMoving rule.now) known.old.items }
    ensures known { All (IsMoving rule.now) known.new.items }
    ensures cells { IfOk result (λ o. IfSome o (λ m. m.part ≡ set.from_list cells.items)) }
    ensures moving { IfOk result (λ o. IfSome o (IsMoving rule.now)) }
    ensures apart { IfOk result (λ o. IfSome o (λ m. KeepsApartFrom parts.now m.orbit)) }
{
    let part = Pattern::from_list(cells)?;
    let Some(orbit) = cached_orbit::<A, P>(alloc, rule, &part, limit, known)? else {
        return Ok(None);
    };
    if !keeps_apart_from(parts, &orbit) {
        return Ok(None);
    }
    Ok(Some(Moving { part, orbit }))
}

/// Comparing each part with the first is enough: if all move like the first, no two differ.
fn some_move_differently<A: Allocator>(parts: &[Moving<A>]) -> bool
    ensures { IsTrue result → SomeMoveDifferently parts.now }
{
    if parts.is_empty() {
        return false;
    }
    for part in parts {
        if part.orbit.moves_differently(&parts[0].orbit) {
            return true;
        }
    }
    false
}

/// The parts of a pattern, if each returns within the limit and we can show that no two are ever near each other.
/// Patterns with parts larger than `largest` are not examined.
pub fn moving_parts<A: Allocator + Copy, P: Plane<A>>(
    alloc: A,
    rule: &Rule,
    pattern: &Pattern<A>,
    limit: u32,
    largest: i64,
    known: &mut Vec<Moving<A>, A>,
) -> Result<Option<Vec<Moving<A>, A>>, Fault>
    requires few { limit ≤ PERIOD_LIMIT }
    requires room { IsWithin 500_000_000 pattern.now }
    requires known { All (IsMoving rule.now) known.old.items }
    ensures known { All (IsMoving rule.now) known.new.items }
    ensures moving { IfOk result (λ o. IfSome o (λ v. AreMoving rule.now v.items)) }
    ensures whole { IfOk result (λ o. IfSome o (λ v. union_of (parts_of v.items) ≡ pattern.now)) }
{
    let Some(frames) = frames_of(alloc, pattern.cells().runs(), MOST_PARTS, largest)? else {
        return Ok(None);
    };
    let mut rest = pattern.cells().list(alloc)?;
    let mut parts = Vec::new(alloc);
    for frame in frames.as_slice() {
        let (inside, outside) = parted(alloc, &rest, frame)?;
        rest = outside;
        let Some(part) = moving_part::<A, P>(alloc, rule, inside, limit, known, &parts)? else {
            return Ok(None);
        };
        parts.push(part)?;
    }
    if !rest.as_slice().is_empty() {
        return Ok(None);
    }
    Ok(Some(parts))
}

/// Whether we can show that a pattern never returns, because it falls into parts that never meet and two of them move
/// differently. Each part must return within the limit.
pub fn moves_apart<A: Allocator + Copy, P: Plane<A>>(
    alloc: A,
    rule: &Rule,
    pattern: &Pattern<A>,
    limit: u32,
) -> Result<bool, Fault>
    requires few { limit ≤ PERIOD_LIMIT }
    requires room { IsWithin 500_000_000 pattern.now }
    ensures { IfOk result (λ b. IsTrue b → IsRule rule.now → NeverReturns rule.now pattern.now) }
{
    if pattern.population() > MOST_CELLS {
        return Ok(false);
    }
    match moving_parts::<A, P>(alloc, rule, pattern, limit, i64::MAX, &mut Vec::new(alloc))? {
        Some(parts) => Ok(some_move_differently(&parts)),
        None => Ok(false),
    }
}
