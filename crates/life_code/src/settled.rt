//! Generations of fields that settle. Once we can show that a field consists of parts that return and never meet, any
//! later generation is computed directly.
ghost use Rattle.std.specs.Prelude.{◌≡◌, ◌≤◌, ◌/◌, pos, ◌*ℤ◌, map, IfOk, IfSome, IsTrue};
ghost use Rattle.std.specs.List.{All};
ghost use Rattle.life_core.specs.Generations.{generation_of, HasRoomFor, GivesGeneration};
ghost use Rattle.life_core.specs.Pattern.{IsWithin};
ghost use Rattle.life_code.specs.Apart.{union_of};
ghost use Rattle.life_code.specs.ApartState.{IsMoving, parts_of};
ghost use Rattle.life_code.specs.Period.{Returns};
ghost use Rattle.life_code.specs.SettledState.{IsMovingWithin};

use crate::apart::{Moving, moving_parts};
use life_core::{
    Cell, CellList, Fault, GENERATION_LIMIT, PackedRows, Pattern, Plane, Rule, generation,
    is_packed, list_runs,
};
use std::alloc::Allocator;

/// The longest period of a part that is searched for. Longer ones are rare in ash.
const SETTLED_LIMIT: u32 = 4;

/// The largest part that is examined, as the distance between its outermost columns or rows. A larger box nearly
/// always contains something active.
const LARGEST_PART: i64 = 24;

/// Like [`LARGEST_PART`], for a soup. Six or more objects of its ash may lie within three cells of each other, in
/// boxes of up to this size.
const LARGEST_PART_OF_SOUP: i64 = 40;

/// A field with more cells is not examined, and there are no later looks at it.
const MOST_CELLS: usize = 1024;

/// Patterns with more cells at the start are not looked at: they rarely settle within [`GENERATION_LIMIT`].
const MOST_AT_START: usize = 8192;

/// A look doesn't pay if fewer generations are left. It takes as long as about 10 generations of an active field, or
/// 100 of a small settled one.
const LEAST_LEFT: u32 = 384;

/// The least common multiple of all periods up to [`SETTLED_LIMIT`]. After a multiple of it, each part has the same
/// phase again.
const ALL_PERIODS: u32 = 12;

/// A guess from the density of the pattern about when it may settle.
#[derive(Clone, Copy)]
enum Start {
    /// Few cells in a wide box, perhaps parts that never meet.
    Scattered,
    /// Dense like a random field, which soon becomes ash.
    Soup,
    /// Too many cells for a search of parts, perhaps the ash of a large soup.
    Large,
    /// Anything else: an oscillator, a spaceship, ash, a gun, or a small pattern that takes long to settle.
    Other,
}

/// Scattered means fewer than one live cell in 64. A soup has at least 48 live cells, and at least one in 4.
fn start_of<A: Allocator>(pattern: &Pattern<A>) -> Start {
    let Some(bounds) = pattern.bounds() else {
        return Start::Other;
    };
    let area = bounds.width.saturating_mul(bounds.height);
    let population = pattern.population();
    if population <= MOST_CELLS && area / 64 > population as u64 {
        return Start::Scattered;
    }
    if population >= 48 && area / 4 <= population as u64 {
        return Start::Soup;
    }
    if population > MOST_CELLS {
        return Start::Large;
    }
    Start::Other
}

/// Whether to look, at generation `i` of `n`, if the field has settled. Random fields of 16 by 16 cells settle after
/// 490 generations on average, half of them after 250. The longer a field stays active, the longer it will take, so
/// looks become rarer. Looks at a soup come in pairs, [`ALL_PERIODS`] apart: the field is examined only if both count
/// the same number of cells.
fn is_look(start: Start, i: u32, n: u32) -> bool {
    let left = n.saturating_sub(i);
    if left < LEAST_LEFT || left % ALL_PERIODS != 0 {
        return false;
    }
    let twelfth = i / ALL_PERIODS;
    match start {
        Start::Soup => {
            matches!(twelfth, 12 | 13) || twelfth >= 24 && matches!(twelfth % 16, 8 | 9)
        }
        Start::Other => matches!(twelfth, 47 | 93 | 136),
        Start::Scattered => matches!(twelfth, 93 | 136),
        Start::Large => false,
    }
}

/// Whether a field of `now` cells may have settled, if the last look counted `before`. A settled field has the same
/// count at both looks. That rules out most active soups without a search.
fn may_be_settled(start: Start, before: usize, now: usize) -> bool {
    match start {
        Start::Soup => before == now,
        _ => now <= MOST_CELLS,
    }
}

/// The largest part to examine in a field that began like this.
fn largest_part(start: Start) -> i64 {
    match start {
        Start::Soup => LARGEST_PART_OF_SOUP,
        _ => LARGEST_PART,
    }
}

/// Whether to compare generation `i` of `n` with the pattern itself. Most oscillators, spaceships and ash repeat after
/// 12 generations. Those with parts of period 5, 10, 15 or 30 repeat after 60.
fn is_return(start: Start, i: u32, n: u32) -> bool
    ensures { IsTrue result → 1 ≤ i }
{
    match start {
        Start::Scattered => i == ALL_PERIODS && n >= 2 * LEAST_LEFT,
        Start::Soup => false,
        Start::Large => i == 5 * ALL_PERIODS && n >= 2 * LEAST_LEFT,
        Start::Other => i == ALL_PERIODS || i == 5 * ALL_PERIODS && n >= 2 * LEAST_LEFT,
    }
}

/// The move over all complete periods in `n` generations, if each period moves by `by`; `None` on overflow.
fn whole_moves(period: u32, by: Cell, n: u32) -> Option<Cell>
    requires { 1 ≤ period }
    ensures { IfSome result (λ v. (v.column ≡ pos (n / period) *ℤ by.column) × (v.row ≡ pos (n / period) *ℤ by.row)) }
{
    let times = i64::from(n / period);
    match (times.checked_mul(by.column), times.checked_mul(by.row)) {
        (Some(column), Some(row)) => Some(Cell { row, column }),
        _ => None,
    }
}

/// Generation `n` of a part that returns after `period` generations, moved by `by`. Runs only `n % period`
/// generations; `None` on overflow.
fn later_return<A: Allocator + Copy>(
    alloc: A,
    rule: &Rule,
    part: &Pattern<A>,
    period: u32,
    by: Cell,
    n: u32,
) -> Result<Option<Pattern<A>>, Fault>
    requires few { n ≤ GENERATION_LIMIT }
    requires from { 1 ≤ period }
    requires back { Returns rule.now part.now period by.column by.row }
    requires room { IsWithin 500_000_000 part.now }
    ensures { IfOk result (λ o. IfSome o (λ X. X ≡ generation_of rule.now part.now n)) }
{
    let Some(total) = whole_moves(period, by, n) else {
        return Ok(None);
    };
    let phase = generation(alloc, rule, part, n % period)?;
    Ok(Some(phase.moved(alloc, total.column, total.row)?))
}

/// Generation `n` of one part, from its orbit; `None` on overflow.
fn later_part<A: Allocator + Copy>(
    alloc: A,
    rule: &Rule,
    moving: &Moving<A>,
    n: u32,
) -> Result<Option<Pattern<A>>, Fault>
    requires few { n ≤ GENERATION_LIMIT }
    requires moving { IsMovingWithin 500_000_000 rule.now moving.now }
    ensures { IfOk result (λ o. IfSome o (λ X. X ≡ generation_of rule.now moving.now.part n)) }
{
    let by = Cell {
        row: moving.orbit.dy,
        column: moving.orbit.dx,
    };
    later_return(alloc, rule, &moving.part, moving.orbit.period, by, n)
}

/// The union of generation `n` of all parts; `None` on overflow.
fn later_parts<A: Allocator + Copy>(
    alloc: A,
    rule: &Rule,
    parts: &[Moving<A>],
    n: u32,
) -> Result<Option<Pattern<A>>, Fault>
    requires few { n ≤ GENERATION_LIMIT }
    requires moving { All (IsMovingWithin 500_000_000 rule.now) parts.now }
    ensures { IfOk result (λ o. IfSome o (λ X. X ≡ union_of (map (λ P. generation_of rule.now P n) (parts_of parts.now)))) }
{
    let mut cells = Vec::new(alloc);
    for part in parts {
        let Some(later) = later_part(alloc, rule, part, n)? else {
            return Ok(None);
        };
        list_runs(&mut cells, later.cells().runs())?;
    }
    Ok(Some(Pattern::from_list(cells)?))
}

/// Generation `n` of a field whose parts have boxes of at most this size, if we can show that it has settled.
fn generation_if_settled<A: Allocator + Copy, P: Plane<A>>(
    alloc: A,
    rule: &Rule,
    field: &Pattern<A>,
    largest: i64,
    n: u32,
    known: &mut Vec<Moving<A>, A>,
) -> Result<Option<Pattern<A>>, Fault>
    requires few { n ≤ GENERATION_LIMIT }
    requires room { IsWithin 500_000_000 field.now }
    requires known { All (IsMoving rule.now) known.old.items }
    ensures known { All (IsMoving rule.now) known.new.items }
    ensures later { IfOk result (λ o. IfSome o (λ X. X ≡ generation_of rule.now field.now n)) }
{
    // Only for the proof: no rule gives birth to a cell without neighbours.
    let _quiet = rule.is_live_next(false, 0);
    match moving_parts::<A, P>(alloc, rule, field, SETTLED_LIMIT, largest, known)? {
        Some(parts) => later_parts(alloc, rule, &parts, n),
        None => Ok(None),
    }
}

/// Generation `n` of a pattern that starts as scattered parts, if we can show that they never meet.
fn first_look<A: Allocator + Copy, P: Plane<A>>(
    alloc: A,
    rule: &Rule,
    pattern: &Pattern<A>,
    start: Start,
    n: u32,
    known: &mut Vec<Moving<A>, A>,
) -> Result<Option<Pattern<A>>, Fault>
    requires few { n ≤ GENERATION_LIMIT }
    requires room { IsWithin 500_000_000 pattern.now }
    requires known { All (IsMoving rule.now) known.old.items }
    ensures known { All (IsMoving rule.now) known.new.items }
    ensures later { IfOk result (λ o. IfSome o (λ X. X ≡ generation_of rule.now pattern.now n)) }
{
    match start {
        Start::Scattered => {
            generation_if_settled::<A, P>(alloc, rule, pattern, LARGEST_PART, n, known)
        }
        _ => Ok(None),
    }
}

/// Generation `n` of a pattern, if the plane's generation `i` is the pattern itself or a translated copy.
fn repeated<A: Allocator + Copy, P: Plane<A>>(
    alloc: A,
    rule: &Rule,
    pattern: &Pattern<A>,
    plane: &P,
    i: u32,
    n: u32,
) -> Result<Option<Pattern<A>>, Fault>
    requires some { 1 ≤ i }
    requires few { n ≤ GENERATION_LIMIT }
    requires room { IsWithin 500_000_000 pattern.now }
    requires now { P.cells plane.now ≡ generation_of rule.now pattern.now i }
    ensures { IfOk result (λ o. IfSome o (λ X. X ≡ generation_of rule.now pattern.now n)) }
{
    let here = plane.to_pattern(alloc)?;
    let Some((column, row)) = pattern.shift_to(&here) else {
        return Ok(None);
    };
    later_return(alloc, rule, pattern, i, Cell { row, column }, n)
}

/// The field of a plane, `n` generations later, if we can show that it has settled. `last` is the number of cells at
/// the last look.
fn look<A: Allocator + Copy, P: Plane<A>>(
    alloc: A,
    rule: &Rule,
    plane: &P,
    start: Start,
    n: u32,
    known: &mut Vec<Moving<A>, A>,
    last: &mut usize,
) -> Result<Option<Pattern<A>>, Fault>
    requires few { n ≤ GENERATION_LIMIT }
    requires room { IsWithin 500_000_000 (P.cells plane.now) }
    requires known { All (IsMoving rule.now) known.old.items }
    ensures known { All (IsMoving rule.now) known.new.items }
    ensures later { IfOk result (λ o. IfSome o (λ X. X ≡ generation_of rule.now (P.cells plane.now) n)) }
{
    if *last > MOST_CELLS {
        return Ok(None);
    }
    let field = plane.to_pattern(alloc)?;
    let before = *last;
    *last = field.population();
    if !may_be_settled(start, before, *last) {
        return Ok(None);
    }
    generation_if_settled::<A, P>(alloc, rule, &field, largest_part(start), n, known)
}

/// Runs a plane of type `P` until we can show that the field has settled or repeats.
fn settled_generation_by<A: Allocator + Copy, P: Plane<A>>(
    alloc: A,
    rule: &Rule,
    pattern: &Pattern<A>,
    n: u32,
) -> Result<Pattern<A>, Fault>
    requires few { n ≤ GENERATION_LIMIT }
    requires room { IsWithin 400_000_000 pattern.now }
    ensures { GivesGeneration rule.now pattern.now n result }
{
    let start = start_of(pattern);
    let mut known = Vec::new(alloc);
    if let Some(later) = first_look::<A, P>(alloc, rule, pattern, start, n, &mut known)? {
        return Ok(later);
    }
    let mut plane = P::from_pattern(alloc, pattern)?;
    let mut last = 0;
    for i in 0..n {
        if is_return(start, i, n) {
            if let Some(later) = repeated(alloc, rule, pattern, &plane, i, n)? {
                return Ok(later);
            }
        }
        if is_look(start, i, n) {
            let left = n - i;
            if let Some(later) = look(alloc, rule, &plane, start, left, &mut known, &mut last)? {
                return Ok(later);
            }
        }
        plane.step(rule)?;
    }
    plane.to_pattern(alloc)
}

/// Whether looks can pay. With births at one or two neighbours, fields grow and don't settle.
fn may_settle<A: Allocator>(rule: &Rule, pattern: &Pattern<A>, n: u32) -> bool {
    n >= LEAST_LEFT
        && pattern.population() <= MOST_AT_START
        && !rule.is_live_next(false, 1)
        && !rule.is_live_next(false, 2)
}

/// The same pattern as from [`generation`](life_core::generation), in less time if the field settles soon.
pub fn settled_generation<A: Allocator + Copy>(
    alloc: A,
    rule: &Rule,
    pattern: &Pattern<A>,
    n: u32,
) -> Result<Pattern<A>, Fault>
    requires { HasRoomFor n pattern.now }
    ensures { GivesGeneration rule.now pattern.now n result }
{
    if !may_settle(rule, pattern, n) {
        return generation(alloc, rule, pattern, n);
    }
    if !pattern.within(400_000_000) {
        return generation(alloc, rule, pattern, n);
    }
    if is_packed(pattern.bounds(), n) {
        settled_generation_by::<A, PackedRows<A>>(alloc, rule, pattern, n)
    } else {
        settled_generation_by::<A, CellList<A>>(alloc, rule, pattern, n)
    }
}
