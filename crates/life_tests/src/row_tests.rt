//! Rows and columns of live cells of each length, on both types of plane.
ghost use Rattle.std.specs.Prelude.{IsTrue};
ghost use Rattle.std.specs.List.{All};
ghost use Rattle.life_core.specs.Cell.{IsCellWithin};

use life_core::{
    Cell, CellList, Fault, GENERATION_LIMIT, PLANE, PackedRows, Pattern, Plane, Rule, generation_by,
};
use std::alloc::Global;

/// A box of cells: its upper left corner, and its size.
#[derive(Clone, Copy)]
struct Field {
    left: i64,
    top: i64,
    width: i64,
    height: i64,
}

impl Field {
    /// The same box with columns and rows exchanged.
    fn exchanged(self) -> Field {
        Field {
            left: self.top,
            top: self.left,
            width: self.height,
            height: self.width,
        }
    }
}

/// Whether all cells lie in the plane.
fn are_inside(cells: &[Cell]) -> bool
    ensures { IsTrue result → All (IsCellWithin PLANE) cells.now }
{
    cells.iter().all(|cell| cell.is_within(PLANE))
}

/// The pattern with these cells; empty if one of them is outside the plane.
fn pattern_of(mut cells: Vec<Cell>) -> Result<Pattern, Fault> {
    if !are_inside(&cells) {
        cells.clear();
    }
    Pattern::from_list(cells)
}

/// The pattern with all cells of the box; empty if the box is not in the plane.
fn filled(alloc: Global, field: Field) -> Result<Pattern, Fault> {
    let mut cells = Vec::new(alloc);
    for row in field.top..field.top.saturating_add(field.height) {
        for column in field.left..field.left.saturating_add(field.width) {
            cells.push(Cell { row, column })?;
        }
    }
    pattern_of(cells)
}

/// Whether the first box's cells evolve to the second's under Life, on planes of the type `P`.
fn goes_on<P: Plane<Global>>(alloc: Global, before: Field, after: Field) -> Result<bool, Fault> {
    let start = filled(alloc, before)?;
    if !start.within(PLANE - GENERATION_LIMIT) {
        return Ok(false);
    }
    let next = generation_by::<_, P>(alloc, &Rule::LIFE, &start, 1)?;
    Ok(next.same(&filled(alloc, after)?))
}

/// Whether the first box's cells evolve to the second's under Life, on both types of plane, as they
/// are and with columns and rows exchanged.
fn goes_on_both_ways(alloc: Global, before: Field, after: Field) -> Result<bool, Fault> {
    Ok(
        goes_on::<CellList>(alloc, before, after)?
            && goes_on::<PackedRows>(alloc, before, after)?
            && goes_on::<CellList>(alloc, before.exchanged(), after.exchanged())?
            && goes_on::<PackedRows>(alloc, before.exchanged(), after.exchanged())?,
    )
}

/// Whether each row of up to 300 cells evolves to three rows with two cells fewer: one above it, one in its place, and
/// one below it.
fn rows_go_on(alloc: Global) -> Result<bool, Fault> {
    for width in 1..301_i64 {
        let row = Field {
            left: 0,
            top: 0,
            width,
            height: 1,
        };
        let rows = Field {
            left: 1,
            top: -1,
            width: width.saturating_sub(2),
            height: 3,
        };
        if !goes_on_both_ways(alloc, row, rows)? {
            return Ok(false);
        }
    }
    Ok(true)
}

#[test]
fn rows_of_each_width_go_on(rt: HostRuntime) {
    assert!(rt; rows_go_on(rt.alloc()) == Ok(true));
}
