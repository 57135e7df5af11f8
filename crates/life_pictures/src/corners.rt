//! The corners of the box of a set of cells.
ghost use Rattle.std.specs.Prelude.{◌≡◌, ◌≤◌, ◌-ℤ◌, ◌+ℤ◌, pos, IfSome};
ghost use Rattle.std.specs.Int.{int_min, int_max};
ghost use Rattle.life_core.specs.Pattern.{Cells, IsWithin, corner, normal};
ghost use Rattle.life_rle.specs.Writer.{pairs_of, width_of, height_of};
ghost use Rattle.life_pictures.specs.Corners.{AreNear, IsNearSpan, AreTogether, HasCorners};

use crate::extent::Extent;
use life_core::{Bounds, Cell, Pattern};
use std::alloc::Allocator;

/// The upper left and the lower right cell of the box of a set of cells.
#[derive(Clone, Copy)]
pub(crate) struct Corners {
    first: Cell,
    last: Cell,
}

impl Corners {
    /// The corners of a box.
    fn of(bounds: Bounds) -> Corners
        requires columns { IsNearSpan bounds.left bounds.width }
        requires rows { IsNearSpan bounds.top bounds.height }
        ensures first { result.first ≡ record { row = bounds.top; column = bounds.left } }
        ensures right { result.last.column ≡ (bounds.left +ℤ pos bounds.width) -ℤ pos 1 }
        ensures bottom { result.last.row ≡ (bounds.top +ℤ pos bounds.height) -ℤ pos 1 }
    {
        Corners {
            first: Cell {
                row: bounds.top,
                column: bounds.left,
            },
            last: Cell {
                row: bounds.top + bounds.height as i64 - 1,
                column: bounds.left + bounds.width as i64 - 1,
            },
        }
    }

    /// The corners of the smallest box around two boxes.
    fn joined(self, other: Corners) -> Corners
        requires own { AreNear self }
        requires other { AreNear other }
        ensures left { result.first.column ≡ int_min self.first.column other.first.column }
        ensures top { result.first.row ≡ int_min self.first.row other.first.row }
        ensures right { result.last.column ≡ int_max self.last.column other.last.column }
        ensures bottom { result.last.row ≡ int_max self.last.row other.last.row }
    {
        Corners {
            first: Cell {
                row: self.first.row.min(other.first.row),
                column: self.first.column.min(other.first.column),
            },
            last: Cell {
                row: self.last.row.max(other.last.row),
                column: self.last.column.max(other.last.column),
            },
        }
    }

    /// The width and the height of the box.
    fn extent(self) -> Extent
        requires { AreNear self }
        ensures width { (self.first.column +ℤ pos result.width) -ℤ pos 1 ≡ self.last.column }
        ensures height { (self.first.row +ℤ pos result.height) -ℤ pos 1 ≡ self.last.row }
        ensures within { (result.width ≤ 8193) × (result.height ≤ 8193) }
    {
        Extent {
            width: (self.last.column - self.first.column + 1) as u64,
            height: (self.last.row - self.first.row + 1) as u64,
        }
    }
}

/// The corners of a pattern's box, if it has a cell.
pub(crate) fn corners_of<A: Allocator>(pattern: &Pattern<A>) -> Option<Corners>
    requires { IsWithin 4096 pattern.now }
    ensures { HasCorners pattern.now result }
{
    match pattern.bounds() {
        Some(bounds) => Some(Corners::of(bounds)),
        None => None,
    }
}

/// The corners of the box around two sets.
pub(crate) fn corners_of_both(one: Option<Corners>, other: Option<Corners>) -> Option<Corners>
    requires one { IfSome one AreNear }
    requires other { IfSome other AreNear }
    ensures { (X Y Z : Cells) → HasCorners X one → HasCorners Y other → AreTogether X Y Z → HasCorners Z result }
{
    match (one, other) {
        (Some(one), Some(other)) => Some(one.joined(other)),
        (Some(one), None) => Some(one),
        (None, other) => other,
    }
}

/// The upper left cell of a set's box, or the origin if the set is empty.
pub(crate) fn first_cell(corners: Option<Corners>) -> Cell
    ensures { (X : Cells) → HasCorners X corners → result ≡ corner X }
{
    match corners {
        Some(corners) => corners.first,
        None => Cell { row: 0, column: 0 },
    }
}

/// The width and the height of a set's box; 0 by 0 if the set is empty.
pub(crate) fn extent_of_box(corners: Option<Corners>) -> Extent
    requires { IfSome corners AreNear }
    ensures width { (X : Cells) → HasCorners X corners → result.width ≡ width_of (pairs_of (normal X)) }
    ensures height { (X : Cells) → HasCorners X corners → result.height ≡ height_of (pairs_of (normal X)) }
    ensures within { (result.width ≤ 8193) × (result.height ≤ 8193) }
{
    match corners {
        Some(corners) => corners.extent(),
        None => Extent {
            width: 0,
            height: 0,
        },
    }
}
