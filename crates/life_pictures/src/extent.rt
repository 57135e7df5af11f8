//! The width and the height of a normal set's box.
ghost use Rattle.std.specs.Prelude.{◌≡◌, ◌≤◌, ◌+◌, map};
ghost use Rattle.std.specs.List.{All};
ghost use Rattle.life_rle.specs.Writer.{coordinates, width_of, height_of, IsQuarterCell};

use life_core::{PLANE, Runs};
use life_rle::size_of;
use std::alloc::Allocator;

/// How many columns and rows a box has.
#[derive(Clone, Copy)]
pub struct Extent {
    pub width: u64,
    pub height: u64,
}

/// The size of the smallest box that has the origin and all cells. Without cells it is 0 by 0.
pub fn extent_of<A: Allocator>(cells: &Runs<A>) -> Extent
    requires { All IsQuarterCell cells.now }
    ensures width { result.width ≡ width_of (map coordinates cells.now) }
    ensures height { result.height ≡ height_of (map coordinates cells.now) }
    ensures within { (result.width ≤ PLANE + 1) × (result.height ≤ PLANE + 1) }
{
    let (width, height) = size_of(cells.runs());
    Extent { width, height }
}
