//! Frames: the positions of rows of packed words on the plane.
ghost use Rattle.std.specs.Prelude.{◌≡◌, ◌↔◌, IsTrue, ℤ, pos, ◌+◌, ◌*◌, ◌<◌, ◌≤◌, ◌+ℤ◌, ◌-ℤ◌, ◌≤ℤ◌, neg_ℤ, true};
ghost use Rattle.std.specs.FinSet as set;
ghost use Rattle.life_core.specs.declared.cell.Cell.{Cell};
ghost use Rattle.life_core.specs.PackedFrameState.{cell_in, cell_of, IsFrame, IsIn};
ghost use Rattle.life_core.specs.PackedMarginsState.{HasSlack, IsWhole};

use crate::cell::{Cell, PLANE};
use crate::pattern::{Bounds, Pattern};
use std::alloc::Allocator;

/// The position of rows of words: bit `i` of word `j` of row `y` is the cell in column `left + 64 j + i`
/// and row `top + y`.
#[derive(Clone, Copy, Debug, PartialEq, Eq)]
pub(crate) struct Frame {
    pub(crate) left: i64,
    pub(crate) top: i64,
    /// How many words a row has.
    pub(crate) words: usize,
    /// How many rows there are.
    pub(crate) height: usize,
}

impl Frame {
    /// A frame of whole blocks around the pattern's box, with room for 31 generations.
    pub(crate) fn of<A: Allocator>(pattern: &Pattern<A>) -> Frame
        ensures frame { IsFrame result }
        ensures whole { IsWhole result }
        ensures slack { HasSlack result 31 pattern.now }
        ensures inside { (c : Cell) → set.contains pattern.now c ≡ true → IsIn result.left result.top (64 * result.words) result.height c }
    {
        let _cells = pattern.cells();
        match pattern.bounds() {
            None => Frame {
                left: 0,
                top: 0,
                words: 2,
                height: 48,
            },
            Some(bounds) => Frame::round(bounds),
        }
    }

    /// A frame of whole blocks around a box, with half a word on each side and three lines of blocks above
    /// and below.
    fn round(bounds: Bounds) -> Frame
        requires left { neg_ℤ (pos PLANE) ≤ℤ bounds.left }
        requires top { neg_ℤ (pos PLANE) ≤ℤ bounds.top }
        requires right { (bounds.left +ℤ pos bounds.width) ≤ℤ pos (PLANE + 1) }
        requires bottom { (bounds.top +ℤ pos bounds.height) ≤ℤ pos (PLANE + 1) }
        requires some { (0 < bounds.width) × (0 < bounds.height) }
        ensures frame { IsFrame result }
        ensures whole { IsWhole result }
        ensures left { result.left ≡ bounds.left -ℤ pos 32 }
        ensures top { result.top ≡ bounds.top -ℤ pos 48 }
        ensures width { bounds.width + 64 ≤ 64 * result.words }
        ensures height { bounds.height + 96 ≤ result.height }
    {
        Frame {
            left: bounds.left - 32,
            top: bounds.top - 48,
            words: 2 * ((bounds.width + 191) / 128) as usize,
            height: 16 * ((bounds.height + 111) / 16) as usize,
        }
    }

    /// Whether the cell lies in the frame.
    pub(crate) fn has(self, cell: Cell) -> bool
        requires { IsFrame self }
        ensures { IsTrue result ↔ IsIn self.left self.top (64 * self.words) self.height cell }
    {
        is_between(self.left, 64 * self.words, cell.column)
            && is_between(self.top, self.height, cell.row)
    }

    /// The cell's column and row within the frame.
    pub(crate) fn offset(self, cell: Cell) -> (usize, usize)
        requires frame { IsFrame self }
        requires cell { IsIn self.left self.top (64 * self.words) self.height cell }
        ensures cell { cell ≡ cell_in self.left self.top result.0 result.1 }
        ensures column { result.0 < 64 * self.words }
        ensures row { result.1 < self.height }
    {
        (
            (cell.column - self.left) as usize,
            (cell.row - self.top) as usize,
        )
    }

    /// The cell of place `p`: bit `p % 64` of word `p / 64`, counted through all rows.
    pub(crate) fn cell(self, p: usize) -> Cell
        requires frame { IsFrame self }
        requires p { p < 64 * (self.height * self.words) }
        ensures { result ≡ cell_of self.left self.top (64 * self.words) p }
    {
        let width = 64 * self.words;
        Cell {
            row: self.top + (p / width) as i64,
            column: self.left + (p % width) as i64,
        }
    }

    /// The frame extended by columns of blocks on the left and right, and by lines of blocks at the top and bottom.
    pub(crate) fn grown(self, left: usize, right: usize, top: usize, bottom: usize) -> Frame
        requires frame { IsFrame self }
        requires few { (left ≤ 64) × (right ≤ 64) × (top ≤ 64) × (bottom ≤ 64) }
        ensures left { result.left ≡ self.left -ℤ pos (128 * left) }
        ensures top { result.top ≡ self.top -ℤ pos (16 * top) }
        ensures words { result.words ≡ self.words + 2 * (left + right) }
        ensures height { result.height ≡ self.height + 16 * (top + bottom) }
    {
        Frame {
            left: self.left - (128 * left) as i64,
            top: self.top - (16 * top) as i64,
            words: self.words + 2 * (left + right),
            height: self.height + 16 * (top + bottom),
        }
    }
}

/// Whether a number is one of `count` numbers from `least` on.
fn is_between(least: i64, count: usize, n: i64) -> bool
    requires least { neg_ℤ (pos 1_100_000_000) ≤ℤ least }
    requires most { (least +ℤ pos count) ≤ℤ pos 1_100_000_000 }
    ensures { IsTrue result ↔ ((least ≤ℤ n) × ((n +ℤ pos 1) ≤ℤ (least +ℤ pos count))) }
{
    least <= n && n < least + count as i64
}
