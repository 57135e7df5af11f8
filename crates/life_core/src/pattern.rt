//! Finite sets of cells.
ghost use Rattle.std.specs.Prelude.{◌≡◌, ◌↔◌, ◌*◌, ◌≤ℤ◌, ◌+ℤ◌, ◌-ℤ◌, neg_ℤ, pos, [], IfOk, IfSome, IsNone, IsTrue, map};
ghost use Rattle.std.specs.Int.{int_min, int_max};
ghost use Rattle.std.specs.List.{All};
ghost use Rattle.std.specs.FinSet as set;
ghost use Rattle.life_core.specs.Cell.{cell_at, moved_cell, IsCellWithin};
ghost use Rattle.life_core.specs.Orientation.{turned_cell};
ghost use Rattle.life_core.specs.Pattern.{image, in_order, IsWithin, IsBox, normal, ShiftsTo, InOrderAscends, InOrderHasMembers, NormalAtOrigin};
ghost use Rattle.life_core.specs.PatternState.{IsCellList, ShiftsListTo};
ghost use Rattle.life_core.specs.Runs.{runs_cells, moved_run, IsRunWithin, AreLongest};

use crate::cell::{Cell, PLANE};
use crate::core_fault::Fault;
use crate::orientation::Orientation;
use crate::runs::{Run, Runs, are_in_order, find_cell};
use crate::sorted::sort_cells;
use std::alloc::{AllocError, Allocator, Global};
use std::marker::Model;

/// The smallest box around a set of cells.
#[derive(Clone, Copy, Debug, PartialEq, Eq)]
pub struct Bounds {
    pub left: i64,
    pub top: i64,
    pub width: u64,
    pub height: u64,
}

/// A finite set of cells, stored as its longest runs in order.
#[derive(Debug, Drop)]
pub struct Pattern<A: Allocator = Global> {
    cells: Runs<A>,
}

impl<A: Allocator> Model for Pattern<A> {
    ghost use Rattle.std.specs.FinSet as set;
    ghost use Rattle.life_core.specs.Pattern.{Cells, coded_cells};
    ghost use Rattle.life_core.specs.PatternState.{IsCellList};
    ghost use Rattle.life_core.specs.declared.cell.TheConstants.{PLANE};

    ghost Value = { Cells };

    ghost coded = { coded_cells };

    ghost view = { λ a. set.from_list a.cells };

    ghost invariant = { λ a. IsCellList PLANE a.cells };
}

impl<A: Allocator + Copy> Pattern<A> {
    /// The set of the cells of the pairs (column, row). Repeats count once.
    pub fn from_cells(alloc: A, cells: &[(i64, i64)]) -> Result<Pattern<A>, Fault>
        requires { All (λ p. IsCellWithin PLANE (cell_at p)) cells.now }
        ensures { IfOk result (λ X. X ≡ set.from_list (map cell_at cells.now)) }
    {
        Pattern::from_list(cells_of(alloc, cells)?)
    }

    /// The set of the cells of a list, in any order and with repeats.
    pub fn from_list(cells: Vec<Cell, A>) -> Result<Pattern<A>, Fault>
        requires { All (IsCellWithin PLANE) cells.items }
        ensures { IfOk result (λ X. X ≡ set.from_list cells.items) }
    {
        let alloc = *cells.allocator();
        let mut cells = cells;
        sort_cells(&mut cells);
        Ok(Pattern {
            cells: Runs::of(alloc, &cells)?,
        })
    }

    /// The set of the cells of a list of runs, in any order and with repeats. Runs that are in order are reused.
    pub fn from_runs(cells: Runs<A>) -> Result<Pattern<A>, Fault>
        requires { All (IsCellWithin PLANE) cells }
        ensures { IfOk result (λ X. X ≡ set.from_list cells) }
    {
        if are_in_order(cells.runs()) {
            return Ok(Pattern::from_sorted(cells));
        }
        let alloc = *cells.allocator();
        Pattern::from_list(cells.list(alloc)?)
    }

    /// The set turned about the origin.
    pub fn turned(&self, alloc: A, orientation: Orientation) -> Result<Pattern<A>, Fault>
        ensures { IfOk result (λ X. X ≡ image (turned_cell orientation) self.now) }
    {
        let cells = self.cells.list(alloc)?;
        Pattern::from_list(turned_cells(alloc, &cells, orientation)?)
    }
}

impl<A: Allocator> Pattern<A> {
    /// The set of the cells of a list that is already strictly sorted; reuses its memory.
    pub(crate) fn from_sorted(cells: Runs<A>) -> Pattern<A>
        requires { IsCellList PLANE cells }
        ensures { result ≡ set.from_list cells }
    {
        Pattern { cells }
    }

    /// The allocator of the set's memory.
    pub(crate) fn allocator(&self) -> &A {
        self.cells.allocator()
    }

    /// Whether the cell is live, by binary search.
    pub fn contains(&self, cell: Cell) -> bool
        ensures { result ≡ set.contains self.now cell }
    {
        find_cell(self.cells.runs(), cell)
    }

    /// The live cells, by row and then by column.
    pub fn cells(&self) -> &Runs<A>
        ensures cells { result.now ≡ in_order self.now }
        ensures inside { All (IsCellWithin PLANE) result.now }
    {
        &self.cells
    }

    /// Whether both coordinates of every live cell lie between `-k` and `k`.
    pub fn within(&self, k: u32) -> bool
        ensures { IsTrue result ↔ IsWithin k self.now }
    {
        all_within(self.cells.runs(), k)
    }

    /// A copy of the set.
    pub fn copy(&self, alloc: A) -> Result<Pattern<A>, Fault>
        ensures { IfOk result (λ X. X ≡ self.now) }
    {
        Ok(Pattern {
            cells: self.cells.copy(alloc)?,
        })
    }

    /// The set moved `dx` columns to the right and `dy` rows down.
    pub fn moved(&self, alloc: A, dx: i64, dy: i64) -> Result<Pattern<A>, Fault>
        requires { IsWithin PLANE (image (moved_cell dx dy) self.now) }
        ensures { IfOk result (λ X. X ≡ image (moved_cell dx dy) self.now) }
    {
        Ok(self.copy(alloc)?.into_moved(dx, dy))
    }

    /// The box of the live cells, if there are any.
    pub fn bounds(&self) -> Option<Bounds>
        ensures none { IsNone result ↔ (self.now ≡ set.empty) }
        ensures is_box { IfSome result (λ b. IsBox self.now b.left b.top b.width b.height) }
    {
        bounds_of(self.cells.runs())
    }

    /// The set moved so that its least column and its least row are 0.
    pub fn normal(&self, alloc: A) -> Result<Pattern<A>, Fault>
        requires { IsWithin 500_000_000 self.now }
        ensures { IfOk result (λ X. X ≡ normal self.now) }
    {
        Ok(self.copy(alloc)?.into_normal())
    }

    /// The set moved so that its least column and its least row are 0; reuses its memory.
    pub fn into_normal(self) -> Pattern<A>
        requires { IsWithin 500_000_000 self }
        ensures { result ≡ normal self }
    {
        match self.bounds() {
            None => self,
            Some(bounds) => self.into_moved(-bounds.left, -bounds.top),
        }
    }

    /// The set moved `dx` columns to the right and `dy` rows down; reuses its memory.
    fn into_moved(self, dx: i64, dy: i64) -> Pattern<A>
        requires { IsWithin PLANE (image (moved_cell dx dy) self) }
        ensures { result ≡ image (moved_cell dx dy) self }
    {
        if dx == 0 && dy == 0 {
            return self;
        }
        let Pattern { cells } = self;
        Pattern::from_sorted(cells.into_moved(Cell {
            row: dy,
            column: dx,
        }))
    }

    /// Whether the sets are equal.
    pub fn same(&self, other: &Pattern<A>) -> bool
        ensures { IsTrue result ↔ (self.now ≡ other.now) }
    {
        self.cells.runs() == other.cells.runs()
    }

    /// The translation, columns and rows, that takes this set to the other; `None` if this set is
    /// empty or there is no such translation.
    pub fn shift_to(&self, other: &Pattern<A>) -> Option<(i64, i64)>
        ensures { ShiftsTo self.now other.now result }
    {
        shift_between(self.cells.runs(), other.cells.runs())
    }

    /// How many cells are live.
    pub fn population(&self) -> usize
        ensures { result ≡ set.len self.now }
    {
        self.cells.len()
    }
}

/// A set's cells in order ascend and are its members. The least column and row of a nonempty normal set are 0. A law:
/// calling it does nothing.
pub fn laws_of_patterns()
    ensures ascends { InOrderAscends }
    ensures members { InOrderHasMembers }
    ensures at_origin { NormalAtOrigin }
{}

/// The cells of the pairs (column, row).
fn cells_of<A: Allocator>(alloc: A, pairs: &[(i64, i64)]) -> Result<Vec<Cell, A>, AllocError>
    ensures { IfOk result (λ v. v.items ≡ map cell_at pairs.now) }
{
    pairs
        .iter()
        .map(|pair| Cell {
            row: pair.1,
            column: pair.0,
        })
        .collect(alloc)
}

/// Whether both coordinates of each cell of the runs lie between `-k` and `k`.
fn all_within(runs: &[Run], k: u32) -> bool
    ensures { IsTrue result ↔ All (IsRunWithin k) runs.now }
{
    runs.iter().all(|run| run.is_within(k))
}

/// The cells turned about the origin.
fn turned_cells<A: Allocator>(
    alloc: A,
    cells: &[Cell],
    orientation: Orientation,
) -> Result<Vec<Cell, A>, AllocError>
    requires { All (IsCellWithin PLANE) cells.now }
    ensures { IfOk result (λ v. v.items ≡ map (turned_cell orientation) cells.now) }
{
    cells.iter().map(|c| orientation.turned(*c)).collect(alloc)
}

/// The translation that takes each of the longest runs to the run at the same index in `others`.
fn shift_between(runs: &[Run], others: &[Run]) -> Option<(i64, i64)>
    requires runs { AreLongest runs.now }
    requires others { AreLongest others.now }
    ensures { ShiftsListTo (runs_cells runs.now) (runs_cells others.now) result }
{
    let from = runs.first()?;
    let to = others.first()?;
    let shift = run_shift(*from, *to);
    if are_shifted_to(runs, others, shift) {
        Some(shift)
    } else {
        None
    }
}

/// The columns and rows from one run's first cell to the other's.
fn run_shift(from: Run, to: Run) -> (i64, i64)
    ensures columns { result.0 ≡ to.first -ℤ from.first }
    ensures rows { result.1 ≡ to.row -ℤ from.row }
{
    (
        i64::from(to.first) - i64::from(from.first),
        i64::from(to.row) - i64::from(from.row),
    )
}

/// Whether the shift takes each run to the run at the same index in `others`.
fn are_shifted_to(runs: &[Run], others: &[Run], shift: (i64, i64)) -> bool
    ensures { IsTrue result ↔ (map (moved_run shift.0 shift.1) runs.now ≡ others.now) }
{
    runs.len() == others.len()
        && runs
            .iter()
            .zip(others)
            .all(|(run, other)| is_shifted_to(*run, *other, shift))
}

/// Whether the shift takes the run to the other.
fn is_shifted_to(run: Run, other: Run, shift: (i64, i64)) -> bool
    ensures { IsTrue result ↔ (moved_run shift.0 shift.1 run ≡ other) }
{
    let own = run_shift(run, other);
    if own.0 != shift.0 {
        return false;
    }
    if own.1 != shift.1 {
        return false;
    }
    run.len == other.len
}

/// The box of the cells of runs, if there are any.
fn bounds_of(runs: &[Run]) -> Option<Bounds>
    requires runs { AreLongest runs.now }
    requires inside { All (IsCellWithin PLANE) (runs_cells runs.now) }
    ensures none { IsNone result ↔ (runs_cells runs.now ≡ []) }
    ensures is_box { IfSome result (λ b. IsBox (set.from_list (runs_cells runs.now)) b.left b.top b.width b.height) }
{
    let first = runs.first()?;
    let mut corners = Corners::of(first.first_cell(), first.last_cell());
    for run in runs {
        corners.include(run.first_cell(), run.last_cell());
    }
    Some(corners.bounds())
}

/// The least and the greatest coordinates so far.
#[derive(Clone, Copy)]
struct Corners {
    left: i64,
    right: i64,
    top: i64,
    bottom: i64,
}

impl Corners {
    fn of(first: Cell, last: Cell) -> Corners
        ensures left { result.left ≡ first.column }
        ensures right { result.right ≡ last.column }
        ensures top { result.top ≡ first.row }
        ensures bottom { result.bottom ≡ last.row }
    {
        Corners {
            left: first.column,
            right: last.column,
            top: first.row,
            bottom: last.row,
        }
    }

    fn include(&mut self, first: Cell, last: Cell)
        ensures left { self.new.left ≡ int_min self.old.left first.column }
        ensures right { self.new.right ≡ int_max self.old.right last.column }
        ensures top { self.new.top ≡ int_min self.old.top first.row }
        ensures bottom { self.new.bottom ≡ int_max self.old.bottom last.row }
    {
        self.left = self.left.min(first.column);
        self.right = self.right.max(last.column);
        self.top = self.top.min(first.row);
        self.bottom = self.bottom.max(last.row);
    }

    fn bounds(self) -> Bounds
        requires columns { self.left ≤ℤ self.right }
        requires rows { self.top ≤ℤ self.bottom }
        requires low { (neg_ℤ (pos PLANE) ≤ℤ self.left) × (neg_ℤ (pos PLANE) ≤ℤ self.top) }
        requires high { (self.right ≤ℤ pos PLANE) × (self.bottom ≤ℤ pos PLANE) }
        ensures left { result.left ≡ self.left }
        ensures top { result.top ≡ self.top }
        ensures right { (result.left +ℤ pos result.width) -ℤ pos 1 ≡ self.right }
        ensures bottom { (result.top +ℤ pos result.height) -ℤ pos 1 ≡ self.bottom }
    {
        Bounds {
            left: self.left,
            top: self.top,
            width: (self.right - self.left + 1) as u64,
            height: (self.bottom - self.top + 1) as u64,
        }
    }
}
