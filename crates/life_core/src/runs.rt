//! Lists of cells, stored as runs: adjacent cells of a row.
ghost use Rattle.std.specs.Prelude.{◌≡◌, ◌↔◌, ◌≤◌, ◌<◌, ℕ, slice_index_or, ◌++◌, ◌∷◌, [], pos, neg_ℤ, ◌+ℤ◌, ◌≤ℤ◌, IsTrue, IfOk, OnOk, OnErr, length, map};
ghost use Rattle.std.specs.List.{All};
ghost use Rattle.std.specs.List.Sorted.{IsStrictlySortedBy};
ghost use Rattle.std.specs.FinSet as set;
ghost use Rattle.life_core.specs.declared.runs.Run.{Run as RunValue};
ghost use Rattle.life_core.specs.Cell.{cell_cmp, moved_cell, IsCellWithin};
ghost use Rattle.life_core.specs.Runs.{run_cells, runs_cells, first_cell, last_cell, moved_run, cells_in, IsBehind, IsAhead, in_run, IsRunWithin, IsRunBefore, AreRunsInOrder, IsRun, Joins, AreLongest, GainsBeginning};
ghost use Rattle.life_core.specs.RunsState.{is_before_cell, IsNear, JoinsLast, LastFits, IsLonger};

use crate::cell::{Cell, PLANE};
use std::alloc::{AllocError, Allocator, Global};
use std::marker::Model;

/// Adjacent cells of a row.
#[derive(Clone, Copy, Debug, PartialEq, Eq, PartialOrd, Ord)]
pub struct Run {
    pub row: i32,
    /// The least column.
    pub first: i32,
    /// How many cells there are.
    pub len: u32,
}

impl Run {
    /// The run of one cell.
    pub fn of(cell: Cell) -> Run
        requires { IsCellWithin 1_100_000_000 cell }
        ensures { result ≡ record { row = cell.row; first = cell.column; len = 1 } }
    {
        Run {
            row: cell.row as i32,
            first: cell.column as i32,
            len: 1,
        }
    }

    /// The run with the same first cell and `len` cells.
    pub(crate) fn with_len(self, len: u32) -> Run
        ensures { result ≡ record { row = self.row; first = self.first; len = len } }
    {
        Run { len, ..self }
    }

    /// The column after the last one.
    pub fn end(&self) -> i64
        ensures { result ≡ self.now.first +ℤ pos self.now.len }
    {
        i64::from(self.first) + i64::from(self.len)
    }

    /// The cell `i` columns to the right of the first.
    pub fn cell(&self, i: u32) -> Cell
        ensures { result ≡ record { row = self.now.row; column = self.now.first +ℤ pos i } }
    {
        Cell {
            row: i64::from(self.row),
            column: i64::from(self.first) + i64::from(i),
        }
    }

    /// The leftmost cell.
    pub(crate) fn first_cell(&self) -> Cell
        ensures { result ≡ first_cell self.now }
    {
        Cell {
            row: i64::from(self.row),
            column: i64::from(self.first),
        }
    }

    /// The rightmost cell, if the run is not empty.
    pub(crate) fn last_cell(&self) -> Cell
        ensures { result ≡ last_cell self.now }
    {
        Cell {
            row: i64::from(self.row),
            column: i64::from(self.first) + i64::from(self.len) - 1,
        }
    }

    /// The run moved by the columns and rows of `by`.
    fn moved(self, by: Cell) -> Run
        requires here { IsNear self }
        requires there { IsNear (moved_run by.column by.row self) }
        ensures { result ≡ moved_run by.column by.row self }
    {
        Run {
            row: (i64::from(self.row) + by.row) as i32,
            first: (i64::from(self.first) + by.column) as i32,
            len: self.len,
        }
    }

    /// Whether the run contains the cell.
    fn has(&self, cell: Cell) -> bool
        ensures { result ≡ in_run self.now cell }
    {
        i64::from(self.row) == cell.row
            && i64::from(self.first) <= cell.column
            && cell.column < self.end()
    }

    /// Whether both coordinates of every cell lie between `-k` and `k`. It needs to check only the first and the last.
    pub(crate) fn is_within(&self, k: u32) -> bool
        ensures { IsTrue result ↔ IsRunWithin k self.now }
    {
        self.first_cell().is_within(k) && self.last_cell().is_within(k)
    }

    /// Whether it ends before the other begins: in an earlier row, or further to the left.
    fn is_before(&self, other: Run) -> bool
        ensures { IsTrue result → IsRunBefore self.now other }
    {
        self.row < other.row || self.row == other.row && self.end() <= i64::from(other.first)
    }

    /// Whether the other run begins where this one ends.
    fn is_joined_by(&self, next: Run) -> bool
        ensures { IsTrue result ↔ Joins self.now next }
    {
        self.row == next.row && self.end() == i64::from(next.first)
    }
}

/// A list of cells, stored as its longest runs. Half a million cells of a soup take three megabytes.
#[derive(Debug, Drop)]
pub struct Runs<A: Allocator = Global> {
    runs: Vec<Run, A>,
    /// How many cells there are.
    len: usize,
}

impl<A: Allocator> Model for Runs<A> {
    ghost use Rattle.std.specs.Prelude.{List};
    ghost use Rattle.life_core.specs.declared.cell.Cell.{Cell};
    ghost use Rattle.life_core.specs.Runs.{runs_cells};
    ghost use Rattle.life_core.specs.RunsState.{coded_cell_list, IsRunList};

    ghost Value = { List Cell };

    ghost coded = { coded_cell_list };

    ghost view = { λ a. runs_cells a.runs.items };

    ghost invariant = { λ a. IsRunList a.runs.items a.len };
}

impl<A: Allocator> Runs<A> {
    /// No cells.
    pub fn new(alloc: A) -> Runs<A>
        ensures { result ≡ [] }
    {
        Runs {
            runs: Vec::new(alloc),
            len: 0,
        }
    }

    /// The list of these cells.
    pub fn of(alloc: A, cells: &[Cell]) -> Result<Runs<A>, AllocError>
        requires { All (IsCellWithin PLANE) cells.now }
        ensures { IfOk result (λ v. v ≡ cells.now) }
    {
        let mut runs = Runs::new(alloc);
        for cell in cells {
            runs.push(*cell)?;
        }
        Ok(runs)
    }

    /// A copy of the list.
    pub fn copy(&self, alloc: A) -> Result<Runs<A>, AllocError>
        ensures { IfOk result (λ v. v ≡ self.now) }
    {
        Ok(Runs {
            runs: Vec::from_slice(alloc, &self.runs)?,
            len: self.len,
        })
    }

    /// The cells, one by one.
    pub fn list(&self, alloc: A) -> Result<Vec<Cell, A>, AllocError>
        ensures { IfOk result (λ v. v.items ≡ self.now) }
    {
        let mut cells = Vec::new(alloc);
        list_runs(&mut cells, self.runs())?;
        Ok(cells)
    }

    /// The cells moved by the columns and rows of `by`; reuses the memory.
    pub(crate) fn into_moved(self, by: Cell) -> Runs<A>
        requires here { All (IsCellWithin PLANE) self }
        requires there { All (λ c. IsCellWithin PLANE (moved_cell by.column by.row c)) self }
        ensures { result ≡ map (moved_cell by.column by.row) self }
    {
        let Runs { mut runs, len } = self;
        move_runs(&mut runs, by);
        Runs { runs, len }
    }

    /// The allocator of the list's memory.
    pub(crate) fn allocator(&self) -> &A {
        self.runs.allocator()
    }

    /// How many cells there are.
    pub fn len(&self) -> usize
        ensures { result ≡ length self.now }
    {
        self.len
    }

    /// The longest runs, in the order of the cells.
    pub fn runs(&self) -> &[Run]
        ensures cells { runs_cells result.now ≡ self.now }
        ensures longest { AreLongest result.now }
    {
        self.runs.as_slice()
    }

    /// Appends the cells of a run. Besides out of memory, it fails if the number of cells overflows.
    pub fn push_run(&mut self, run: Run) -> Result<(), AllocError>
        requires run { IsRun run }
        requires end { (run.first +ℤ pos run.len) ≤ℤ pos 1_100_000_001 }
        ensures cells { OnOk result (self.new ≡ self.old ++ run_cells run) }
        ensures same { OnErr result (self.new ≡ self.old) }
    {
        let Some(len) = self.len.checked_add(run.len as usize) else {
            return Err(AllocError);
        };
        add_run(&mut self.runs, run)?;
        self.len = len;
        Ok(())
    }

    /// Appends a cell.
    pub fn push(&mut self, cell: Cell) -> Result<(), AllocError>
        requires { IsCellWithin 1_100_000_000 cell }
        ensures cell { OnOk result (self.new ≡ self.old ++ cell ∷ []) }
        ensures same { OnErr result (self.new ≡ self.old) }
    {
        self.push_run(Run::of(cell))
    }
}

/// Appends a run, or lengthens the last run if this one begins where it ends.
fn add_run<A: Allocator>(runs: &mut Vec<Run, A>, run: Run) -> Result<(), AllocError>
    requires run { IsRun run }
    requires end { (run.first +ℤ pos run.len) ≤ℤ pos 1_100_000_001 }
    requires longest { AreLongest runs.old.items }
    ensures cells { OnOk result (runs_cells runs.new.items ≡ runs_cells runs.old.items ++ run_cells run) }
    ensures longest { AreLongest runs.new.items }
    ensures same { OnErr result (runs.new.items ≡ runs.old.items) }
{
    if is_joined(runs, run) {
        lengthen_last(runs, run.len);
        return Ok(());
    }
    runs.push(run)?;
    Ok(())
}

/// Whether the run begins where the last one ends.
fn is_joined(runs: &[Run], run: Run) -> bool
    ensures { IsTrue result ↔ JoinsLast runs.now run }
{
    match runs.last() {
        Some(last) => last.is_joined_by(run),
        None => false,
    }
}

/// Adds `more` cells to the last run.
fn lengthen_last(runs: &mut [Run], more: u32)
    requires some { LastFits runs.old more }
    ensures { IsLonger runs.old runs.new more }
{
    let last = runs.len() - 1;
    runs[last].len += more;
}

/// Appends the cells of the runs to a list.
pub fn list_runs<A: Allocator>(cells: &mut Vec<Cell, A>, runs: &[Run]) -> Result<(), AllocError>
    ensures cells { OnOk result (cells.new.items ≡ cells.old.items ++ runs_cells runs.now) }
    ensures begun { OnErr result (GainsBeginning (runs_cells runs.now) cells.old.items cells.new.items) }
{
    for run in runs {
        list_run(cells, *run)?;
    }
    Ok(())
}

/// Appends the cells of the run to a list.
pub fn list_run<A: Allocator>(cells: &mut Vec<Cell, A>, run: Run) -> Result<(), AllocError>
    ensures cells { OnOk result (cells.new.items ≡ cells.old.items ++ run_cells run) }
    ensures begun { OnErr result (GainsBeginning (run_cells run) cells.old.items cells.new.items) }
{
    for i in 0..run.len {
        cells.push(run.cell(i))?;
    }
    Ok(())
}

/// Moves the runs by the columns and rows of `by`.
fn move_runs(runs: &mut [Run], by: Cell)
    requires here { All IsNear runs.old }
    requires there { All (λ r. IsNear (moved_run by.column by.row r)) runs.old }
    ensures { runs.new ≡ map (moved_run by.column by.row) runs.old }
{
    for run in runs.iter_mut() {
        *run = run.moved(by);
    }
}

/// Whether each run ends before the next begins, so that the cells ascend.
pub(crate) fn are_in_order(runs: &[Run]) -> bool
    requires { AreLongest runs.now }
    ensures { IsTrue result → IsStrictlySortedBy cell_cmp (runs_cells runs.now) }
{
    for i in 1..runs.len() {
        if !runs[i - 1].is_before(runs[i]) {
            return false;
        }
    }
    true
}

/// The index of the first run that contains the cell or comes after it, by binary search.
pub fn first_from(runs: &[Run], at: Cell) -> usize
    requires { AreRunsInOrder runs.now }
    ensures bound { result ≤ length runs.now }
    ensures behind { (k : ℕ) (d : RunValue) → k < result → IsBehind (slice_index_or runs.now k d) at.row at.column }
    ensures ahead { (k : ℕ) (d : RunValue) → result ≤ k → k < length runs.now → IsAhead (slice_index_or runs.now k d) at.row at.column }
{
    runs.partition_point(|run| ends_before_cell(*run, at))
}

/// Whether the run ends before the cell, by row and then by column.
fn ends_before_cell(run: Run, at: Cell) -> bool
    ensures { result ≡ is_before_cell run at.row at.column }
{
    let own = i64::from(run.row);
    own < at.row || own == at.row && run.end() <= at.column
}

/// Whether one of the runs, which are in order, contains the cell.
pub(crate) fn find_cell(runs: &[Run], cell: Cell) -> bool
    requires { AreRunsInOrder runs.now }
    ensures { result ≡ set.contains (cells_in runs.now) cell }
{
    let place = first_from(runs, cell);
    if place == runs.len() {
        return false;
    }
    runs[place].has(cell)
}
