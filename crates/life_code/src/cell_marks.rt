//! The live cells of the box of 40 by 40 at the origin, with a flag for each cell, row by row.
ghost use Rattle.std.specs.Prelude.{◌≡◌, ◌≢◌, ◌<◌, ◌++◌, ◌∷◌, [], ℕ, List, MatchOption};
ghost use Rattle.life_core.specs.declared.cell.Cell.{Cell as CellValue};
ghost use Rattle.life_core.specs.Runs.{run_cells, runs_cells};
ghost use Rattle.life_code.specs.DecodeState.{cell_of_index};
ghost use Rattle.life_code.specs.CellMarksState.{Marks, Shows};

use life_core::{Cell, Pattern, Run};
use std::alloc::Allocator;

/// `None` if the cell lies outside the box.
fn index_of(cell: Cell) -> Option<u16>
    ensures { MatchOption result ((i : ℕ) → i < 1600 → cell ≢ cell_of_index i) (λ i. (i < 1600) × (cell ≡ cell_of_index i)) }
{
    let Ok(row) = u16::try_from(cell.row) else {
        return None;
    };
    let Ok(column) = u16::try_from(cell.column) else {
        return None;
    };
    if row >= 40 {
        return None;
    }
    if column >= 40 {
        return None;
    }
    Some(40 * row + column)
}

/// Ignores a cell outside the box.
fn mark_cell(flags: &mut [bool; 1600], cell: Cell)
    ensures { (cells : List CellValue) → Marks flags.old cells → Marks flags.new (cells ++ cell ∷ []) }
{
    if let Some(index) = index_of(cell) {
        flags[usize::from(index)] = true;
    }
}

fn mark_run(flags: &mut [bool; 1600], run: Run)
    ensures { (cells : List CellValue) → Marks flags.old cells → Marks flags.new (cells ++ run_cells run) }
{
    for i in 0..run.len {
        mark_cell(flags, run.cell(i));
    }
}

fn mark_runs(runs: &[Run]) -> [bool; 1600]
    ensures { Marks result (runs_cells runs.now) }
{
    let mut flags = [false; 1600];
    for run in runs {
        mark_run(&mut flags, *run);
    }
    flags
}

/// Copies the pattern into a box of flags, one for each cell.
pub(crate) fn marked<A: Allocator>(pattern: &Pattern<A>) -> [bool; 1600]
    ensures { Shows result pattern.now }
{
    mark_runs(pattern.cells().runs())
}
