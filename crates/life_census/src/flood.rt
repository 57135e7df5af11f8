//! Finds a cluster from one of its runs, by a flood fill over runs.
ghost use Rattle.std.specs.Prelude.{◌≡◌, ◌<◌, ◌≤◌, pos, ◌+ℤ◌, ◌-ℤ◌, true, false, IfOk, OnOk, length, slice_index_or};
ghost use Rattle.std.specs.Bool.{MatchBool};
ghost use Rattle.std.specs.List.{All};
ghost use Rattle.std.specs.FinSet as set;
ghost use Rattle.life_core.specs.declared.cell.Cell.{Cell as CellValue};
ghost use Rattle.life_code.specs.Apart.{within_two};
ghost use Rattle.life_core.specs.declared.runs.Run.{Run as RunValue};
ghost use Rattle.life_core.specs.Runs.{cells_in, first_cell, AreRunsInOrder};
ghost use Rattle.life_census.specs.FloodState.{IsFlood, IsClear, IsRound, IsTaken, HasGrown, AreKept, BeginsBefore, BeginsAtOrAfter, IsFilledAt};

use life_core::{Cell, Run, first_from};
use std::alloc::{AllocError, Allocator};

/// Moves the runs that are connected to the start out of `left`, and leaves an empty run in the place of each.
pub fn flooded<A: Allocator + Copy>(
    alloc: A,
    left: &mut [Run],
    start: usize,
) -> Result<Vec<Run, A>, AllocError>
    requires start { IsFilledAt left.old start }
    requires order { AreRunsInOrder left.old }
    ensures flood { IfOk result (λ v. (d : RunValue) → IsFlood (cells_in left.old) (first_cell (slice_index_or left.old start d)) (cells_in v.items) (cells_in left.new)) }
    ensures clear { IfOk result (λ v. IsClear (cells_in v.items) (cells_in left.new)) }
    ensures filled { IfOk result (λ v. All (λ r. 1 ≤ r.len) v.items) }
    ensures kept { OnOk result (AreKept left.old left.new) }
{
    let mut cluster = Vec::new(alloc);
    take_run(left, &mut cluster, start)?;
    let mut i = 0;
    while i < cluster.len() {
        let run = cluster[i];
        take_near(left, &mut cluster, run)?;
        i += 1;
    }
    Ok(cluster)
}

/// Moves all runs that are near this one, in the five rows from two above it to two below.
fn take_near<A: Allocator + Copy>(
    left: &mut [Run],
    cluster: &mut Vec<Run, A>,
    run: Run,
) -> Result<(), AllocError>
    requires { AreRunsInOrder left.old }
    ensures grown { OnOk result (HasGrown run left.old cluster.old.items left.new cluster.new.items) }
    ensures clear { OnOk result ((c : CellValue) → IsRound run c → set.contains (cells_in left.new) c ≡ false) }
{
    let row = i64::from(run.row);
    for near in row - 2..row + 3 {
        take_row(left, cluster, run, near)?;
    }
    Ok(())
}

/// Moves the runs of one row that are near this one. A binary search finds the first.
fn take_row<A: Allocator + Copy>(
    left: &mut [Run],
    cluster: &mut Vec<Run, A>,
    run: Run,
    row: i64,
) -> Result<(), AllocError>
    requires order { AreRunsInOrder left.old }
    requires row { within_two run.row row ≡ true }
    ensures grown { OnOk result (HasGrown run left.old cluster.old.items left.new cluster.new.items) }
    ensures clear { OnOk result ((c : CellValue) → IsRound run c → c.row ≡ row → set.contains (cells_in left.new) c ≡ false) }
{
    let (from, to) = reach(run);
    let mut i = first_from(left, Cell { row, column: from });
    while i < left.len() && begins_before(left[i], row, to) {
        take_run(left, cluster, i)?;
        i += 1;
    }
    Ok(())
}

/// Moves one run, unless it is empty because it was moved before.
fn take_run<A: Allocator + Copy>(
    left: &mut [Run],
    cluster: &mut Vec<Run, A>,
    i: usize,
) -> Result<(), AllocError>
    requires { i < length left.old }
    ensures { OnOk result ((d : RunValue) → IsTaken (slice_index_or left.old i d) i left.old cluster.old.items left.new cluster.new.items) }
{
    let run = left[i];
    if run.len > 0 {
        cluster.push(run)?;
        left[i] = Run { len: 0, ..run };
    }
    Ok(())
}

/// The columns at most 2 away from the run: the first of them, and the one after the last.
fn reach(run: Run) -> (i64, i64)
    ensures from { result.0 ≡ run.first -ℤ pos 2 }
    ensures to { result.1 ≡ (run.first +ℤ pos run.len) +ℤ pos 2 }
{
    (i64::from(run.first) - 2, run.end() + 2)
}

/// Compares the first cell of the run with a cell, by row and then by column.
fn begins_before(run: Run, row: i64, column: i64) -> bool
    ensures { MatchBool result (BeginsBefore run row column) (BeginsAtOrAfter run row column) }
{
    let own = i64::from(run.row);
    own < row || own == row && i64::from(run.first) < column
}
