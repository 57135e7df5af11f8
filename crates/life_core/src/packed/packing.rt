//! Writing sets of cells into packed words, and listing them.
ghost use Rattle.std.specs.Prelude.{◌≡◌, ◌⊎◌, ℕ, ◌+◌, ◌*◌, ◌^◌, ◌<◌, ◌≤◌, ◌||◌, IfOk, OnOk, FitsSigned, take, drop, ◌++◌, pos, ◌+ℤ◌, length, map, slice_index_or};
ghost use Rattle.std.specs.Int.{w64};
ghost use Rattle.std.specs.List.{All};
ghost use Rattle.std.specs.FinSet as set;
ghost use Rattle.life_core.specs.declared.cell.Cell.{Cell};
ghost use Rattle.life_core.specs.Cell.{moved_cell};
ghost use Rattle.life_core.specs.PackedRow.{place};
ghost use Rattle.life_core.specs.PackedFrameState.{cell_of, set_places, places_below, framed, IsFrame, IsIn};
ghost use Rattle.life_core.specs.PackedMarginsState.{IsWider};
ghost use Rattle.life_core.specs.Runs.{has_cell, run_cells, runs_cells, AreLongest};

use crate::cell::Cell;
use crate::packed::frame::Frame;
use crate::packed::margins::Wider;
use crate::runs::{Run, Runs};
use std::alloc::{AllocError, Allocator};

/// Sets `len` bits from place `from` on, a word at a time.
fn set_bits(rows: &mut [u64], from: usize, len: usize)
    requires within { from + len ≤ 64 * length rows.old }
    requires few { from + len < 2 ^ 63 }
    ensures len { length rows.new ≡ length rows.old }
    ensures inside { (p : ℕ) → from ≤ p → p < from + len → place rows.new p ≡ 1 }
    ensures outside { (p : ℕ) → (p < from) ⊎ (from + len ≤ p) → place rows.new p ≡ place rows.old p }
{
    let end = from + len;
    let mut next = from;
    while next < end {
        let count = (64 - next % 64).min(end - next);
        rows[next / 64] |= (u64::MAX >> (64 - count)) << (next % 64);
        next += count;
    }
}

/// Makes the cells of the run live.
fn put_run(frame: Frame, run: Run, rows: &mut [u64])
    requires frame { IsFrame frame }
    requires rows { frame.height * frame.words ≡ length rows.old }
    requires some { 1 ≤ run.len }
    requires cells { All (IsIn frame.left frame.top (64 * frame.words) frame.height) (run_cells run) }
    ensures len { length rows.new ≡ length rows.old }
    ensures cells { (c : Cell) → set.contains (framed frame rows.new) c ≡ (has_cell (run_cells run) c || set.contains (framed frame rows.old) c) }
{
    let (x, y) = frame.offset(run.first_cell());
    set_bits(rows, y * (64 * frame.words) + x, run.len as usize);
}

/// Makes the cells of the runs live.
fn put_runs(frame: Frame, runs: &[Run], rows: &mut [u64])
    requires frame { IsFrame frame }
    requires longest { AreLongest runs.now }
    requires rows { frame.height * frame.words ≡ length rows.old }
    requires cells { All (IsIn frame.left frame.top (64 * frame.words) frame.height) (runs_cells runs.now) }
    ensures len { length rows.new ≡ length rows.old }
    ensures cells { (c : Cell) → set.contains (framed frame rows.new) c ≡ (has_cell (runs_cells runs.now) c || set.contains (framed frame rows.old) c) }
{
    for run in runs {
        put_run(frame, *run, rows);
    }
}

/// This many words with no bit set.
pub(crate) fn zeros<A: Allocator>(alloc: A, n: usize) -> Result<Vec<u64, A>, AllocError>
    ensures len { IfOk result (λ v. length v.items ≡ n) }
    ensures zeros { IfOk result (λ v. (j : ℕ) → slice_index_or v.items j 0 ≡ 0) }
{
    vec![in alloc; 0; n]
}

/// The words of a frame in which exactly these cells are live.
pub(crate) fn words_of<A: Allocator>(
    alloc: A,
    frame: Frame,
    cells: &Runs<A>,
) -> Result<Vec<u64, A>, AllocError>
    requires frame { IsFrame frame }
    requires cells { All (IsIn frame.left frame.top (64 * frame.words) frame.height) cells.now }
    ensures len { IfOk result (λ v. frame.height * frame.words ≡ length v.items) }
    ensures cells { IfOk result (λ v. framed frame v.items ≡ set.from_list cells.now) }
{
    let mut rows = zeros(alloc, frame.height * frame.words)?;
    put_runs(frame, cells.runs(), &mut rows);
    Ok(rows)
}

/// The cells that are live, by row and then by column.
pub(crate) fn list_cells<A: Allocator>(
    alloc: A,
    frame: Frame,
    rows: &[u64],
) -> Result<Runs<A>, AllocError>
    requires frame { IsFrame frame }
    requires rows { frame.height * frame.words ≡ length rows.now }
    ensures { IfOk result (λ v. v ≡ map (cell_of frame.left frame.top (64 * frame.words)) (set_places rows.now)) }
{
    let mut cells = Runs::new(alloc);
    let mut k = next_word(rows, 0);
    while k < rows.len() {
        list_word(frame, rows, k, &mut cells)?;
        k = next_word(rows, k + 1);
    }
    Ok(cells)
}

/// Skips dead words from `k` on, four at a time. Stops at a group with a live cell, or if fewer than four are left.
fn skip_dead(rows: &[u64], k: usize) -> usize
    requires { k ≤ length rows.now }
    ensures after { k ≤ result }
    ensures inside { result ≤ length rows.now }
    ensures dead { (j : ℕ) → k ≤ j → j < result → slice_index_or rows.now j 0 ≡ 0 }
{
    let mut next = k;
    while rows.len() - next >= 4 {
        if rows[next] | rows[next + 1] | rows[next + 2] | rows[next + 3] != 0 {
            return next;
        }
        next += 4;
    }
    next
}

/// The first word from `k` on that has a live cell, or the number of words.
fn next_word(rows: &[u64], k: usize) -> usize
    requires { k ≤ length rows.now }
    ensures after { k ≤ result }
    ensures inside { result ≤ length rows.now }
    ensures dead { (j : ℕ) → k ≤ j → j < result → slice_index_or rows.now j 0 ≡ 0 }
{
    let start = skip_dead(rows, k);
    for j in start..rows.len() {
        if rows[j] != 0 {
            return j;
        }
    }
    rows.len()
}

/// Adds the cells of word `k` to those of the words before it. It steps from one run of live cells to the next, so that no branch depends
/// on a single bit.
fn list_word<A: Allocator>(
    frame: Frame,
    rows: &[u64],
    k: usize,
    cells: &mut Runs<A>,
) -> Result<(), AllocError>
    requires frame { IsFrame frame }
    requires rows { frame.height * frame.words ≡ length rows.now }
    requires word { k < length rows.now }
    requires cells { cells.old ≡ map (cell_of frame.left frame.top (64 * frame.words)) (places_below rows.now (64 * k)) }
    ensures { OnOk result (cells.new ≡ map (cell_of frame.left frame.top (64 * frame.words)) (places_below rows.now (64 * (k + 1)))) }
{
    let mut left = rows[k];
    if left == 0 {
        return Ok(());
    }
    let start = frame.cell(64 * k);
    let mut i = 0;
    while left != 0 {
        let dead = left.trailing_zeros();
        let from_live = left >> dead;
        let len = from_live.trailing_ones();
        let first = Run::of(to_the_right(start, i + dead));
        cells.push_run(first.with_len(len))?;
        left = from_live >> (len - 1) >> 1;
        i += dead + len;
    }
    Ok(())
}

/// The cell `i` columns to the right.
pub(crate) fn to_the_right(cell: Cell, i: u32) -> Cell
    requires { FitsSigned w64 (cell.column +ℤ pos i) }
    ensures { result ≡ moved_cell (pos i) (pos 0) cell }
{
    Cell {
        row: cell.row,
        column: cell.column + i64::from(i),
    }
}

/// The words of the same set in a wider frame.
pub(crate) fn moved_rows<A: Allocator>(
    alloc: A,
    from: Frame,
    rows: &[u64],
    to: Wider,
) -> Result<Vec<u64, A>, AllocError>
    requires from { IsFrame from }
    requires to { IsFrame to.frame }
    requires wider { IsWider from to }
    requires rows { from.height * from.words ≡ length rows.now }
    ensures len { IfOk result (λ v. to.frame.height * to.frame.words ≡ length v.items) }
    ensures cells { IfOk result (λ v. framed to.frame v.items ≡ framed from rows.now) }
{
    let mut wider = zeros(alloc, to.frame.height * to.frame.words)?;
    copy_rows(from, rows, to, &mut wider);
    Ok(wider)
}

/// Copies all rows into the rows of a wider frame, which are dead.
fn copy_rows(from: Frame, rows: &[u64], to: Wider, out: &mut [u64])
    requires from { IsFrame from }
    requires to { IsFrame to.frame }
    requires wider { IsWider from to }
    requires rows { from.height * from.words ≡ length rows.now }
    requires out { to.frame.height * to.frame.words ≡ length out.old }
    requires dead { (j : ℕ) → slice_index_or out.old j 0 ≡ 0 }
    ensures { framed to.frame out.new ≡ framed from rows.now }
{
    for y in 0..from.height {
        let start = (to.top + y) * to.frame.words + to.left;
        copy_at(
            out,
            start,
            &rows[y * from.words..y * from.words + from.words],
        );
    }
}

/// Copies the words into `out`, from index `start` on.
pub(crate) fn copy_at(out: &mut [u64], start: usize, words: &[u64])
    requires { start + length words.now ≤ length out.old }
    ensures { out.new ≡ take start out.old ++ (words.now ++ drop (start + length words.now) out.old) }
{
    out[start..start + words.len()].copy_from_slice(words);
}
