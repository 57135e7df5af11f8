//! Translations from one set in packed words to another.
ghost use Rattle.std.specs.Prelude.{◌≡◌, ◌↔◌, ◌+◌, ◌*◌, ◌<◌, get_or, nat_eq, ◌≤◌, ◌-ℤ◌, ◌≤ℤ◌, neg_ℤ, pos, false, IfSome, IsNone, IsTrue, length};
ghost use Rattle.std.specs.FinSet as set;
ghost use Rattle.life_core.specs.declared.cell.Cell.{Cell};
ghost use Rattle.life_core.specs.Cell.{IsCellWithin, moved_cell};
ghost use Rattle.life_core.specs.Pattern.{IsWithin, ShiftsTo};
ghost use Rattle.life_core.specs.PackedRow.{place};
ghost use Rattle.life_core.specs.PackedFrameState.{framed, cell_of, IsFrame};
ghost use Rattle.life_core.specs.PackedShiftsState.{IsFirst, Covers, CoversWord};

use crate::cell::{Cell, PLANE};
use crate::packed::frame::Frame;
use crate::packed::packing::to_the_right;

/// The translation, columns and rows, that takes the set of these words to the set of the others. `None` if the set is
/// empty or there is no such translation.
pub(crate) fn shift_of_words(
    frame: Frame,
    rows: &[u64],
    to: Frame,
    others: &[u64],
) -> Option<(i64, i64)>
    requires frame { IsFrame frame }
    requires rows { frame.height * frame.words ≡ length rows.now }
    requires within { IsWithin PLANE (framed frame rows.now) }
    requires to { IsFrame to }
    requires others { to.height * to.words ≡ length others.now }
    requires others_within { IsWithin PLANE (framed to others.now) }
    ensures { ShiftsTo (framed frame rows.now) (framed to others.now) result }
{
    let first = first_cell(frame, rows)?;
    let other = first_cell(to, others)?;
    let there = shift_of(first.1, other.1);
    let back = shift_of(other.1, first.1);
    // The search for a period compares a set with later ones, which are mostly larger. Testing the later one first
    // usually fails within a few words.
    if !begins_covered(to, others, other.0, frame, rows, back) {
        return None;
    }
    if !covers(to, others, frame, rows, back) {
        return None;
    }
    if !covers(frame, rows, to, others, there) {
        return None;
    }
    Some(there)
}

/// The number of the first word with live cells, and the first of all live cells, by row and then by column.
fn first_cell(frame: Frame, rows: &[u64]) -> Option<(usize, Cell)>
    requires frame { IsFrame frame }
    requires rows { frame.height * frame.words ≡ length rows.now }
    ensures none { IsNone result → (c : Cell) → set.contains (framed frame rows.now) c ≡ false }
    ensures first { IfSome result (λ found. IsFirst (framed frame rows.now) found.1) }
{
    for k in 0..rows.len() {
        if rows[k] != 0 {
            let cell = to_the_right(frame.cell(64 * k), rows[k].trailing_zeros());
            return Some((k, cell));
        }
    }
    None
}

/// The most words that [`begins_covered`] compares.
const FIRST_WORDS: usize = 4;

/// Whether the translation takes the live cells of the first few words with any, from word `start` on, to live cells of
/// the others. A quick test before [`covers`]: shapes that differ mostly do so there.
fn begins_covered(
    frame: Frame,
    rows: &[u64],
    start: usize,
    to: Frame,
    others: &[u64],
    shift: (i64, i64),
) -> bool
    requires frame { IsFrame frame }
    requires rows { frame.height * frame.words ≡ length rows.now }
    requires to { IsFrame to }
    requires others { to.height * to.words ≡ length others.now }
    requires columns { (neg_ℤ (pos (2 * PLANE)) ≤ℤ shift.0) × (shift.0 ≤ℤ pos (2 * PLANE)) }
    requires rows_moved { (neg_ℤ (pos (2 * PLANE)) ≤ℤ shift.1) × (shift.1 ≤ℤ pos (2 * PLANE)) }
    ensures { Covers (framed frame rows.now) (framed to others.now) shift → IsTrue result }
{
    let mut left = FIRST_WORDS;
    for k in start..rows.len() {
        if rows[k] != 0 {
            if left == 0 {
                return true;
            }
            left -= 1;
            if !covers_at(frame, rows, k, to, others, shift) {
                return false;
            }
        }
    }
    true
}

/// Whether the translation takes each live cell of the words to one of the others. It begins with the last word, since
/// two stages of a growing shape often agree in their first cells and differ in their last.
fn covers(frame: Frame, rows: &[u64], to: Frame, others: &[u64], shift: (i64, i64)) -> bool
    requires frame { IsFrame frame }
    requires rows { frame.height * frame.words ≡ length rows.now }
    requires to { IsFrame to }
    requires others { to.height * to.words ≡ length others.now }
    requires columns { (neg_ℤ (pos (2 * PLANE)) ≤ℤ shift.0) × (shift.0 ≤ℤ pos (2 * PLANE)) }
    requires rows_moved { (neg_ℤ (pos (2 * PLANE)) ≤ℤ shift.1) × (shift.1 ≤ℤ pos (2 * PLANE)) }
    ensures { IsTrue result ↔ Covers (framed frame rows.now) (framed to others.now) shift }
{
    for passed in 0..rows.len() {
        let k = rows.len() - 1 - passed;
        if rows[k] != 0 && !covers_word(frame.cell(64 * k), rows[k], to, others, shift) {
            return false;
        }
    }
    true
}

/// Whether the translation takes each live cell of word `k` to one of the others.
fn covers_at(
    frame: Frame,
    rows: &[u64],
    k: usize,
    to: Frame,
    others: &[u64],
    shift: (i64, i64),
) -> bool
    requires frame { IsFrame frame }
    requires rows { frame.height * frame.words ≡ length rows.now }
    requires k { k < length rows.now }
    requires to { IsFrame to }
    requires others { to.height * to.words ≡ length others.now }
    requires columns { (neg_ℤ (pos (2 * PLANE)) ≤ℤ shift.0) × (shift.0 ≤ℤ pos (2 * PLANE)) }
    requires rows_moved { (neg_ℤ (pos (2 * PLANE)) ≤ℤ shift.1) × (shift.1 ≤ℤ pos (2 * PLANE)) }
    ensures { IsTrue result ↔ CoversWord (cell_of frame.left frame.top (64 * frame.words) (64 * k)) (get_or rows.now k 0) (framed to others.now) shift }
{
    rows[k] == 0 || covers_word(frame.cell(64 * k), rows[k], to, others, shift)
}

/// Whether the translation takes each live cell of a word, whose lowest place is the cell `start`, to
/// one of the others.
fn covers_word(start: Cell, word: u64, to: Frame, others: &[u64], shift: (i64, i64)) -> bool
    requires start { IsCellWithin (2 * PLANE) start }
    requires to { IsFrame to }
    requires others { to.height * to.words ≡ length others.now }
    requires columns { (neg_ℤ (pos (2 * PLANE)) ≤ℤ shift.0) × (shift.0 ≤ℤ pos (2 * PLANE)) }
    requires rows_moved { (neg_ℤ (pos (2 * PLANE)) ≤ℤ shift.1) × (shift.1 ≤ℤ pos (2 * PLANE)) }
    ensures { IsTrue result ↔ CoversWord start word (framed to others.now) shift }
{
    for i in 0..64_u32 {
        if word >> i & 1 == 1 && !is_live(to, others, moved_place(start, i, shift)) {
            return false;
        }
    }
    true
}

/// Where the translation takes the cell `i` columns to the right of `start`.
fn moved_place(start: Cell, i: u32, shift: (i64, i64)) -> Cell
    requires start { IsCellWithin (2 * PLANE) start }
    requires i { i < 64 }
    requires columns { (neg_ℤ (pos (2 * PLANE)) ≤ℤ shift.0) × (shift.0 ≤ℤ pos (2 * PLANE)) }
    requires rows { (neg_ℤ (pos (2 * PLANE)) ≤ℤ shift.1) × (shift.1 ≤ℤ pos (2 * PLANE)) }
    ensures { result ≡ moved_cell shift.0 shift.1 (moved_cell (pos i) (pos 0) start) }
{
    to_the_right(start, i).moved(shift.0, shift.1)
}

/// Whether the cell is live.
fn is_live(frame: Frame, rows: &[u64], cell: Cell) -> bool
    requires frame { IsFrame frame }
    requires rows { frame.height * frame.words ≡ length rows.now }
    ensures { result ≡ set.contains (framed frame rows.now) cell }
{
    if frame.has(cell) {
        let (x, y) = frame.offset(cell);
        is_set(rows, frame.words, x, y)
    } else {
        false
    }
}

/// Whether the bit in column `x` and row `y` is set.
fn is_set(rows: &[u64], words: usize, x: usize, y: usize) -> bool
    requires x { x < 64 * words }
    requires y { y * words + words ≤ length rows.now }
    ensures { result ≡ nat_eq (place rows.now (y * (64 * words) + x)) 1 }
{
    rows[y * words + x / 64] >> (x % 64) & 1 == 1
}

/// The columns and rows from one cell to another.
fn shift_of(from: Cell, to: Cell) -> (i64, i64)
    requires from { IsCellWithin PLANE from }
    requires to { IsCellWithin PLANE to }
    ensures columns { result.0 ≡ to.column -ℤ from.column }
    ensures rows { result.1 ≡ to.row -ℤ from.row }
{
    (to.column - from.column, to.row - from.row)
}
