//! How many generations of a set a frame has room for.
ghost use Rattle.std.specs.Prelude.{◌≡◌, ℕ, ℤ, pos, ◌+◌, ◌*◌, ◌<◌, ◌≤◌, ◌+ℤ◌, ◌-ℤ◌, ◌≤ℤ◌, neg_ℤ, true, IsTrue, IsFalse, IsNone, IfSome, length, slice_index_or};
ghost use Rattle.std.specs.Int.{bit_at};
ghost use Rattle.std.specs.FinSet as set;
ghost use Rattle.life_core.specs.declared.cell.Cell.{Cell};
ghost use Rattle.life_core.specs.Pattern.{IsWithin};
ghost use Rattle.life_core.specs.PackedRow.{place};
ghost use Rattle.life_core.specs.PackedFrameState.{framed, IsFrame};
ghost use Rattle.life_core.specs.PackedMarginsState.{HasSlack, IsWhole, IsWider, checked_room};

use crate::cell::PLANE;
use crate::packed::frame::Frame;

/// The left half of the columns of a word.
const LOW_HALF: u64 = 0xFFFF_FFFF;

/// The right half of the columns of a word.
const HIGH_HALF: u64 = 0xFFFF_FFFF_0000_0000;

/// A wider frame, and how many words it adds on the left and rows at the top.
#[derive(Clone, Copy)]
pub(crate) struct Wider {
    pub(crate) frame: Frame,
    pub(crate) left: usize,
    pub(crate) top: usize,
}

/// For how many generations there is room after [`with_room`], which checks the margins only when none is left.
pub(crate) fn room_after_check(slack: u32) -> u32
    ensures { result ≡ checked_room slack }
{
    if slack == 0 { 31 } else { slack }
}

/// A wider frame, if the known room is used up and a margin is too small for 31 more generations. That side grows in
/// proportion to the frame's size, so that it grows rarely.
pub(crate) fn with_room(frame: Frame, rows: &[u64], slack: u32) -> Option<Wider>
    requires frame { IsFrame frame }
    requires whole { IsWhole frame }
    requires rows { frame.height * frame.words ≡ length rows.now }
    requires within { IsWithin PLANE (framed frame rows.now) }
    requires slack { HasSlack frame slack (framed frame rows.now) }
    ensures none { IsNone result → HasSlack frame (checked_room slack) (framed frame rows.now) }
    ensures frame { IfSome result (λ w. IsFrame w.frame) }
    ensures whole { IfSome result (λ w. IsWhole w.frame) }
    ensures wider { IfSome result (IsWider frame) }
    ensures room { IfSome result (λ w. HasSlack w.frame (checked_room slack) (framed frame rows.now)) }
{
    if slack > 0 {
        return None;
    }
    let left = left_growth(frame, rows);
    let right = right_growth(frame, rows);
    let top = top_growth(frame, rows);
    let bottom = bottom_growth(frame, rows);
    if left + right + top + bottom == 0 {
        return None;
    }
    Some(Wider {
        frame: frame.grown(left, right, top, bottom),
        left: 2 * left,
        top: 16 * top,
    })
}

/// By how many blocks a side grows: an eighth of the present number, but at most 60, plus `least`.
fn growth(size: usize, least: usize) -> usize
    requires { least ≤ 4 }
    ensures some { least ≤ result }
    ensures most { result ≤ 64 }
{
    least + (size / 8).min(60)
}

/// How many columns of blocks to add on the left: 0 if the margin there is free.
fn left_growth(frame: Frame, rows: &[u64]) -> usize
    requires frame { IsFrame frame }
    requires rows { frame.height * frame.words ≡ length rows.now }
    requires within { IsWithin PLANE (framed frame rows.now) }
    ensures most { result ≤ 64 }
    ensures near { neg_ℤ (pos 1_100_000_000) ≤ℤ (frame.left -ℤ pos (128 * result)) }
    ensures free { (c : Cell) → set.contains (framed frame rows.now) c ≡ true → (frame.left +ℤ pos 32) ≤ℤ (c.column +ℤ pos (128 * result)) }
{
    if left_is_free(frame, rows) {
        0
    } else {
        growth(frame.words / 2, 1)
    }
}

/// How many columns of blocks to add on the right.
fn right_growth(frame: Frame, rows: &[u64]) -> usize
    requires frame { IsFrame frame }
    requires rows { frame.height * frame.words ≡ length rows.now }
    requires within { IsWithin PLANE (framed frame rows.now) }
    ensures most { result ≤ 64 }
    ensures near { (frame.left +ℤ pos (64 * (frame.words + 2 * result))) ≤ℤ pos 1_100_000_000 }
    ensures free { (c : Cell) → set.contains (framed frame rows.now) c ≡ true → (c.column +ℤ pos 33) ≤ℤ (frame.left +ℤ pos (64 * (frame.words + 2 * result))) }
{
    if right_is_free(frame, rows) {
        0
    } else {
        growth(frame.words / 2, 1)
    }
}

/// How many lines of blocks to add at the top.
fn top_growth(frame: Frame, rows: &[u64]) -> usize
    requires frame { IsFrame frame }
    requires whole { IsWhole frame }
    requires rows { frame.height * frame.words ≡ length rows.now }
    requires within { IsWithin PLANE (framed frame rows.now) }
    ensures most { result ≤ 64 }
    ensures near { neg_ℤ (pos 1_100_000_000) ≤ℤ (frame.top -ℤ pos (16 * result)) }
    ensures free { (c : Cell) → set.contains (framed frame rows.now) c ≡ true → (frame.top +ℤ pos 48) ≤ℤ (c.row +ℤ pos (16 * result)) }
{
    if top_is_free(frame, rows) {
        0
    } else {
        growth(frame.height / 16, 4)
    }
}

/// How many lines of blocks to add at the bottom.
fn bottom_growth(frame: Frame, rows: &[u64]) -> usize
    requires frame { IsFrame frame }
    requires whole { IsWhole frame }
    requires rows { frame.height * frame.words ≡ length rows.now }
    requires within { IsWithin PLANE (framed frame rows.now) }
    ensures most { result ≤ 64 }
    ensures near { (frame.top +ℤ pos (frame.height + 16 * result)) ≤ℤ pos 1_100_000_000 }
    ensures free { (c : Cell) → set.contains (framed frame rows.now) c ≡ true → (c.row +ℤ pos 49) ≤ℤ (frame.top +ℤ pos (frame.height + 16 * result)) }
{
    if bottom_is_free(frame, rows) {
        0
    } else {
        growth(frame.height / 16, 4)
    }
}

/// Whether the 32 leftmost columns have no live cell. Those outside the plane never have one.
fn left_is_free(frame: Frame, rows: &[u64]) -> bool
    requires frame { IsFrame frame }
    requires rows { frame.height * frame.words ≡ length rows.now }
    requires within { IsWithin PLANE (framed frame rows.now) }
    ensures free { IsTrue result → (c : Cell) → set.contains (framed frame rows.now) c ≡ true → (frame.left +ℤ pos 32) ≤ℤ c.column }
    ensures near { IsFalse result → (neg_ℤ (pos PLANE) -ℤ pos 32) ≤ℤ frame.left }
{
    frame.left < -i64::from(PLANE) - 32 || column_is_dead(frame, rows, 0, LOW_HALF)
}

/// Whether the 32 rightmost columns have no live cell.
fn right_is_free(frame: Frame, rows: &[u64]) -> bool
    requires frame { IsFrame frame }
    requires rows { frame.height * frame.words ≡ length rows.now }
    requires within { IsWithin PLANE (framed frame rows.now) }
    ensures free { IsTrue result → (c : Cell) → set.contains (framed frame rows.now) c ≡ true → (c.column +ℤ pos 33) ≤ℤ (frame.left +ℤ pos (64 * frame.words)) }
    ensures near { IsFalse result → (frame.left +ℤ pos (64 * frame.words)) ≤ℤ pos (PLANE + 33) }
{
    frame.left + (64 * frame.words) as i64 > i64::from(PLANE) + 33
        || column_is_dead(frame, rows, frame.words - 1, HIGH_HALF)
}

/// Whether the first three lines of blocks have no live cell.
fn top_is_free(frame: Frame, rows: &[u64]) -> bool
    requires frame { IsFrame frame }
    requires whole { IsWhole frame }
    requires rows { frame.height * frame.words ≡ length rows.now }
    requires within { IsWithin PLANE (framed frame rows.now) }
    ensures free { IsTrue result → (c : Cell) → set.contains (framed frame rows.now) c ≡ true → (frame.top +ℤ pos 48) ≤ℤ c.row }
    ensures near { IsFalse result → (neg_ℤ (pos PLANE) -ℤ pos 48) ≤ℤ frame.top }
{
    frame.top < -i64::from(PLANE) - 48 || rows_are_dead(frame, rows, 0, 48)
}

/// Whether the last three lines of blocks have no live cell.
fn bottom_is_free(frame: Frame, rows: &[u64]) -> bool
    requires frame { IsFrame frame }
    requires whole { IsWhole frame }
    requires rows { frame.height * frame.words ≡ length rows.now }
    requires within { IsWithin PLANE (framed frame rows.now) }
    ensures free { IsTrue result → (c : Cell) → set.contains (framed frame rows.now) c ≡ true → (c.row +ℤ pos 49) ≤ℤ (frame.top +ℤ pos frame.height) }
    ensures near { IsFalse result → (frame.top +ℤ pos frame.height) ≤ℤ pos (PLANE + 49) }
{
    frame.top + frame.height as i64 > i64::from(PLANE) + 49
        || rows_are_dead(frame, rows, frame.height - 48, frame.height)
}

/// Whether word `j` of every row has no bit of the mask set.
fn column_is_dead(frame: Frame, rows: &[u64], j: usize, mask: u64) -> bool
    requires frame { IsFrame frame }
    requires j { j < frame.words }
    requires rows { frame.height * frame.words ≡ length rows.now }
    ensures { IsTrue result → (y i : ℕ) → y < frame.height → i < 64 → bit_at mask i ≡ 1 → place rows.now (y * (64 * frame.words) + (64 * j + i)) ≡ 0 }
{
    let mut all = 0;
    for y in 0..frame.height {
        all |= rows[y * frame.words + j];
    }
    all & mask == 0
}

/// Whether all places of the rows `from..to` are dead.
fn rows_are_dead(frame: Frame, rows: &[u64], from: usize, to: usize) -> bool
    requires ends { (from ≤ to) × (to ≤ frame.height) }
    requires rows { frame.height * frame.words ≡ length rows.now }
    ensures { IsTrue result → (x y : ℕ) → from ≤ y → y < to → x < 64 * frame.words → place rows.now (y * (64 * frame.words) + x) ≡ 0 }
{
    for y in from..to {
        if !row_is_dead(frame, rows, y) {
            return false;
        }
    }
    true
}

/// Whether all places of row `y` are dead.
pub(crate) fn row_is_dead(frame: Frame, rows: &[u64], y: usize) -> bool
    requires y { y < frame.height }
    requires rows { frame.height * frame.words ≡ length rows.now }
    ensures words { IsTrue result → (j : ℕ) → j < frame.words → slice_index_or rows.now (y * frame.words + j) 0 ≡ 0 }
    ensures places { IsTrue result → (x : ℕ) → x < 64 * frame.words → place rows.now (y * (64 * frame.words) + x) ≡ 0 }
{
    for j in 0..frame.words {
        if rows[y * frame.words + j] != 0 {
            return false;
        }
    }
    true
}
