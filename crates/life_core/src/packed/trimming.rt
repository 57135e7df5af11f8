//! Trimming frames to the room that their sets need.
ghost use Rattle.std.specs.Prelude.{◌≡◌, ℕ, pos, ◌+◌, ◌*◌, ◌<◌, ◌≤◌, ◌+ℤ◌, IsTrue, IfSome, length, slice_index_or};
ghost use Rattle.life_core.specs.PackedFrameState.{framed, IsFrame};
ghost use Rattle.life_core.specs.PackedMarginsState.{HasSlack, IsWhole};
ghost use Rattle.life_core.specs.PackedTrimmingState.{IsNarrower};

use crate::packed::frame::Frame;
use crate::packed::margins::row_is_dead;
use crate::packed::packing::copy_at;

/// A frame within a wider one, and how many words on the left and rows at the top it leaves out.
#[derive(Clone, Copy)]
pub(crate) struct Narrower {
    pub(crate) frame: Frame,
    pub(crate) left: usize,
    pub(crate) top: usize,
}

/// The frame without its outer dead blocks. It keeps up to three dead lines of blocks above and below the live cells,
/// and up to one dead column of blocks on each side. `None` if there is nothing to cut off.
pub(crate) fn narrowed(frame: Frame, rows: &[u64]) -> Option<Narrower>
    requires frame { IsFrame frame }
    requires whole { IsWhole frame }
    requires rows { frame.height * frame.words ≡ length rows.now }
    requires room { HasSlack frame 0 (framed frame rows.now) }
    ensures frame { IfSome result (IsNarrower frame rows.now) }
    ensures whole { IfSome result (λ n. IsWhole n.frame) }
    ensures room { IfSome result (λ n. HasSlack n.frame 0 (framed frame rows.now)) }
{
    let top = top_margin(frame, rows);
    let bottom = bottom_end(frame, rows, top);
    let left = left_margin(frame, rows);
    let right = right_end(frame, rows, left);
    let above = 16 * (top / 16).saturating_sub(3);
    let below = 16 * ((frame.height - bottom) / 16).saturating_sub(3);
    let before = 2 * (left / 2).saturating_sub(1);
    let after = 2 * ((frame.words - right) / 2).saturating_sub(1);
    if above + below + before + after == 0 {
        return None;
    }
    Some(Narrower {
        frame: part(
            frame,
            before,
            frame.words - after,
            above,
            frame.height - below,
        ),
        left: before,
        top: above,
    })
}

/// The frame of the words from `left` up to `right` of the rows from `top` up to `bottom`.
fn part(frame: Frame, left: usize, right: usize, top: usize, bottom: usize) -> Frame
    requires frame { IsFrame frame }
    requires columns { (left < right) × (right ≤ frame.words) }
    requires rows { (top < bottom) × (bottom ≤ frame.height) }
    ensures frame { IsFrame result }
    ensures left { result.left ≡ frame.left +ℤ pos (64 * left) }
    ensures top { result.top ≡ frame.top +ℤ pos top }
    ensures words { left + result.words ≡ right }
    ensures height { top + result.height ≡ bottom }
{
    Frame {
        left: frame.left + (64 * left) as i64,
        top: frame.top + top as i64,
        words: right - left,
        height: bottom - top,
    }
}

/// How many rows at the top are dead, not counting the last row.
fn top_margin(frame: Frame, rows: &[u64]) -> usize
    requires frame { IsFrame frame }
    requires rows { frame.height * frame.words ≡ length rows.now }
    ensures inside { result < frame.height }
    ensures dead { (y j : ℕ) → y < result → j < frame.words → slice_index_or rows.now (y * frame.words + j) 0 ≡ 0 }
{
    for y in 0..frame.height - 1 {
        if !row_is_dead(frame, rows, y) {
            return y;
        }
    }
    frame.height - 1
}

/// The row from which all rows are dead; at least the one after row `top`.
fn bottom_end(frame: Frame, rows: &[u64], top: usize) -> usize
    requires top { top < frame.height }
    requires rows { frame.height * frame.words ≡ length rows.now }
    ensures some { top < result }
    ensures inside { result ≤ frame.height }
    ensures dead { (y j : ℕ) → result ≤ y → y < frame.height → j < frame.words → slice_index_or rows.now (y * frame.words + j) 0 ≡ 0 }
{
    let mut end = frame.height;
    while end > top + 1 {
        if !row_is_dead(frame, rows, end - 1) {
            return end;
        }
        end -= 1;
    }
    end
}

/// How many columns of words on the left are dead, not counting the last column.
fn left_margin(frame: Frame, rows: &[u64]) -> usize
    requires frame { IsFrame frame }
    requires rows { frame.height * frame.words ≡ length rows.now }
    ensures inside { result < frame.words }
    ensures dead { (y j : ℕ) → y < frame.height → j < result → slice_index_or rows.now (y * frame.words + j) 0 ≡ 0 }
{
    for j in 0..frame.words - 1 {
        if !words_are_dead(frame, rows, j) {
            return j;
        }
    }
    frame.words - 1
}

/// The column of words from which all are dead; at least the one after column `left`.
fn right_end(frame: Frame, rows: &[u64], left: usize) -> usize
    requires left { left < frame.words }
    requires rows { frame.height * frame.words ≡ length rows.now }
    ensures some { left < result }
    ensures inside { result ≤ frame.words }
    ensures dead { (y j : ℕ) → y < frame.height → result ≤ j → j < frame.words → slice_index_or rows.now (y * frame.words + j) 0 ≡ 0 }
{
    let mut end = frame.words;
    while end > left + 1 {
        if !words_are_dead(frame, rows, end - 1) {
            return end;
        }
        end -= 1;
    }
    end
}

/// Whether the words `j` of all rows are dead.
fn words_are_dead(frame: Frame, rows: &[u64], j: usize) -> bool
    requires j { j < frame.words }
    requires rows { frame.height * frame.words ≡ length rows.now }
    ensures { IsTrue result → (y : ℕ) → y < frame.height → slice_index_or rows.now (y * frame.words + j) 0 ≡ 0 }
{
    for y in 0..frame.height {
        if rows[y * frame.words + j] != 0 {
            return false;
        }
    }
    true
}

/// Copies the part of the rows that is in a narrower frame.
pub(crate) fn copy_part(frame: Frame, rows: &[u64], to: Narrower, out: &mut [u64])
    requires frame { IsFrame frame }
    requires rows { frame.height * frame.words ≡ length rows.now }
    requires to { IsNarrower frame rows.now to }
    requires out { to.frame.height * to.frame.words ≡ length out.old }
    ensures { framed to.frame out.new ≡ framed frame rows.now }
{
    for y in 0..to.frame.height {
        let start = (to.top + y) * frame.words + to.left;
        copy_at(
            out,
            y * to.frame.words,
            &rows[start..start + to.frame.words],
        );
    }
}
