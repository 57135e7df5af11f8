//! A plane of rows of packed words.
ghost use Rattle.std.specs.Prelude.{◌≡◌, ◌↔◌, ◌⊎◌, ℕ, pos, ◌+◌, ◌-◌, ◌*◌, ◌/◌, ◌<◌, ◌≤◌, ◌+ℤ◌, IfOk, IsTrue, IsFalse, length, slice_index_or};
ghost use Rattle.life_core.specs.Generations.{next};
ghost use Rattle.life_core.specs.PackedBlocksState.{flat_next};
ghost use Rattle.life_core.specs.PackedFrameState.{framed, IsFrame};
ghost use Rattle.life_core.specs.PackedMarginsState.{HasSlack, IsWhole, IsWider};
ghost use Rattle.life_core.specs.PackedMarksState.{IsAdvanced, IsMarked, KeepsMarks, block_at, mark_at};
ghost use Rattle.life_core.specs.PackedRowsState.{AreMarks, AreMoved, AreSettled};

use crate::core_fault::Fault;
use crate::packed::block_lines::advance_blocks;
use crate::packed::block_marks::{next_mark, set_mark};
use crate::packed::frame::Frame;
use crate::packed::lane_rule::ConwayLife;
use crate::packed::margins::{Wider, room_after_check, with_room};
use crate::packed::packing::{list_cells, moved_rows, words_of, zeros};
use crate::packed::rule_form::RuleForm;
use crate::packed::shifts::shift_of_words;
use crate::packed::trimming::{copy_part, narrowed};
use crate::pattern::Pattern;
use crate::plane::Plane;
use crate::rule::Rule;
use std::alloc::{AllocError, Allocator, Global};
use std::marker::Model;
use std::mem;

/// Rows of words with a bit for each cell of a box around the live cells, in whole blocks of two words and sixteen
/// rows. A step computes only blocks at or next to cells that differ from two generations before.
#[derive(Debug, Drop)]
pub struct PackedRows<A: Allocator = Global> {
    frame: Frame,
    rows: Vec<u64, A>,
    /// The generation before; the next one is written here.
    spare: Vec<u64, A>,
    /// The blocks that the next step computes: a bit for each, line by line, with one more before the first and one after
    /// the last.
    marks: Vec<u64, A>,
    /// The marks for the step after that.
    next_marks: Vec<u64, A>,
    /// The rule of the last step.
    rule: Rule,
    /// Whether `rows` is the generation after `spare` under that rule.
    follows: bool,
    /// For how many more generations there is room.
    slack: u32,
}

impl<A: Allocator> Model for PackedRows<A> {
    ghost use Rattle.life_core.specs.Pattern.{Cells, coded_cells};
    ghost use Rattle.life_core.specs.PackedFrameState.{framed};
    ghost use Rattle.life_core.specs.PackedRowsState.{IsPacked};

    ghost Value = { Cells };

    ghost coded = { coded_cells };

    ghost view = { λ a. framed a.frame a.rows.items };

    ghost invariant = { λ a. IsPacked a.frame a.rows.items a.spare.items a.marks.items a.next_marks.items a.rule a.follows a.slack };
}

impl<A: Allocator + Copy> Plane<A> for PackedRows<A> {
    ghost cells = { λ rows. rows };

    fn from_pattern(alloc: A, pattern: &Pattern<A>) -> Result<Self, Fault> {
        let frame = Frame::of(pattern);
        let rows = words_of(alloc, frame, pattern.cells())?;
        let spare = zeros(alloc, rows.len())?;
        let marks = marks_of(alloc, frame)?;
        let next_marks = marks_of(alloc, frame)?;
        Ok(PackedRows {
            frame,
            rows,
            spare,
            marks,
            next_marks,
            rule: Rule::LIFE,
            follows: false,
            slack: 31,
        })
    }

    fn to_pattern(&self, alloc: A) -> Result<Pattern<A>, Fault> {
        Ok(Pattern::from_sorted(list_cells(alloc, self.frame, &self.rows)?))
    }

    fn step(&mut self, rule: &Rule) -> Result<(), Fault> {
        if let Some(wider) = with_room(self.frame, &self.rows, self.slack) {
            let alloc = *self.rows.allocator();
            let rows = moved_rows(alloc, self.frame, &self.rows, wider)?;
            let spare = moved_rows(alloc, self.frame, &self.spare, wider)?;
            let marks = moved_marks(alloc, self.frame, &self.marks, wider)?;
            let next_marks = marks_of(alloc, wider.frame)?;
            self.frame = wider.frame;
            self.rows = rows;
            self.spare = spare;
            self.marks = marks;
            self.next_marks = next_marks;
        }
        advance(
            rule,
            self.frame,
            and_flags(self.follows, self.rule == *rule),
            &self.rows,
            &mut self.marks,
            &mut self.spare,
            &mut self.next_marks,
        );
        mem::swap(&mut self.rows, &mut self.spare);
        mem::swap(&mut self.marks, &mut self.next_marks);
        self.rule = *rule;
        self.follows = true;
        self.slack = room_after_check(self.slack) - 1;
        Ok(())
    }

    fn shift_to(&self, other: &Self) -> Option<(i64, i64)> {
        shift_of_words(self.frame, &self.rows, other.frame, &other.rows)
    }

    fn trim(&mut self) {
        if let Some(narrower) = narrowed(self.frame, &self.rows) {
            let frame = narrower.frame;
            let len = frame.height * frame.words;
            self.spare.truncate(len);
            copy_part(self.frame, &self.rows, narrower, &mut self.spare);
            mem::swap(&mut self.rows, &mut self.spare);
            self.spare.truncate(len);
            self.spare.fill(0);
            keep_marks(&mut self.marks, frame);
            keep_marks(&mut self.next_marks, frame);
            self.frame = frame;
            self.follows = false;
            self.slack = 0;
        }
    }
}

/// How many words the marks of a frame's blocks take.
fn mark_words(frame: Frame) -> usize
    requires { IsFrame frame }
    ensures { mark_at (frame.words / 2) (frame.height / 16) 0 < 64 * result }
{
    ((frame.height / 16) * (frame.words / 2) + 1) / 64 + 1
}

/// Marks for the blocks of the frame, none of them set.
fn marks_of<A: Allocator>(alloc: A, frame: Frame) -> Result<Vec<u64, A>, AllocError>
    requires { IsFrame frame }
    ensures { IfOk result (λ m. AreMarks frame m.items) }
{
    zeros(alloc, mark_words(frame))
}

/// The marks of the same blocks in a wider frame. The blocks that it adds need none: they are dead, and still will be
/// after the next step.
fn moved_marks<A: Allocator>(
    alloc: A,
    from: Frame,
    marks: &[u64],
    to: Wider,
) -> Result<Vec<u64, A>, AllocError>
    requires from { IsFrame from }
    requires whole { IsWhole from }
    requires to { IsFrame to.frame }
    requires wider { IsWider from to }
    requires marks { AreMarks from marks.now }
    ensures marks { IfOk result (λ m. AreMarks to.frame m.items) }
    ensures moved { IfOk result (λ m. AreMoved from to marks.now m.items) }
{
    let mut moved = marks_of(alloc, to.frame)?;
    copy_marks(from, marks, to, &mut moved);
    Ok(moved)
}

/// Sets the mark in the wider frame of each marked block. Blocks of the first and the last line need none, for the same
/// reason.
fn copy_marks(from: Frame, marks: &[u64], to: Wider, out: &mut [u64])
    requires from { IsFrame from }
    requires whole { IsWhole from }
    requires to { IsFrame to.frame }
    requires wider { IsWider from to }
    requires marks { AreMarks from marks.now }
    requires out { AreMarks to.frame out.old }
    ensures long { length out.new ≡ length out.old }
    ensures moved { AreMoved from to marks.now out.new }
{
    let columns = from.words / 2;
    let end = 1 + (from.height / 16 - 1) * columns;
    let mut b = next_mark(marks, 1 + columns, end);
    while b < end {
        set_mark(out, moved_mark(from, b, to));
        b = next_mark(marks, b + 1, end);
    }
}

/// The mark in the wider frame of the block with mark `b`.
fn moved_mark(from: Frame, b: usize, to: Wider) -> usize
    requires from { IsFrame from }
    requires whole { IsWhole from }
    requires to { IsFrame to.frame }
    requires wider { IsWider from to }
    requires first { 1 ≤ b }
    requires last { b < mark_at (from.words / 2) (from.height / 16) 0 }
    ensures last { result < mark_at (to.frame.words / 2) (to.frame.height / 16) 0 }
    ensures moved { (line column : ℕ) → column < from.words / 2 → b ≡ mark_at (from.words / 2) line column → result ≡ mark_at (to.frame.words / 2) (to.top / 16 + line) (to.left / 2 + column) }
{
    let columns = from.words / 2;
    let line = to.top / 16 + (b - 1) / columns;
    let column = to.left / 2 + (b - 1) % columns;
    1 + line * (to.frame.words / 2) + column
}

/// Shortens the marks to the length for a narrower frame. Their values mean nothing there; the next step sets them all.
fn keep_marks<A: Allocator>(marks: &mut Vec<u64, A>, frame: Frame)
    requires frame { IsFrame frame }
    requires enough { mark_at (frame.words / 2) (frame.height / 16) 0 < 64 * length marks.old.items }
    ensures { AreMarks frame marks.new.items }
{
    marks.truncate(mark_words(frame));
}

/// Whether both hold, without a branch.
fn and_flags(a: bool, b: bool) -> bool
    ensures { IsTrue result ↔ (IsTrue a × IsTrue b) }
{
    a & b
}

/// Writes the next generation into `out`, and sets the marks for the step after this one. Under `follows`, `out` has
/// the generation before `rows`, which is already right for blocks without a mark. Otherwise this step and the next
/// compute all blocks. It clears the marks of this step.
fn advance(
    rule: &Rule,
    frame: Frame,
    follows: bool,
    rows: &[u64],
    marks: &mut [u64],
    out: &mut [u64],
    next_marks: &mut [u64],
)
    requires frame { IsFrame frame }
    requires whole { IsWhole frame }
    requires rows { frame.height * frame.words ≡ length rows.now }
    requires room { HasSlack frame 1 (framed frame rows.now) }
    requires marks { AreMarks frame marks.old }
    requires out { length out.old ≡ length rows.now }
    requires out_room { HasSlack frame 0 (framed frame out.old) }
    requires next_marks { AreMarks frame next_marks.old }
    requires settled { IsTrue follows → AreSettled frame rule.now rows.now out.old marks.old }
    requires follows { IsTrue follows → framed frame rows.now ≡ next rule.now (framed frame out.old) }
    ensures rows { framed frame out.new ≡ next rule.now (framed frame rows.now) }
    ensures settled { AreSettled frame rule.now out.new rows.now next_marks.new }
{
    let _flags = rule.flags();
    set_unless(follows, marks);
    rule_blocks(
        rule,
        frame.words / 2,
        frame.height / 16,
        rows,
        marks,
        out,
        next_marks,
    );
    set_unless(follows, next_marks);
    marks.fill(0);
}

/// Sets all marks, unless they are still valid.
fn set_unless(kept: bool, marks: &mut [u64])
    ensures kept { KeepsMarks marks.old marks.new }
    ensures set { IsFalse kept → (j : ℕ) → j < 64 * length marks.new → IsMarked marks.new j }
{
    if !kept {
        marks.fill(u64::MAX);
    }
}

/// Steps the blocks by the shorter formula if the rule is Life, and otherwise by the rule's form.
fn rule_blocks(
    rule: &Rule,
    columns: usize,
    lines: usize,
    rows: &[u64],
    marks: &[u64],
    out: &mut [u64],
    next_marks: &mut [u64],
)
    requires columns { 1 ≤ columns }
    requires lines { 3 ≤ lines }
    requires rows { length rows.now ≡ block_at columns lines 0 }
    requires out { length out.old ≡ length rows.now }
    requires marks { mark_at columns lines 0 < 64 * length marks.now }
    requires next_marks { mark_at columns lines 0 < 64 * length next_marks.old }
    ensures next_marks { KeepsMarks next_marks.old next_marks.new }
    ensures guards { (j : ℕ) → (j < block_at columns 1 0) ⊎ (block_at columns (lines - 1) 0 ≤ j) → slice_index_or out.new j 0 ≡ slice_index_or out.old j 0 }
    ensures blocks { (line column : ℕ) → 1 ≤ line → line + 2 ≤ lines → column < columns → IsAdvanced (flat_next rule.now rows.now (64 * (2 * columns))) columns line column marks.now out.old out.new next_marks.new }
{
    if rule.is_life() {
        advance_blocks(&ConwayLife, columns, lines, rows, marks, out, next_marks);
        return;
    }
    let form = RuleForm::of(rule);
    advance_blocks(&form, columns, lines, rows, marks, out, next_marks);
}
