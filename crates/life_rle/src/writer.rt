//! Writing a record as text.
ghost use Rattle.std.specs.Prelude.{◌≡◌, ◌≤◌, ◌<◌, ◌+◌, ◌-◌, ◌==◌, if◌then◌else◌, ℕ, List, [], ◌∷◌, ◌++◌, length, map, Ok, IfOk, OnOk};
ghost use Rattle.std.specs.List.{All, flat_map};
ghost use Rattle.life_core.specs.Runs.{run_cells, runs_cells};
ghost use Rattle.life_rle.specs.File.{kept};
ghost use Rattle.life_rle.specs.Record.{IsInside};
ghost use Rattle.life_rle.specs.Writer.{item_texts, laid, text_line, optional_line, comment_line, width_of, height_of, header_line, coordinates, text, IsQuarterRun};
ghost use Rattle.life_rle.specs.WriterState.{counted, column_of, row_of, IsNextRun, AreNextRuns};

use crate::record::Record;
use crate::text::Text;
use itoa::Buffer;
use life_core::{Fault, Run};
use std::alloc::{AllocError, Allocator};

/// The most bytes of a line of items, without its line feed.
const WIDTH: usize = 70;

/// Items laid out in lines. A complete line is copied from its buffer into the text, so an item of one digit takes two
/// stores and no allocation.
#[derive(Drop)]
struct ItemLines<A: Allocator> {
    /// The text up to the last complete line.
    out: Vec<u8, A>,
    /// The line that has begun. Besides its 70 bytes there is room for a line feed.
    line: [u8; 72],
    /// How many bytes the line has so far.
    used: usize,
    ghost used_in: { used ≤ 70 },
}

impl<A: Allocator + Copy> ItemLines<A> {
    ghost use Rattle.std.specs.Prelude.{take};
    ghost use Rattle.life_rle.specs.ItemLinesState.{written};

    fn new(out: Vec<u8, A>) -> ItemLines<A>
        ensures out { result.out ≡ out }
        ensures used { result.used ≡ 0 }
    {
        ItemLines {
            out,
            line: [0; 72],
            used: 0,
        }
    }

    fn end_line(&mut self) -> Result<(), AllocError>
        ensures out { OnOk result (self.new.out.items ≡ self.old.out.items ++ (take self.old.used self.old.line ++ 10 ∷ [])) }
        ensures used { OnOk result (self.new.used ≡ 0) }
    {
        self.line[self.used] = b'\n';
        self.out.extend_from_slice(&self.line[..self.used + 1])?;
        self.used = 0;
        Ok(())
    }

    /// Ends the line if an item of this many bytes does not fit into it.
    fn make_room(&mut self, len: usize) -> Result<(), AllocError>
        requires { len ≤ 70 }
        ensures room { OnOk result (self.new.used + len ≤ 70) }
        ensures text { OnOk result ((item : List ℕ) (items : List (List ℕ)) → length item ≡ len → self.new.out.items ++ (take self.new.used self.new.line ++ (item ++ laid (self.new.used + len) items)) ≡ written self.old (item ∷ items)) }
    {
        if self.used + len > WIDTH {
            self.end_line()?;
        }
        Ok(())
    }

    /// Writes an item whose count has one digit. If the count is 1, the tag overwrites the digit.
    fn put_digit(&mut self, count: u8, tag: u8) -> Result<(), AllocError>
        requires some { 0 < count }
        requires small { count < 10 }
        ensures { OnOk result ((items : List (List ℕ)) → written self.new items ≡ written self.old (counted count tag ++ items)) }
    {
        let digits = usize::from(count > 1);
        self.make_room(digits + 1)?;
        self.line[self.used] = b'0' + count;
        self.line[self.used + digits] = tag;
        self.used += digits + 1;
        Ok(())
    }

    /// Writes an item with these digits and this tag.
    fn put(&mut self, digits: &[u8], tag: u8) -> Result<(), AllocError>
        requires { length digits.now < 70 }
        ensures { OnOk result ((items : List (List ℕ)) → written self.new items ≡ written self.old ((digits.now ++ tag ∷ []) ∷ items)) }
    {
        self.make_room(digits.len() + 1)?;
        let end = self.used + digits.len();
        self.line[self.used..end].copy_from_slice(digits);
        self.line[end] = tag;
        self.used = end + 1;
        Ok(())
    }

    /// Writes an item with this count and tag; none if the count is 0.
    fn item(&mut self, count: u64, tag: u8) -> Result<(), AllocError>
        ensures { OnOk result ((items : List (List ℕ)) → written self.new items ≡ written self.old (counted count tag ++ items)) }
    {
        if count == 0 {
            Ok(())
        } else if count < 10 {
            self.put_digit(count as u8, tag)
        } else {
            self.put(Buffer::new().format(count).as_bytes(), tag)
        }
    }
}

/// A body so far. The next run may begin at `row` and `column`; the `live` cells right before are not written yet.
#[derive(Drop)]
struct BodyWriter<A: Allocator> {
    lines: ItemLines<A>,
    row: u32,
    column: u64,
    live: u64,
}

impl<A: Allocator + Copy> BodyWriter<A> {
    ghost use Rattle.life_rle.specs.ItemLinesState.{written, body_written};

    /// Adds the next run. It writes the live cells before it, and the gap.
    fn run(&mut self, run: Run) -> Result<(), AllocError>
        requires { IsNextRun self.old.row self.old.column self.old.live run }
        ensures text { OnOk result ((cells : List (ℕ × ℕ)) (items : List (List ℕ)) → body_written self.new cells items ≡ body_written self.old (map coordinates (run_cells run) ++ cells) items) }
        ensures row_after { OnOk result (self.new.row ≡ row_of run) }
        ensures column_after { OnOk result (self.new.column ≡ column_of run + run.len) }
        ensures live_after { OnOk result (self.new.live ≡ run.len) }
    {
        let (x, y) = start_of(run);
        self.gap(x, y)?;
        self.row = y;
        self.live = u64::from(run.len);
        self.column = u64::from(x) + self.live;
        Ok(())
    }

    /// Writes the live cells so far, and the row ends and dead cells between them and the cell at `x` and `y`.
    fn gap(&mut self, x: u32, y: u32) -> Result<(), AllocError>
        requires row { self.old.row ≤ y }
        requires column { self.old.row ≡ y → self.old.column ≤ x }
        ensures { OnOk result ((items : List (List ℕ)) → written self.new.lines items ≡ written self.old.lines (counted self.old.live 111 ++ (counted (y - self.old.row) 36 ++ (counted (x - (if y == self.old.row then self.old.column else 0)) 98 ++ items)))) }
    {
        let from = if y == self.row { self.column } else { 0 };
        self.lines.item(self.live, b'o')?;
        if y > self.row {
            self.lines.item(u64::from(y - self.row), b'$')?;
        }
        self.lines.item(u64::from(x) - from, b'b')
    }
}

/// Writes the body for the longest runs of cells in the order of rows and columns.
fn write_body<A: Allocator + Copy>(out: Vec<u8, A>, runs: &[Run]) -> Result<Vec<u8, A>, AllocError>
    requires { AreNextRuns 0 0 0 runs.now }
    ensures { IfOk result (λ text. text.items ≡ out.items ++ laid 0 (item_texts (map coordinates (runs_cells runs.now)))) }
{
    let mut body = BodyWriter {
        lines: ItemLines::new(out),
        row: 0,
        column: 0,
        live: 0,
    };
    for run in runs {
        body.run(*run)?;
    }
    body.lines.item(body.live, b'o')?;
    body.lines.put_digit(1, b'!')?;
    body.lines.end_line()?;
    Ok(body.lines.out)
}

/// Writes `#`, the letter, and the text.
fn text_line<A: Allocator>(out: &mut Vec<u8, A>, letter: u8, text: &[u8]) -> Result<(), AllocError>
    ensures { OnOk result (out.new.items ≡ out.old.items ++ text_line letter text.now) }
{
    out.push(b'#')?;
    out.push(letter)?;
    out.push(b' ')?;
    out.extend_from_slice(text)?;
    out.push(b'\n')?;
    Ok(())
}

/// Writes the line of a text that may be missing.
fn optional_line<A: Allocator>(
    out: &mut Vec<u8, A>,
    letter: u8,
    text: &Option<Text<A>>,
) -> Result<(), AllocError>
    ensures { OnOk result (out.new.items ≡ out.old.items ++ optional_line letter text.now) }
{
    match text {
        None => Ok(()),
        Some(text) => text_line(out, letter, text.as_bytes()),
    }
}

/// Writes the line of a comment.
fn comment_line<A: Allocator>(out: &mut Vec<u8, A>, text: &[u8]) -> Result<(), AllocError>
    ensures { OnOk result (out.new.items ≡ out.old.items ++ comment_line text.now) }
{
    if text.is_empty() {
        out.extend_from_slice(b"#C\n")
    } else {
        text_line(out, b'C', text)
    }
}

/// Writes the lines of the comments.
fn comment_lines<A: Allocator>(out: &mut Vec<u8, A>, texts: &[Text<A>]) -> Result<(), AllocError>
    ensures { OnOk result (out.new.items ≡ out.old.items ++ flat_map comment_line texts.now) }
{
    for text in texts {
        comment_line(out, text.as_bytes())?;
    }
    Ok(())
}

/// Writes the header line.
fn header_line<A: Allocator>(
    out: &mut Vec<u8, A>,
    width: u64,
    height: u64,
    rule: &[u8],
) -> Result<(), AllocError>
    ensures { OnOk result (out.new.items ≡ out.old.items ++ header_line width height rule.now) }
{
    out.extend_from_slice(b"x = ")?;
    out.extend_from_slice(Buffer::new().format(width).as_bytes())?;
    out.extend_from_slice(b", y = ")?;
    out.extend_from_slice(Buffer::new().format(height).as_bytes())?;
    out.extend_from_slice(b", rule = ")?;
    out.extend_from_slice(rule)?;
    out.push(b'\n')?;
    Ok(())
}

/// The width and height of a header: one past the greatest column and row of normal cells, 0 and 0 without cells.
pub fn size_of(runs: &[Run]) -> (u64, u64)
    requires { All IsQuarterRun runs.now }
    ensures width { result.0 ≡ width_of (map coordinates (runs_cells runs.now)) }
    ensures height { result.1 ≡ height_of (map coordinates (runs_cells runs.now)) }
{
    let mut width = 0;
    let mut height = 0;
    for run in runs {
        let (x, y) = start_of(*run);
        width = width.max(u64::from(x) + u64::from(run.len));
        height = height.max(u64::from(y) + 1);
    }
    (width, height)
}

/// The column and the row of a run's first cell.
fn start_of(run: Run) -> (u32, u32)
    requires { IsQuarterRun run }
    ensures column { result.0 ≡ column_of run }
    ensures row { result.1 ≡ row_of run }
{
    (run.first as u32, run.row as u32)
}

/// The canonical text of a record: its texts, its header and its body. Runs are as long as possible, and lines break
/// between items, after at most 70 bytes.
#[tactic(auto, unfolding(crate::specs::Writer::text))]
pub fn write<A: Allocator + Copy>(alloc: A, record: &Record<A>) -> Result<Vec<u8, A>, Fault>
    ensures text { IfOk result (λ v. v.items ≡ text «record».now) }
    // If the cells fit in 1024 by 1024, the text is read as the same record.
    ensures again { IfOk result (λ v. IsInside 1024 «record».now.cells → kept v.items ≡ Ok «record».now) }
{
    let rule = record.rule.text(alloc)?;
    let runs = record.cells.cells().runs();
    let (width, height) = size_of(runs);
    let mut out = Vec::new(alloc);
    optional_line(&mut out, b'N', &record.name)?;
    optional_line(&mut out, b'O', &record.author)?;
    comment_lines(&mut out, record.comments.as_slice())?;
    header_line(&mut out, width, height, rule.as_bytes())?;
    Ok(write_body(out, runs)?)
}
