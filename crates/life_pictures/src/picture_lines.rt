//! A picture as lines of half blocks.
ghost use Rattle.std.specs.Prelude.{◌≡◌, ◌≤◌, ◌<◌, ◌^◌, ◌||◌, ◌++◌, map, IfOk, OnOk};
ghost use Rattle.std.specs.List.{range_with_len};
ghost use Rattle.std.specs.Char.{encode_utf8};
ghost use Rattle.life_rle.specs.Record.{IsInside};
ghost use Rattle.life_pictures.specs.PictureLines.{two_cells, half_block, cells_of_line, line, text};

use crate::extent::extent_of;
use life_core::{Cell, Fault, Pattern};
use life_rle::Record;
use std::alloc::{AllocError, Allocator};

/// The two cells of a column that line `i` shows.
fn two_cells<A: Allocator>(pattern: &Pattern<A>, i: u64, column: u64) -> (bool, bool)
    requires line { i < 2 ^ 32 }
    requires column { column < 2 ^ 32 }
    ensures { result ≡ two_cells pattern.now i column }
{
    let upper = Cell {
        row: 2 * i as i64,
        column: column as i64,
    };
    let lower = Cell {
        row: upper.row + 1,
        column: upper.column,
    };
    (pattern.contains(upper), pattern.contains(lower))
}

/// Whether one of two cells is live.
fn has_live(two: (bool, bool)) -> bool
    ensures { result ≡ (two.0 || two.1) }
{
    two.0 || two.1
}

/// The character that shows two cells, the upper one first.
fn half_block(two: (bool, bool)) -> &'static str
    ensures { result.now ≡ encode_utf8 (half_block two) }
{
    match two {
        (true, true) => "█",
        (true, false) => "▀",
        (false, true) => "▄",
        (false, false) => " ",
    }
}

/// How many columns line `i` shows: those up to its last live cell.
fn length_of_line<A: Allocator>(pattern: &Pattern<A>, width: u64, i: u64) -> u64
    requires line { i < 2 ^ 32 }
    requires width { width < 2 ^ 32 }
    ensures trimmed { cells_of_line pattern.now width i ≡ map (two_cells pattern.now i) (range_with_len 0 result) }
    ensures within { result ≤ width }
{
    let mut length = width;
    while length > 0 {
        if has_live(two_cells(pattern, i, length - 1)) {
            return length;
        }
        length -= 1;
    }
    0
}

/// Writes line `i`, with this many columns.
#[tactic(auto, unfolding(crate::specs::PictureLines::line))]
fn put_line<A: Allocator>(
    out: &mut Vec<u8, A>,
    pattern: &Pattern<A>,
    width: u64,
    i: u64,
) -> Result<(), AllocError>
    requires line { i < 2 ^ 32 }
    requires width { width < 2 ^ 32 }
    ensures { OnOk result (out.new.items ≡ out.old.items ++ line pattern.now width i) }
{
    for column in 0..length_of_line(pattern, width, i) {
        let two = two_cells(pattern, i, column);
        out.extend_from_slice(half_block(two).as_bytes())?;
    }
    out.push(b'\n')?;
    Ok(())
}

/// The picture of a record's cells as lines of half blocks. A line shows two rows of the cells' box, without trailing
/// blanks. The empty pattern has no line.
#[tactic(auto, unfolding(crate::specs::PictureLines::text))]
pub fn text<A: Allocator + Copy>(alloc: A, record: &Record<A>) -> Result<Vec<u8, A>, Fault>
    requires inside { IsInside 1024 «record».now.cells }
    ensures { IfOk result (λ v. v.items ≡ text «record».now.cells) }
{
    let extent = extent_of(record.cells.cells());
    let mut out = Vec::new(alloc);
    for i in 0..extent.height.div_ceil(2) {
        put_line(&mut out, &record.cells, extent.width, i)?;
    }
    Ok(out)
}
