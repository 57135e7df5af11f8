//! Decodes a Wechsler text, the part of a code after the `_`, into cells.
ghost use Rattle.std.specs.Prelude.{◌≡◌, ◌≢◌, ◌<◌, ◌≤◌, ◌+◌, ◌^◌, ◌%◌, ◌/◌, ◌∷◌, List, ℕ, IfOk, false, map};
ghost use Rattle.std.specs.List.{filter, range_with_len};
ghost use Rattle.life_code.specs.DecodeState.{spells_cell, is_live, AreBlank, cell_of_index, decoded};
ghost use Rattle.life_code.specs.Wechsler.{value_of};

use crate::codes::LARGEST_BOX;
use life_core::{Cell, Fault, Pattern};
use std::alloc::{AllocError, Allocator};

const COLUMNS: u16 = LARGEST_BOX as u16;

/// The number of cells in the box.
const CELLS: u16 = COLUMNS * COLUMNS;

/// `0` to `9` are 0 to 9, and `a` to `z` are 10 to 35. Other bytes get a value too; `open_code` rejects them later.
fn value_of(c: u8) -> u8
    ensures { result ≡ value_of c }
{
    if c < b':' {
        c.saturating_sub(b'0')
    } else {
        c.saturating_sub(b'a' - 10)
    }
}

/// The columns of the box that a prefix of the text spells.
#[derive(Drop)]
struct CodeReader {
    /// The values of the columns of each strip of five rows, from the top.
    columns: [u8; 320],
    /// The strip and the column at which the text continues.
    strip: u128,
    column: u128,
    /// Whether the last byte was `y`: the next one is the length of a run of zeros.
    after_y: bool,
    ghost blank: { AreBlank columns strip column },
}

impl CodeReader {
    ghost use Rattle.life_code.specs.CodeReaderState.{awaited};

    fn new() -> CodeReader
        ensures start { (text : List ℕ) (x y : ℕ) → x < 40 → y < 40 → awaited result text x y ≡ spells_cell 0 false text x y }
        ensures column { result.column ≡ 0 }
        ensures strip { result.strip ≡ 0 }
    {
        CodeReader {
            columns: [0; 320],
            strip: 0,
            column: 0,
            after_y: false,
        }
    }

    /// Handles `z`: the next strip begins.
    fn end_strip(&mut self)
        requires plain { self.old.after_y ≡ false }
        requires strip { self.old.strip < 2 ^ 127 }
        ensures cells { (text : List ℕ) (x y : ℕ) → x < 40 → y < 40 → awaited self.new text x y ≡ awaited self.old (122 ∷ text) x y }
        ensures column { self.new.column ≡ 0 }
        ensures strip { self.new.strip ≡ self.old.strip + 1 }
    {
        self.strip += 1;
        self.column = 0;
    }

    /// Handles a column with live cells. Columns beyond the box are ignored.
    fn keep(&mut self, c: u8)
        requires plain { self.old.after_y ≡ false }
        requires column { self.old.column < 2 ^ 127 }
        requires not_0 { c ≢ 48 }
        requires not_w { c ≢ 119 }
        requires not_x { c ≢ 120 }
        requires not_y { c ≢ 121 }
        requires not_z { c ≢ 122 }
        ensures cells { (text : List ℕ) (x y : ℕ) → x < 40 → y < 40 → awaited self.new text x y ≡ awaited self.old (c ∷ text) x y }
        ensures column { self.new.column ≡ self.old.column + 1 }
        ensures strip { self.new.strip ≡ self.old.strip }
    {
        if self.strip < 8 && self.column < 40 {
            self.columns[(40 * self.strip + self.column) as usize] = value_of(c);
        }
        self.column += 1;
    }

    /// Skips columns without live cells.
    fn skip(&mut self, columns: u16)
        requires column { self.old.column < 2 ^ 127 }
        ensures cells { self.new.columns ≡ self.old.columns }
        ensures after_y { self.new.after_y ≡ false }
        ensures column { self.new.column ≡ self.old.column + columns }
        ensures strip { self.new.strip ≡ self.old.strip }
    {
        self.column += u128::from(columns);
        self.after_y = false;
    }

    #[tactic(auto, unfolding(crate::specs::DecodeState::spells_cell))]
    fn read(&mut self, c: u8)
        requires column { self.old.column < 2 ^ 127 }
        requires strip { self.old.strip < 2 ^ 127 }
        ensures cells { (text : List ℕ) (x y : ℕ) → x < 40 → y < 40 → awaited self.new text x y ≡ awaited self.old (c ∷ text) x y }
        ensures column { self.new.column ≤ self.old.column + 300 }
        ensures strip { self.new.strip ≤ self.old.strip + 1 }
    {
        if self.after_y {
            self.skip(4 + u16::from(value_of(c)));
            return;
        }
        match c {
            b'z' => self.end_strip(),
            b'0' => self.skip(1),
            b'w' => self.skip(2),
            b'x' => self.skip(3),
            b'y' => self.after_y = true,
            _ => self.keep(c),
        }
    }

    /// `index` counts the cells of the box row by row.
    fn is_live(&self, index: u16) -> bool
        requires { index < CELLS }
        ensures { result ≡ is_live self.now.columns (index % COLUMNS) (index / COLUMNS) }
    {
        let y = index / COLUMNS;
        let column = self.columns[usize::from(40 * (y / 5) + index % COLUMNS)];
        (column >> (y % 5)) % 2 == 1
    }
}

fn read_text(text: &[u8]) -> CodeReader
    ensures { (x y : ℕ) → x < 40 → y < 40 → spells_cell 0 false text.now x y ≡ is_live result.columns x y }
{
    let mut reader = CodeReader::new();
    for c in text {
        reader.read(*c);
    }
    reader
}

fn cell_of_index(index: u16) -> Cell
    ensures { result ≡ cell_of_index index }
{
    Cell {
        row: i64::from(index / COLUMNS),
        column: i64::from(index % COLUMNS),
    }
}

/// The live cells among the first `places` of the box, in row order.
fn live_cells<A: Allocator>(
    alloc: A,
    reader: &CodeReader,
    places: u16,
) -> Result<Vec<Cell, A>, AllocError>
    requires { places ≤ CELLS }
    ensures { IfOk result (λ v. v.items ≡ map cell_of_index (filter (λ i. is_live reader.now.columns (i % 40) (i / 40)) (range_with_len 0 places))) }
{
    (0..places)
        .filter(|index| reader.is_live(*index))
        .map(cell_of_index)
        .collect(alloc)
}

/// The cells that any text spells, valid or not; cells outside the box of 40 by 40 are left out.
pub(crate) fn decoded<A: Allocator + Copy>(alloc: A, text: &[u8]) -> Result<Pattern<A>, Fault>
    ensures { IfOk result (λ X. X ≡ decoded text.now) }
{
    let reader = read_text(text);
    Pattern::from_list(live_cells(alloc, &reader, CELLS)?)
}
