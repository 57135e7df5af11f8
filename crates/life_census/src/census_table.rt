//! Writes a tally as CSV.
ghost use Rattle.std.specs.Prelude.{◌≡◌, ℕ, List, [], ◌∷◌, ◌++◌, map, true, IfOk};
ghost use Rattle.std.specs.List.{list_all};
ghost use Rattle.csv.specs.Writing.{row_text, default_writer};
ghost use Rattle.life_census.specs.CodeText.{is_code_byte};
ghost use Rattle.life_census.specs.Rows.{row_seen};
ghost use Rattle.life_census.specs.CensusTable.{line, lines, csv_text};
ghost use Rattle.life_census.specs.CensusTableState.{Holds};

use crate::tally_rows::{Row, Tally};
use csv::{Writer, WriterBuilder};
use itoa::Buffer;
use life_core::Fault;
use std::alloc::{AllocError, Allocator};

/// The tally as CSV: the header `code,count`, a line for each code, and last the number of clusters without a code.
pub fn csv<A: Allocator + Copy>(alloc: A, tally: &Tally<A>) -> Result<Vec<u8, A>, Fault>
    ensures { IfOk result (λ v. v.items ≡ csv_text tally.now) }
{
    Ok(text_of(alloc, tally.rows.as_slice(), tally.unresolved)?)
}

fn text_of<A: Allocator + Copy>(
    alloc: A,
    rows: &[Row<A>],
    unresolved: u64,
) -> Result<Vec<u8, A>, AllocError>
    ensures { IfOk result (λ v. v.items ≡ lines (map row_seen rows.now) unresolved) }
{
    let mut table = new_table(alloc);
    add_fields(&mut table, b"code", b"count")?;
    for row in rows {
        add_line(&mut table, row.code.as_bytes(), row.count)?;
    }
    add_line(&mut table, b"unresolved", unresolved)?;
    finish(table)
}

fn new_table<A: Allocator>(alloc: A) -> Writer<Vec<u8, A>>
    ensures { Holds result [] }
{
    WriterBuilder::new().from_writer(Vec::new(alloc))
}

/// Any error of the writer, which writes to memory, counts as out of memory.
fn add_fields<A: Allocator>(
    table: &mut Writer<Vec<u8, A>>,
    first: &[u8],
    second: &[u8],
) -> Result<(), AllocError>
    ensures { IfOk result (λ _. (text : List ℕ) → Holds table.old text → Holds table.new (text ++ row_text default_writer (first.now ∷ second.now ∷ []))) }
{
    match table.write_fields(&[first, second]) {
        Ok(()) => Ok(()),
        Err(_) => Err(AllocError),
    }
}

/// Codes and counts need no quotes in CSV.
fn add_line<A: Allocator>(
    table: &mut Writer<Vec<u8, A>>,
    code: &[u8],
    count: u64,
) -> Result<(), AllocError>
    requires { list_all is_code_byte code.now ≡ true }
    ensures { IfOk result (λ _. (text : List ℕ) → Holds table.old text → Holds table.new (text ++ line code.now count)) }
{
    let mut buffer = Buffer::new();
    add_fields(table, code, buffer.format(count).as_bytes())
}

fn finish<A: Allocator>(table: Writer<Vec<u8, A>>) -> Result<Vec<u8, A>, AllocError>
    ensures { IfOk result (λ v. (text : List ℕ) → Holds table text → v.items ≡ text) }
{
    match table.into_inner() {
        Ok(text) => Ok(text),
        Err(_) => Err(AllocError),
    }
}
