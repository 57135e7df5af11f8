//! Rows as an archive writes them, and reading the values of a row. The result is `None` for a value that an archive
//! never writes, which a check reports; only a failure is an `Err`.

ghost use Rattle.std.specs.Prelude.{◌≡◌, ◌<◌, ◌≤◌, ◌^◌, ◌↔◌, ℕ, pos, List, Ok, None, Some, false, IfOk, IfSome, OnOk, IsTrue};
ghost use Rattle.sqlite_value.specs.declared.value.Value.TheVariants.{Int, Text as Words, Blob};
ghost use Rattle.sqlite_value.specs.Order.{column};
ghost use Rattle.life_rle.specs.Record.{IsInside, Contents};
ghost use Rattle.life_rle.specs.Writer.{text};
ghost use Rattle.life_rle.specs.File.{kept};
ghost use Rattle.life_store.specs.declared.kept.Deposit.{Deposit as Given};
ghost use Rattle.life_store.specs.Stored.{IsFiled};
ghost use Rattle.life_store.specs.Kept.{Tallied};
ghost use Rattle.life_check.specs.ReadState.{deposit_row, IsDepositRow, census_row, census_row_of, count_row, flag_row_of, AreNames, IsValidCensus};

use life_code::PERIOD_LIMIT;
use life_core::GENERATION_LIMIT;
use life_desk::check_deposit;
use life_rle::{Record, RleFault, Text, read_kept, write};
use life_store::{Census, Deposit, Unavailable};
use sqlite_value::row::Row;
use sqlite_value::value::ValueRef;
use std::alloc::Global;

pub(crate) fn text_at(alloc: Global, row: &Row, at: usize) -> Result<Option<Text>, Unavailable>
    ensures { (t : List ℕ) → column row.now at ≡ Words t → IfOk result (λ o. o ≡ Some t) }
{
    match row.get(at) {
        ValueRef::Text(bytes) => Ok(Some(Text::from_slice(alloc, bytes)?)),
        _ => Ok(None),
    }
}

/// The record of a stored pattern file. `None` if it is invalid.
fn record_at(alloc: Global, row: &Row, at: usize) -> Result<Option<Record>, Unavailable>
    ensures value { (c : Contents) → kept (text c) ≡ Ok c → column row.now at ≡ Blob (text c) → IfOk result (λ o. o ≡ Some c) }
    ensures inside { IfOk result (λ o. IfSome o (λ c. IsInside 1024 c.cells)) }
{
    match row.get(at) {
        ValueRef::Blob(bytes) => match read_kept(alloc, bytes) {
            Ok(record) => Ok(Some(record)),
            Err(RleFault::Memory) => Err(Unavailable),
            Err(_) => Ok(None),
        },
        _ => Ok(None),
    }
}

/// The deposit that a row seems to have. Its other columns are not checked here.
fn deposit_in(alloc: Global, row: &Row) -> Result<Option<Deposit>, Unavailable>
    ensures value { (id : ℕ) (d : Given) → IsFiled d → row.now ≡ deposit_row id d → IfOk result (λ o. o ≡ Some d) }
    ensures inside { IfOk result (λ o. IfSome o (λ d. IsInside 1024 d.content.cells)) }
{
    let Some(member) = text_at(alloc, row, 2)? else {
        return Ok(None);
    };
    let Some(token) = text_at(alloc, row, 3)? else {
        return Ok(None);
    };
    let Some(content) = record_at(alloc, row, 6)? else {
        return Ok(None);
    };
    Ok(Some(Deposit {
        member,
        token,
        content,
    }))
}

/// The row that an archive writes for the deposit under the number.
fn row_of_deposit(alloc: Global, id: i64, deposit: &Deposit) -> Result<Row, Unavailable>
    requires { IsInside 1024 deposit.now.content.cells }
    ensures row { IfOk result (λ r. (n : ℕ) → id ≡ pos n → r ≡ deposit_row n deposit.now) }
    ensures filed { OnOk result (IsFiled deposit.now) }
{
    let Ok(population) = i64::try_from(deposit.content.cells.population()) else {
        return Err(Unavailable);
    };
    let rule = deposit.content.rule.text(alloc)?;
    let file = write(alloc, &deposit.content)?;
    let mut row = Row::new(alloc);
    row.push(ValueRef::Int(id))?;
    row.push(ValueRef::Null)?;
    row.push(ValueRef::Text(deposit.member.as_bytes()))?;
    row.push(ValueRef::Text(deposit.token.as_bytes()))?;
    row.push(ValueRef::Text(rule.as_bytes()))?;
    row.push(ValueRef::Int(population))?;
    row.push(ValueRef::Blob(file.as_slice()))?;
    Ok(row)
}

/// The deposit in a row. `None` unless the row is exactly the one that an archive writes for it under the number.
pub(crate) fn deposit_of_row(
    alloc: Global,
    row: &Row,
    id: u64,
) -> Result<Option<Deposit>, Unavailable>
    requires { id < 2 ^ 63 }
    ensures some { IfOk result (λ o. IfSome o (λ d. IsFiled d × (row.now ≡ deposit_row id d))) }
    ensures none { IfOk result (λ o. o ≡ None → IsDepositRow id row.now → ⊥) }
    ensures value { (d : Given) → IsFiled d → row.now ≡ deposit_row id d → IfOk result (λ o. o ≡ Some d) }
    ensures inside { IfOk result (λ o. IfSome o (λ d. IsInside 1024 d.content.cells)) }
{
    let Ok(number) = i64::try_from(id) else {
        return Err(Unavailable);
    };
    let Some(deposit) = deposit_in(alloc, row)? else {
        return Ok(None);
    };
    let written = row_of_deposit(alloc, number, &deposit)?;
    if row.is_same(&written) {
        Ok(Some(deposit))
    } else {
        Ok(None)
    }
}

/// Whether the member and the token are valid in a request.
pub(crate) fn are_valid_names(member: &Text, token: &Text) -> bool
    ensures { IsTrue result ↔ AreNames member.now token.now }
{
    check_deposit(member.as_bytes(), token.as_bytes()).is_ok()
}

/// Whether a request for the census would be valid: its member, token, generation and limit are.
pub(crate) fn is_askable(census: &Census) -> bool
    ensures { IsTrue result ↔ IsValidCensus census.now }
{
    are_valid_names(&census.member, &census.token)
        && census.generation <= GENERATION_LIMIT
        && 1 <= census.limit
        && census.limit <= PERIOD_LIMIT
}

/// A number in the row: an INTEGER that is not negative.
pub(crate) fn number_at(row: &Row, at: usize) -> Option<u64>
    ensures { (n : ℕ) → column row.now at ≡ Int (pos n) → result ≡ Some n }
{
    match row.get(at) {
        ValueRef::Int(n) => u64::try_from(n).ok(),
        _ => None,
    }
}

/// A number of at most 32 bits: a generation or a limit.
fn small_at(row: &Row, at: usize) -> Option<u32>
    ensures { (n : ℕ) → n < 2 ^ 32 → column row.now at ≡ Int (pos n) → result ≡ Some n }
{
    match row.get(at) {
        ValueRef::Int(n) => u32::try_from(n).ok(),
        _ => None,
    }
}

/// The census that a row seems to have. Its other columns are not checked here.
pub(crate) fn census_in(alloc: Global, row: &Row) -> Result<Option<Census>, Unavailable>
    ensures { (id : ℕ) (t : Tallied) → IsValidCensus t.census → row.now ≡ census_row id t → IfOk result (λ o. o ≡ Some t.census) }
{
    let Some(deposit) = number_at(row, 4) else {
        return Ok(None);
    };
    let Some(generation) = small_at(row, 5) else {
        return Ok(None);
    };
    let Some(limit) = small_at(row, 6) else {
        return Ok(None);
    };
    let Some(member) = text_at(alloc, row, 2)? else {
        return Ok(None);
    };
    let Some(token) = text_at(alloc, row, 3)? else {
        return Ok(None);
    };
    Ok(Some(Census {
        member,
        token,
        deposit,
        generation,
        limit,
    }))
}

/// The row that an archive writes for the census under the number.
fn row_of_census(
    alloc: Global,
    id: i64,
    census: &Census,
    total: u64,
    unresolved: u64,
) -> Result<Row, Unavailable>
    ensures { IfOk result (λ r. (n : ℕ) → id ≡ pos n → r ≡ census_row_of n census.now total unresolved) }
{
    let (Ok(deposit), Ok(total), Ok(unresolved)) = (
        i64::try_from(census.deposit),
        i64::try_from(total),
        i64::try_from(unresolved),
    ) else {
        return Err(Unavailable);
    };
    let mut row = Row::new(alloc);
    row.push(ValueRef::Int(id))?;
    row.push(ValueRef::Null)?;
    row.push(ValueRef::Text(census.member.as_bytes()))?;
    row.push(ValueRef::Text(census.token.as_bytes()))?;
    row.push(ValueRef::Int(deposit))?;
    row.push(ValueRef::Int(i64::from(census.generation)))?;
    row.push(ValueRef::Int(i64::from(census.limit)))?;
    row.push(ValueRef::Int(total))?;
    row.push(ValueRef::Int(unresolved))?;
    Ok(row)
}

/// Whether the row is exactly the one that an archive writes for the census, with these totals.
pub(crate) fn is_of_census(
    alloc: Global,
    row: &Row,
    id: u64,
    census: &Census,
    total: u64,
    unresolved: u64,
) -> Result<bool, Unavailable>
    ensures { IfOk result (λ b. IsTrue b ↔ (row.now ≡ census_row_of id census.now total unresolved)) }
{
    let Ok(number) = i64::try_from(id) else {
        return Err(Unavailable);
    };
    let written = row_of_census(alloc, number, census, total, unresolved)?;
    Ok(row.is_same(&written))
}

/// Whether the row is exactly the one that an archive writes for this count, with the rowid `at` and the census's
/// number.
pub(crate) fn is_of_count(
    alloc: Global,
    row: &Row,
    at: u64,
    id: u64,
    code: &[u8],
    count: u64,
) -> Result<bool, Unavailable>
    ensures { IfOk result (λ b. IsTrue b ↔ (row.now ≡ count_row at (id, (code.now, count)))) }
{
    let (Ok(at), Ok(id), Ok(count)) = (i64::try_from(at), i64::try_from(id), i64::try_from(count))
    else {
        return Err(Unavailable);
    };
    let mut written = Row::new(alloc);
    written.push(ValueRef::Int(at))?;
    written.push(ValueRef::Int(id))?;
    written.push(ValueRef::Text(code))?;
    written.push(ValueRef::Int(count))?;
    Ok(row.is_same(&written))
}

/// Whether the row is exactly the one that an archive writes for the census's flag.
pub(crate) fn is_of_flag(
    alloc: Global,
    row: &Row,
    id: u64,
    steady: bool,
) -> Result<bool, Unavailable>
    ensures { IfOk result (λ b. IsTrue b ↔ (row.now ≡ flag_row_of id steady)) }
{
    let Ok(id) = i64::try_from(id) else {
        return Err(Unavailable);
    };
    let mut written = Row::new(alloc);
    written.push(ValueRef::Int(id))?;
    written.push(ValueRef::Null)?;
    written.push(ValueRef::Int(if steady { 1 } else { 0 }))?;
    Ok(row.is_same(&written))
}
