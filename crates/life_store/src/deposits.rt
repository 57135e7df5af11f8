//! The statements on the table of deposits, one function for each.

ghost use Rattle.std.specs.Prelude.{◌≡◌, ℕ, pos, length, map, option_map, IfOk};
ghost use Rattle.std.specs.String.{string_bytes};
ghost use Rattle.sqlite.specs.Held.{state};
ghost use Rattle.life_rle.specs.Record.{IsInside};
ghost use Rattle.life_store.specs.ReadingState.{newest_rows, ShowsDeposit, line_shown};
ghost use Rattle.life_store.specs.Kept.{numbered, deposit_by, listed_after};
ghost use Rattle.life_store.specs.DepositsState.{AreValuesOf, AddsUnder};
ghost use Rattle.life_store.specs.Statements.{QueriesFor};
ghost use Rattle.life_store.specs.Tables.{tables_of, ForAllHeld};

use crate::executing::{query, sql_blob, sql_integer, sql_text, write};
use crate::kept::Deposit;
use crate::store_fault::Unavailable;
use sqlite::{Alter, Connection, Error, Row};
use std::alloc::Global;

/// The greatest number of a deposit, or no row if there are no deposits.
pub(crate) fn newest<S: Alter>(conn: &mut Connection<S>) -> Result<Vec<Row>, Error>
    ensures { QueriesFor S.Store conn.old conn.new result (λ k rows. rows.items ≡ newest_rows (length k.deposits)) }
{
    query(
        conn,
        "SELECT id FROM deposits ORDER BY id DESC LIMIT 1",
        &[],
    )
}

/// The row of the deposit with the number, if any.
pub(crate) fn show<S: Alter>(conn: &mut Connection<S>, id: i64) -> Result<Vec<Row>, Error>
    ensures { QueriesFor S.Store conn.old conn.new result (λ k rows. (n : ℕ) → id ≡ pos n → ShowsDeposit (option_map (λ d. (n, d)) (numbered k.deposits n)) rows.items) }
{
    query(
        conn,
        "SELECT id, member, token, rule, population, rle FROM deposits WHERE id = ?1 ORDER BY id",
        &[sql_integer(id)],
    )
}

/// The row of the deposit with the member and the token, if any.
pub(crate) fn find<'a, S: Alter>(
    conn: &mut Connection<S>,
    member: &'a [u8],
    token: &'a [u8],
) -> Result<Vec<Row>, Error>
    ensures { QueriesFor S.Store conn.old conn.new result (λ k rows. ShowsDeposit (deposit_by member.now token.now k.deposits) rows.items) }
{
    query(
        conn,
        "SELECT id, member, token, rule, population, rle FROM deposits WHERE member = ?1 AND token = ?2 ORDER BY id",
        &[sql_text(member), sql_text(token)],
    )
}

/// The first hundred deposits with a greater number.
pub(crate) fn list_after<S: Alter>(conn: &mut Connection<S>, id: i64) -> Result<Vec<Row>, Error>
    ensures { QueriesFor S.Store conn.old conn.new result (λ k rows. (n : ℕ) → id ≡ pos n → rows.items ≡ map line_shown (listed_after n k.deposits)) }
{
    query(
        conn,
        "SELECT id, member, population, rule FROM deposits WHERE id > ?1 ORDER BY id LIMIT 100",
        &[sql_integer(id)],
    )
}

/// The columns of a deposit's row that are computed from its pattern.
#[derive(Drop)]
struct Values {
    rule: String,
    population: i64,
    file: Vec<u8>,
}

/// Computes these columns; the file is the pattern's canonical text.
fn values_of(alloc: Global, deposit: &Deposit) -> Result<Values, Unavailable>
    requires { IsInside 1024 deposit.now.content.cells }
    ensures { IfOk result (λ v. AreValuesOf deposit.now (string_bytes v.rule) v.population v.file.items) }
{
    let Ok(population) = i64::try_from(deposit.content.cells.population()) else {
        return Err(Unavailable);
    };
    let rule = deposit.content.rule.text(alloc)?;
    let file = life_rle::write(alloc, &deposit.content)?;
    Ok(Values {
        rule,
        population,
        file,
    })
}

/// Adds the deposit under the number, with these values.
fn insert<S: Alter>(
    conn: &mut Connection<S>,
    id: i64,
    deposit: &Deposit,
    values: &Values,
) -> Result<usize, Error>
    requires { AreValuesOf deposit.now (string_bytes values.now.rule) values.now.population values.now.file.items }
    ensures { AddsUnder S.Store id deposit.now conn.old conn.new result }
{
    write(
        conn,
        "INSERT INTO deposits (id, member, token, rule, population, rle) VALUES (?1, ?2, ?3, ?4, ?5, ?6)",
        &[
            sql_integer(id),
            sql_text(deposit.member.as_bytes()),
            sql_text(deposit.token.as_bytes()),
            sql_text(values.rule.as_bytes()),
            sql_integer(values.population),
            sql_blob(values.file.as_slice()),
        ],
    )
}

/// Computes the columns and adds the deposit under the number, which has to be the next one.
pub(crate) fn add<S: Alter>(
    conn: &mut Connection<S>,
    alloc: Global,
    id: i64,
    deposit: &Deposit,
) -> Result<(), Unavailable>
    requires { IsInside 1024 deposit.now.content.cells }
    ensures { AddsUnder S.Store id deposit.now conn.old conn.new result }
{
    let values = values_of(alloc, deposit)?;
    match insert(conn, id, deposit, &values) {
        Ok(_) => Ok(()),
        Err(_) => Err(Unavailable),
    }
}
