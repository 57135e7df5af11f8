//! The statements on the tables of censuses, one function for each.

ghost use Rattle.std.specs.Prelude.{◌≡◌, ◌<◌, ◌≤◌, ◌+◌, ◌^◌, ◌++◌, ℕ, pos, Bool, false, [], ◌∷◌, length, map, option_map, IsTrue, IfOk, IfSome, OnOk, OnErr};
ghost use Rattle.sqlite_trees.specs.View.{doubt};
ghost use Rattle.sqlite.specs.Effect.{IsDatabase};
ghost use Rattle.sqlite.specs.State.{HasCleanDisk};
ghost use Rattle.sqlite.specs.Held.{state};
ghost use Rattle.life_core.specs.Rule.{RuleSets, IsRule};
ghost use Rattle.life_core.specs.RuleText.{rule_text};
ghost use Rattle.life_census.specs.Rows.{row_seen};
ghost use Rattle.life_store.specs.ReadingState.{newest_rows, ShowsCensus, ShowsTotal, row_shown};
ghost use Rattle.life_store.specs.Kept.{Kept, Tallied, numbered, total_of};
ghost use Rattle.life_store.specs.Crash.{NothingNew};
ghost use Rattle.life_store.specs.CensusesState.{tallied_by, Parts, HoldsParts, AddsInside, with_census, with_flag};
ghost use Rattle.life_store.specs.Stored.{tagged};
ghost use Rattle.life_store.specs.Statements.{Withstands, QueriesFor, AddsNext, StaysInside};
ghost use Rattle.life_store.specs.Tables.{tables_of, HasOrder, Holds, WasHealthy, HoldsTheSame, ForAllHeld};

use crate::executing::{query, sql_integer, sql_text};
use crate::flags;
use crate::kept::Census;
use crate::store_fault::Unavailable;
use life_census::{Row as TallyRow, Tally};
use sqlite::{Alter, Connection, Error, Row, Transaction};

/// The greatest number of a census, or no row if there are no censuses.
pub(crate) fn newest<S: Alter>(conn: &mut Connection<S>) -> Result<Vec<Row>, Error>
    ensures { QueriesFor S.Store conn.old conn.new result (λ k rows. rows.items ≡ newest_rows (length k.censuses)) }
{
    query(
        conn,
        "SELECT id FROM censuses ORDER BY id DESC LIMIT 1",
        &[],
    )
}

/// The row of the census with the number, if any.
pub(crate) fn show<S: Alter>(conn: &mut Connection<S>, id: i64) -> Result<Vec<Row>, Error>
    ensures { QueriesFor S.Store conn.old conn.new result (λ k rows. (n : ℕ) → id ≡ pos n → ShowsCensus (option_map (λ t. (n, t)) (numbered k.censuses n)) rows.items) }
{
    query(
        conn,
        "SELECT id, member, token, deposit, gens, lim, clusters, unresolved FROM censuses WHERE id = ?1 ORDER BY id",
        &[sql_integer(id)],
    )
}

/// The row of the census with the member and the token, if any.
pub(crate) fn find<'a, S: Alter>(
    conn: &mut Connection<S>,
    member: &'a [u8],
    token: &'a [u8],
) -> Result<Vec<Row>, Error>
    ensures { QueriesFor S.Store conn.old conn.new result (λ k rows. ShowsCensus (tallied_by member.now token.now k.censuses) rows.items) }
{
    query(
        conn,
        "SELECT id, member, token, deposit, gens, lim, clusters, unresolved FROM censuses WHERE member = ?1 AND token = ?2 ORDER BY id",
        &[sql_text(member), sql_text(token)],
    )
}

/// The tally's rows of the census with the number, in byte order of their codes.
pub(crate) fn rows_of<S: Alter>(conn: &mut Connection<S>, id: i64) -> Result<Vec<Row>, Error>
    ensures { QueriesFor S.Store conn.old conn.new result (λ k rows. (n : ℕ) → id ≡ pos n → IfSome (numbered k.censuses n) (λ t. rows.items ≡ map row_shown t.tally.rows)) }
{
    query(
        conn,
        "SELECT code, n FROM census_rows WHERE census = ?1 ORDER BY code",
        &[sql_integer(id)],
    )
}

/// Inserts the row of the census, which includes its tally's totals. A number over 63 bits is refused.
fn insert_census<S: Alter>(
    tx: &mut Transaction<'_, S>,
    id: u64,
    census: &Census,
    tally: &Tally,
) -> Result<(), Unavailable>
    ensures added { (p : Parts) (steady : Bool) → id ≡ length p.censuses + 1 → AddsInside S.Store tx.old.conn.now tx.new.conn.now result p (record p { censuses = p.censuses ++ record { census = census.now; tally = tally.now; steady = steady } ∷ [] }) }
    ensures stays { StaysInside S.Store tx.old.conn tx.new.conn result }
    ensures withstands { Withstands S.Store NothingNew tx.old.conn.now tx.new.conn.now }
    ensures few { OnOk result (id < 2 ^ 63) }
{
    let (Ok(id), Ok(deposit), Ok(total), Ok(unresolved)) = (
        i64::try_from(id),
        i64::try_from(census.deposit),
        i64::try_from(tally.total),
        i64::try_from(tally.unresolved),
    ) else {
        return Err(Unavailable);
    };
    tx.execute(
        "INSERT INTO censuses (id, member, token, deposit, gens, lim, clusters, unresolved) VALUES (?1, ?2, ?3, ?4, ?5, ?6, ?7, ?8)",
        &[
            sql_integer(id),
            sql_text(census.member.as_bytes()),
            sql_text(census.token.as_bytes()),
            sql_integer(deposit),
            sql_integer(i64::from(census.generation)),
            sql_integer(i64::from(census.limit)),
            sql_integer(total),
            sql_integer(unresolved),
        ],
    )?;
    Ok(())
}

/// Inserts one row of the tally of the census with the number.
fn insert_row<S: Alter>(
    tx: &mut Transaction<'_, S>,
    id: u64,
    row: &TallyRow,
) -> Result<(), Unavailable>
    ensures added { (p : Parts) → AddsInside S.Store tx.old.conn.now tx.new.conn.now result p (record p { counts = p.counts ++ (id, row_seen row.now) ∷ [] }) }
    ensures stays { StaysInside S.Store tx.old.conn tx.new.conn result }
    ensures withstands { Withstands S.Store NothingNew tx.old.conn.now tx.new.conn.now }
{
    let (Ok(id), Ok(count)) = (i64::try_from(id), i64::try_from(row.count)) else {
        return Err(Unavailable);
    };
    tx.execute(
        "INSERT INTO census_rows (census, code, n) VALUES (?1, ?2, ?3)",
        &[
            sql_integer(id),
            sql_text(row.code.as_bytes()),
            sql_integer(count),
        ],
    )?;
    Ok(())
}

/// Inserts these rows of the tally, in their order.
fn insert_rows<S: Alter>(
    tx: &mut Transaction<'_, S>,
    id: u64,
    rows: &[TallyRow],
) -> Result<(), Unavailable>
    ensures added { (p : Parts) → AddsInside S.Store tx.old.conn.now tx.new.conn.now result p (record p { counts = p.counts ++ tagged id (map row_seen rows.now) }) }
    ensures stays { StaysInside S.Store tx.old.conn tx.new.conn result }
    ensures withstands { Withstands S.Store NothingNew tx.old.conn.now tx.new.conn.now }
{
    for row in rows {
        insert_row(tx, id, row)?;
    }
    Ok(())
}

/// Inserts the census under the number, its tally's rows, and its flag. After an error the caller rolls back.
fn insert_with_flag<S: Alter>(
    tx: &mut Transaction<'_, S>,
    id: u64,
    census: &Census,
    tally: &Tally,
    steady: bool,
) -> Result<(), Unavailable>
    ensures added { (p : Parts) (t : Tallied) → t ≡ record { census = census.now; tally = tally.now; steady = steady } → id ≡ length p.censuses + 1 → id ≡ length p.flagged + 1 → AddsInside S.Store tx.old.conn.now tx.new.conn.now result p (with_flag t (with_census id t p)) }
    ensures stays { StaysInside S.Store tx.old.conn tx.new.conn result }
    ensures withstands { Withstands S.Store NothingNew tx.old.conn.now tx.new.conn.now }
    ensures sound { HasCleanDisk (state S.Store tx.new.conn.now) → IsTrue tx.old.conn.now.in_transaction → (p : Parts) → HoldsParts (state S.Store tx.old.conn.now).now p → id ≡ length p.censuses + 1 → OnOk result (IsDatabase (state S.Store tx.new.conn.now).now) }
    ensures few { OnOk result (id < 2 ^ 63) }
{
    insert_census(tx, id, census, tally)?;
    insert_rows(tx, id, tally.rows.as_slice())?;
    flags::insert(tx, id, steady)
}

/// Adds the census under the number, the rows of its tally, and its flag, in one transaction. If that fails, it is rolled back.
pub(crate) fn insert<S: Alter>(
    conn: &mut Connection<S>,
    id: u64,
    census: &Census,
    tally: &Tally,
    steady: bool,
) -> Result<(), Unavailable>
    requires { HasOrder tally.now }
    ensures { AddsNext S.Store (λ k. id ≡ length k.censuses + 1) (λ k. record k { censuses = k.censuses ++ record { census = census.now; tally = tally.now; steady = steady } ∷ [] }) conn.old conn.new result }
{
    if !conn.is_autocommit() {
        return Err(Unavailable);
    }
    let mut tx = conn.transaction();
    match insert_with_flag(&mut tx, id, census, tally, steady) {
        Ok(()) => match tx.commit() {
            Ok(()) => Ok(()),
            Err(_) => Err(Unavailable),
        },
        Err(fault) => Err(fault),
    }
}

/// How many clusters with the code there are in all censuses of deposits with the rule: one row, with NULL for none.
pub(crate) fn total<'a, S: Alter>(
    conn: &mut Connection<S>,
    rule: &'a [u8],
    code: &'a [u8],
) -> Result<Vec<Row>, Error>
    ensures { QueriesFor S.Store conn.old conn.new result (λ k rows. (r : RuleSets) → IsRule r → rule.now ≡ rule_text r → ShowsTotal (total_of k r code.now) rows.items) }
{
    query(
        conn,
        "SELECT sum(n) FROM census_rows JOIN censuses ON census_rows.census = censuses.id JOIN deposits ON censuses.deposit = deposits.id WHERE rule = ?1 AND code = ?2",
        &[sql_text(rule), sql_text(code)],
    )
}
