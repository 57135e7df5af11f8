//! Running statements outside a transaction, and binding values to them.

ghost use Rattle.std.specs.Prelude.{◌≡◌, ◌≤◌, pos, false, [], ◌∷◌, Ok, IsTrue, IfOk, OnOk, OnErr};
ghost use Rattle.sqlite_value.specs.declared.value.Value.TheVariants.{Int, Text, Blob};
ghost use Rattle.sqlite_value.specs.Value.{owned};
ghost use Rattle.sqlite_trees.specs.View.{doubt};
ghost use Rattle.sqlite.specs.State.{HasCleanDisk, Shown, Executes, CommitsShowing, CommitsBy};
ghost use Rattle.sqlite.specs.Held.{state};
ghost use Rattle.sqlite.specs.Values.{bound};
ghost use Rattle.life_store.specs.ExecutingState.{IsSeenAgain};
ghost use Rattle.life_store.specs.Stored.{flag_number};
ghost use Rattle.life_store.specs.Statements.{Withstands, StaysInside};

use crate::store_fault::Unavailable;
use sqlite::types::ValueRef;
use sqlite::{Alter, Connection, Error, ErrorCode, Row, Transaction};

/// An INTEGER of SQL.
pub(crate) fn sql_integer<'a>(n: i64) -> ValueRef<'a>
    ensures { owned result ≡ Int n }
{
    ValueRef::Int(n)
}

/// A TEXT of SQL.
pub(crate) fn sql_text<'a>(bytes: &'a [u8]) -> ValueRef<'a>
    ensures { owned result ≡ Text bytes.now }
{
    ValueRef::Text(bytes)
}

/// A BLOB of SQL.
pub(crate) fn sql_blob<'a>(bytes: &'a [u8]) -> ValueRef<'a>
    ensures { owned result ≡ Blob bytes.now }
{
    ValueRef::Blob(bytes)
}

/// A flag as an INTEGER of SQL: 1 or 0.
pub(crate) fn flag<'a>(steady: bool) -> ValueRef<'a>
    ensures { owned result ≡ Int (pos (flag_number steady)) }
{
    if steady {
        ValueRef::Int(1)
    } else {
        ValueRef::Int(0)
    }
}

/// All rows of the answer to a query. If a transaction is open, the query is refused.
pub(crate) fn query<S: Alter>(
    conn: &mut Connection<S>,
    sql: &str,
    params: &[ValueRef<'_>],
) -> Result<Vec<Row>, Error>
    ensures shown { HasCleanDisk (state S.Store conn.new) → IfOk result (λ rows. Shown sql.now (bound params.now) (state S.Store conn.old) (state S.Store conn.new) rows.items) }
    ensures refused { HasCleanDisk (state S.Store conn.new) → OnErr result (IsSeenAgain (state S.Store conn.old) (state S.Store conn.new)) }
    ensures clean { doubt (state S.Store conn.old).is_clean ≤ doubt (state S.Store conn.new).is_clean }
    ensures mode { conn.old.in_transaction ≡ false → conn.new.in_transaction ≡ false }
    ensures withstands { Withstands S.Store (CommitsShowing sql.now (bound params.now) (state S.Store conn.old)) conn.old conn.new }
{
    if !conn.is_autocommit() {
        return Err(Error::SqliteFailure(ErrorCode::TransactionState));
    }
    conn.query_all(sql, params)
}

/// Runs a statement that changes rows. If a transaction is open, it is refused.
pub(crate) fn write<S: Alter>(
    conn: &mut Connection<S>,
    sql: &str,
    params: &[ValueRef<'_>],
) -> Result<usize, Error>
    ensures ran { HasCleanDisk (state S.Store conn.new) → IfOk result (λ count. Executes sql.now (bound params.now) (state S.Store conn.old) (state S.Store conn.new) (Ok count)) }
    ensures refused { HasCleanDisk (state S.Store conn.new) → OnErr result (IsSeenAgain (state S.Store conn.old) (state S.Store conn.new)) }
    ensures clean { doubt (state S.Store conn.old).is_clean ≤ doubt (state S.Store conn.new).is_clean }
    ensures withstands { Withstands S.Store (CommitsBy sql.now (bound params.now) (state S.Store conn.old)) conn.old conn.new }
    ensures up { HasCleanDisk (state S.Store conn.new) → OnOk result (IsTrue (state S.Store conn.new).is_open) }
{
    if !conn.is_autocommit() {
        return Err(Error::SqliteFailure(ErrorCode::TransactionState));
    }
    conn.execute(sql, params)
}

/// All rows of the answer to a query inside a transaction.
pub(crate) fn query_inside<S: Alter>(
    tx: &mut Transaction<'_, S>,
    sql: &str,
    params: &[ValueRef<'_>],
) -> Result<Vec<Row>, Unavailable>
    ensures shown { HasCleanDisk (state S.Store tx.new.conn.now) → IfOk result (λ rows. Shown sql.now (bound params.now) (state S.Store tx.old.conn.now) (state S.Store tx.new.conn.now) rows.items) }
    ensures stays { StaysInside S.Store tx.old.conn tx.new.conn result }
{
    Ok(tx.query_all(sql, params)?)
}

/// All rows of the answer to a query inside a transaction, with a number as its parameter. More than 63 bits are
/// refused.
pub(crate) fn query_about<S: Alter>(
    tx: &mut Transaction<'_, S>,
    sql: &str,
    id: u64,
) -> Result<Vec<Row>, Unavailable>
    ensures shown { HasCleanDisk (state S.Store tx.new.conn.now) → IfOk result (λ rows. Shown sql.now (Int (pos id) ∷ []) (state S.Store tx.old.conn.now) (state S.Store tx.new.conn.now) rows.items) }
    ensures stays { StaysInside S.Store tx.old.conn tx.new.conn result }
{
    let Ok(id) = i64::try_from(id) else {
        return Err(Unavailable);
    };
    query_inside(tx, sql, &[sql_integer(id)])
}
