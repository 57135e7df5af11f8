//! The statements on the table of flags, one function for each.

ghost use Rattle.std.specs.Prelude.{◌≡◌, ◌+◌, ℕ, pos, length, option_map, IsTrue, IfOk, OnOk};
ghost use Rattle.sqlite.specs.Effect.{IsDatabase};
ghost use Rattle.sqlite.specs.State.{HasCleanDisk};
ghost use Rattle.sqlite.specs.Held.{state};
ghost use Rattle.life_store.specs.Crash.{NothingNew};
ghost use Rattle.life_store.specs.CensusesState.{Parts, HoldsParts, AddsInside, with_flag};
ghost use Rattle.life_store.specs.Kept.{Tallied, numbered};
ghost use Rattle.life_store.specs.ReadingState.{ShowsFlag};
ghost use Rattle.life_store.specs.Statements.{Withstands, QueriesFor, StaysInside};
ghost use Rattle.life_store.specs.Tables.{tables_of, ForAllHeld};

use crate::executing::{flag, query, sql_integer};
use crate::store_fault::Unavailable;
use sqlite::{Alter, Connection, Error, Row, Transaction};

/// The flag of the census with the number, or no row.
pub(crate) fn show<S: Alter>(conn: &mut Connection<S>, id: i64) -> Result<Vec<Row>, Error>
    ensures { QueriesFor S.Store conn.old conn.new result (λ k rows. (n : ℕ) → id ≡ pos n → ShowsFlag (option_map (λ t. t.steady) (numbered k.censuses n)) rows.items) }
{
    query(
        conn,
        "SELECT steady FROM census_flags WHERE census = ?1 ORDER BY census",
        &[sql_integer(id)],
    )
}

/// Inserts the flag of the census with the number. A number over 63 bits is refused.
pub(crate) fn insert<S: Alter>(
    tx: &mut Transaction<'_, S>,
    id: u64,
    steady: bool,
) -> Result<(), Unavailable>
    ensures added { (p : Parts) (t : Tallied) → t.steady ≡ steady → id ≡ length p.flagged + 1 → AddsInside S.Store tx.old.conn.now tx.new.conn.now result p (with_flag t p) }
    ensures stays { StaysInside S.Store tx.old.conn tx.new.conn result }
    ensures withstands { Withstands S.Store NothingNew tx.old.conn.now tx.new.conn.now }
    ensures sound { HasCleanDisk (state S.Store tx.new.conn.now) → IsTrue tx.old.conn.now.in_transaction → (p : Parts) → HoldsParts (state S.Store tx.old.conn.now).now p → OnOk result (IsDatabase (state S.Store tx.new.conn.now).now) }
{
    let Ok(id) = i64::try_from(id) else {
        return Err(Unavailable);
    };
    tx.execute(
        "INSERT INTO census_flags (census, steady) VALUES (?1, ?2)",
        &[sql_integer(id), flag(steady)],
    )?;
    Ok(())
}
