//! The tables of a new archive.

ghost use Rattle.std.specs.Prelude.{◌≡◌, ◌≤◌, false, [], ◌∷◌, IsTrue, OnOk};
ghost use Rattle.sqlite_trees.specs.View.{doubt};
ghost use Rattle.sqlite.specs.Effect.{IsDatabase};
ghost use Rattle.sqlite.specs.State.{HasCleanDisk, Survives};
ghost use Rattle.sqlite.specs.Held.{state};
ghost use Rattle.life_store.specs.MigrationState.{HoldsFirstParts};
ghost use Rattle.life_store.specs.CensusesState.{Parts, HoldsParts};
ghost use Rattle.life_store.specs.Layout.{no_schema, first_schema, archive_schema};
ghost use Rattle.life_store.specs.Crash.{CrashLeaves};
ghost use Rattle.life_store.specs.CreatingState.{HasTables, IsNewArchive, IsMadeAnew};
ghost use Rattle.life_store.specs.Statements.{StaysInside};

use sqlite::{Alter, Connection, Error, Transaction};

/// Creates the table of flags, which schema version 1 lacks. New archives and migrations share it.
pub(crate) fn create_census_flags<S: Alter>(tx: &mut Transaction<'_, S>) -> Result<usize, Error>
    ensures added { HasCleanDisk (state S.Store tx.new.conn.now) → IsTrue tx.old.conn.now.in_transaction → (p : Parts) → HoldsFirstParts (state S.Store tx.old.conn.now).now p → OnOk result (IsTrue tx.new.conn.now.in_transaction × HoldsParts (state S.Store tx.new.conn.now).now (record p { flagged = [] })) }
    ensures stays { StaysInside S.Store tx.old.conn tx.new.conn result }
    ensures has_tables { HasCleanDisk (state S.Store tx.new.conn.now) → IsTrue tx.old.conn.now.in_transaction → HasTables first_schema (0 ∷ 1 ∷ 3 ∷ 5 ∷ []) (state S.Store tx.old.conn.now).now → OnOk result (IsTrue tx.new.conn.now.in_transaction × HasTables archive_schema (0 ∷ 1 ∷ 3 ∷ 5 ∷ 7 ∷ []) (state S.Store tx.new.conn.now).now) }
    ensures survives { Survives (state S.Store tx.old.conn.now) (state S.Store tx.new.conn.now) (λ _. ⊥) }
{
    tx.execute(
        "CREATE TABLE census_flags (census INTEGER PRIMARY KEY REFERENCES censuses (id), steady INTEGER NOT NULL CHECK (steady IN (0, 1))) STRICT",
        &[],
    )
}

/// Creates the five tables, and the row that names their schema version.
fn create_all<S: Alter>(tx: &mut Transaction<'_, S>) -> Result<(), Error>
    ensures same_reference { tx.new.conn.ghost_name ≡ tx.old.conn.ghost_name }
    ensures has_tables { HasCleanDisk (state S.Store tx.new.conn.now) → IsTrue tx.old.conn.now.in_transaction → HasTables no_schema [] (state S.Store tx.old.conn.now).now → OnOk result (IsNewArchive (state S.Store tx.new.conn.now).now × IsDatabase (state S.Store tx.new.conn.now).now) }
    ensures survives { Survives (state S.Store tx.old.conn.now) (state S.Store tx.new.conn.now) (λ _. ⊥) }
{
    tx.execute("CREATE TABLE layout (version INTEGER NOT NULL) STRICT", &[])?;
    tx.execute(
        "CREATE TABLE deposits (id INTEGER PRIMARY KEY, member TEXT NOT NULL, token TEXT NOT NULL, rule TEXT NOT NULL, population INTEGER NOT NULL CHECK (population >= 0), rle BLOB NOT NULL, UNIQUE (member, token)) STRICT",
        &[],
    )?;
    tx.execute(
        "CREATE TABLE censuses (id INTEGER PRIMARY KEY, member TEXT NOT NULL, token TEXT NOT NULL, deposit INTEGER NOT NULL REFERENCES deposits (id), gens INTEGER NOT NULL, lim INTEGER NOT NULL, clusters INTEGER NOT NULL, unresolved INTEGER NOT NULL, UNIQUE (member, token)) STRICT",
        &[],
    )?;
    tx.execute(
        "CREATE TABLE census_rows (census INTEGER NOT NULL REFERENCES censuses (id), code TEXT NOT NULL, n INTEGER NOT NULL CHECK (n > 0), PRIMARY KEY (census, code)) STRICT",
        &[],
    )?;
    create_census_flags(tx)?;
    tx.execute("INSERT INTO layout (version) VALUES (2)", &[])?;
    Ok(())
}

/// Creates the tables of a new archive in one transaction.
pub(crate) fn create_tables<S: Alter>(conn: &mut Connection<S>) -> Result<(), Error>
    requires { conn.old.in_transaction ≡ false }
    ensures has_tables { HasCleanDisk (state S.Store conn.new) → HasTables no_schema [] (state S.Store conn.old).now → OnOk result (IsTrue (state S.Store conn.new).is_open × IsNewArchive (state S.Store conn.new).now × ((state S.Store conn.new).now ≡ (state S.Store conn.new).committed) × (conn.new.in_transaction ≡ false)) }
    ensures up { HasCleanDisk (state S.Store conn.new) → OnOk result (IsTrue (state S.Store conn.new).is_open) }
    ensures clean { doubt (state S.Store conn.old).is_clean ≤ doubt (state S.Store conn.new).is_clean }
    ensures crash { CrashLeaves S.Store (IsMadeAnew (state S.Store conn.old).now) conn.old.store conn.new.store }
{
    let mut tx = conn.transaction();
    create_all(&mut tx)?;
    tx.commit()?;
    Ok(())
}
