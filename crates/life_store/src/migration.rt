//! Migrating archives of schema version 1, which have no flags, to schema version 2.

ghost use Rattle.std.specs.Prelude.{◌≡◌, ◌≤◌, ◌+◌, ◌↔◌, Bool, false, [], Some, length, option_map, IsTrue, IfOk, OnOk, OnErr};
ghost use Rattle.std.specs.List.{AllByRecursion};
ghost use Rattle.sqlite_trees.specs.View.{doubt};
ghost use Rattle.sqlite.specs.Effect.{IsDatabase};
ghost use Rattle.sqlite.specs.State.{HasCleanDisk};
ghost use Rattle.sqlite.specs.Held.{state};
ghost use Rattle.life_rle.specs.Record.{IsInside};
ghost use Rattle.life_census.specs.Steady.{IsSteady};
ghost use Rattle.life_store.specs.ExecutingState.{IsSeenAgain};
ghost use Rattle.life_store.specs.Migration.{version_1, generation_in, IsFlagged};
ghost use Rattle.life_store.specs.Crash.{CrashLeaves};
ghost use Rattle.life_store.specs.MigrationState.{HoldsFirstParts, IsFlaggedUpTo, IsMigrated, IsCarriedOver};
ghost use Rattle.life_store.specs.CensusesState.{Parts, HoldsParts, with_flag};
ghost use Rattle.life_store.specs.Kept.{Tallied, numbered};
ghost use Rattle.life_store.specs.ReadingState.{newest_rows, ShowsDeposit, ShowsCensus};
ghost use Rattle.life_store.specs.Stored.{IsFiled};
ghost use Rattle.life_store.specs.Statements.{StaysInside};
ghost use Rattle.life_store.specs.Tables.{version_2};

use crate::creating::create_census_flags;
use crate::executing::{query_about, query_inside};
use crate::flags;
use crate::kept::Deposit;
use crate::reading::{count_in, first_census, first_deposit};
use crate::store_fault::Unavailable;
use life_census::steady;
use life_code::PERIOD_LIMIT;
use life_core::{GENERATION_LIMIT, generation};
use life_rle::Record;
use sqlite::{Alter, Connection, Row, Transaction};
use std::alloc::Global;

/// Whether the generation of the content is steady under the limit. A generation or a limit that is out of range is
/// refused.
fn is_steady(alloc: Global, content: &Record, number: u32, limit: u32) -> Result<bool, Unavailable>
    requires { IsInside 1024 content.now.cells }
    ensures { IfOk result (λ b. IsTrue b ↔ IsSteady content.now.rule (generation_in content.now number) limit) }
{
    if number > GENERATION_LIMIT {
        return Err(Unavailable);
    }
    if limit < 1 || limit > PERIOD_LIMIT {
        return Err(Unavailable);
    }
    let pattern = generation(alloc, &content.rule, &content.cells, number)?;
    Ok(steady(alloc, &content.rule, &pattern, limit)?)
}

/// The greatest number of a census, or no row if there are no censuses.
fn newest_census<S: Alter>(tx: &mut Transaction<'_, S>) -> Result<Vec<Row>, Unavailable>
    ensures tells { HasCleanDisk (state S.Store tx.new.conn.now) → (p : Parts) → HoldsParts (state S.Store tx.old.conn.now).now p → IfOk result (λ rows. (rows.items ≡ newest_rows (length p.censuses)) × HoldsParts (state S.Store tx.new.conn.now).now p) }
    ensures stays { StaysInside S.Store tx.old.conn tx.new.conn result }
{
    query_inside(tx, "SELECT id FROM censuses ORDER BY id DESC LIMIT 1", &[])
}

/// The row of the census with the number, if any.
fn show_census<S: Alter>(tx: &mut Transaction<'_, S>, id: u64) -> Result<Vec<Row>, Unavailable>
    ensures tells { HasCleanDisk (state S.Store tx.new.conn.now) → (p : Parts) → HoldsParts (state S.Store tx.old.conn.now).now p → IfOk result (λ rows. ShowsCensus (option_map (λ t. (id, t)) (numbered p.censuses id)) rows.items × HoldsParts (state S.Store tx.new.conn.now).now p) }
    ensures stays { StaysInside S.Store tx.old.conn tx.new.conn result }
{
    query_about(
        tx,
        "SELECT id, member, token, deposit, gens, lim, clusters, unresolved FROM censuses WHERE id = ?1 ORDER BY id",
        id,
    )
}

/// The row of the deposit with the number, if any.
fn show_deposit<S: Alter>(tx: &mut Transaction<'_, S>, id: u64) -> Result<Vec<Row>, Unavailable>
    ensures tells { HasCleanDisk (state S.Store tx.new.conn.now) → (p : Parts) → AllByRecursion IsFiled p.deposits → HoldsParts (state S.Store tx.old.conn.now).now p
        → IfOk result (λ rows. ShowsDeposit (option_map (λ d. (id, d)) (numbered p.deposits id)) rows.items × HoldsParts (state S.Store tx.new.conn.now).now p) }
    ensures stays { StaysInside S.Store tx.old.conn tx.new.conn result }
{
    query_about(
        tx,
        "SELECT id, member, token, rule, population, rle FROM deposits WHERE id = ?1 ORDER BY id",
        id,
    )
}

/// How many censuses there are.
fn count_censuses<S: Alter>(tx: &mut Transaction<'_, S>) -> Result<u64, Unavailable>
    ensures counted { HasCleanDisk (state S.Store tx.new.conn.now) → (p : Parts) → HoldsParts (state S.Store tx.old.conn.now).now p → IfOk result (λ n. (n ≡ length p.censuses) × HoldsParts (state S.Store tx.new.conn.now).now p) }
    ensures stays { StaysInside S.Store tx.old.conn tx.new.conn result }
{
    let rows = newest_census(tx)?;
    count_in(rows.as_slice())
}

/// The deposit, the generation and the limit of the census of the number.
fn numbers_at<S: Alter>(
    alloc: Global,
    tx: &mut Transaction<'_, S>,
    id: u64,
) -> Result<(u64, u32, u32), Unavailable>
    ensures found { HasCleanDisk (state S.Store tx.new.conn.now) → (p : Parts) (t : Tallied) → HoldsParts (state S.Store tx.old.conn.now).now p → numbered p.censuses id ≡ Some t → IfOk result (λ n. (n.0 ≡ t.census.deposit) × (n.1 ≡ t.census.generation) × (n.2 ≡ t.census.limit) × HoldsParts (state S.Store tx.new.conn.now).now p) }
    ensures stays { StaysInside S.Store tx.old.conn tx.new.conn result }
{
    let rows = show_census(tx, id)?;
    match first_census(alloc, rows.as_slice())? {
        Some((_, kept)) => Ok((
            kept.census.deposit,
            kept.census.generation,
            kept.census.limit,
        )),
        None => Err(Unavailable),
    }
}

/// The deposit with the number. A missing one is an error, since a census refers to it.
fn deposit_at<S: Alter>(
    alloc: Global,
    tx: &mut Transaction<'_, S>,
    id: u64,
) -> Result<Deposit, Unavailable>
    ensures found { HasCleanDisk (state S.Store tx.new.conn.now) → (p : Parts) → AllByRecursion IsFiled p.deposits → HoldsParts (state S.Store tx.old.conn.now).now p → IfOk result (λ d. (numbered p.deposits id ≡ Some d) × HoldsParts (state S.Store tx.new.conn.now).now p) }
    ensures stays { StaysInside S.Store tx.old.conn tx.new.conn result }
    ensures small { IfOk result (λ d. IsInside 1024 d.content.cells) }
{
    let rows = show_deposit(tx, id)?;
    match first_deposit(alloc, rows.as_slice())? {
        Some((_, deposit)) => Ok(deposit),
        None => Err(Unavailable),
    }
}

/// Computes the flag of the census of the number from its deposit, and adds it.
fn migrate_one<S: Alter>(
    alloc: Global,
    tx: &mut Transaction<'_, S>,
    id: u64,
) -> Result<(), Unavailable>
    ensures migrated { HasCleanDisk (state S.Store tx.new.conn.now) → IsTrue tx.old.conn.now.in_transaction → (p : Parts) (t : Tallied) → AllByRecursion IsFiled p.deposits → HoldsParts (state S.Store tx.old.conn.now).now p → id ≡ length p.flagged + 1 → numbered p.censuses id ≡ Some t
        → OnOk result ((b : Bool) × IsFlagged p.deposits (record t { steady = b }) × HoldsParts (state S.Store tx.new.conn.now).now (with_flag (record t { steady = b }) p)) }
    ensures stays { StaysInside S.Store tx.old.conn tx.new.conn result }
{
    let (deposit, generation, limit) = numbers_at(alloc, tx, id)?;
    let deposit = deposit_at(alloc, tx, deposit)?;
    let steady = is_steady(alloc, &deposit.content, generation, limit)?;
    flags::insert(tx, id, steady)
}

/// Computes and adds the flag of each census, in the order of their numbers.
fn migrate_each<S: Alter>(
    alloc: Global,
    tx: &mut Transaction<'_, S>,
    count: u64,
) -> Result<(), Unavailable>
    ensures migrated { HasCleanDisk (state S.Store tx.new.conn.now) → IsTrue tx.old.conn.now.in_transaction → (p : Parts) → AllByRecursion IsFiled p.deposits → HoldsParts (state S.Store tx.old.conn.now).now p → p.flagged ≡ [] → count ≡ length p.censuses
        → OnOk result (IsFlaggedUpTo p count (state S.Store tx.new.conn.now).now) }
    ensures stays { StaysInside S.Store tx.old.conn tx.new.conn result }
{
    for i in 0..count {
        migrate_one(alloc, tx, i + 1)?;
    }
    Ok(())
}

/// Names schema version 2 in the one row of `layout`.
fn name_version<S: Alter>(tx: &mut Transaction<'_, S>) -> Result<(), Unavailable>
    ensures named { HasCleanDisk (state S.Store tx.new.conn.now) → IsTrue tx.old.conn.now.in_transaction → (p : Parts) → HoldsParts (state S.Store tx.old.conn.now).now p → p.layout ≡ version_1 → OnOk result (HoldsParts (state S.Store tx.new.conn.now).now (record p { layout = version_2 })) }
    ensures sound { HasCleanDisk (state S.Store tx.new.conn.now) → IsTrue tx.old.conn.now.in_transaction → (p : Parts) → HoldsParts (state S.Store tx.old.conn.now).now p → OnOk result (IsDatabase (state S.Store tx.new.conn.now).now) }
    ensures stays { StaysInside S.Store tx.old.conn tx.new.conn result }
{
    tx.execute("UPDATE layout SET version = 2", &[])?;
    Ok(())
}

/// Creates the table of flags, fills it, and names schema version 2.
fn migrate_all<S: Alter>(alloc: Global, tx: &mut Transaction<'_, S>) -> Result<(), Unavailable>
    ensures migrated { HasCleanDisk (state S.Store tx.new.conn.now) → IsTrue tx.old.conn.now.in_transaction → (p : Parts) → AllByRecursion IsFiled p.deposits → HoldsFirstParts (state S.Store tx.old.conn.now).now p → p.layout ≡ version_1
        → OnOk result (IsMigrated p (state S.Store tx.new.conn.now).now × IsDatabase (state S.Store tx.new.conn.now).now) }
    ensures stays { StaysInside S.Store tx.old.conn tx.new.conn result }
{
    create_census_flags(tx)?;
    let count = count_censuses(tx)?;
    migrate_each(alloc, tx, count)?;
    name_version(tx)
}

/// Migrates in one transaction, which is rolled back if it fails.
fn migrate_at_once<S: Alter>(alloc: Global, conn: &mut Connection<S>) -> Result<(), Unavailable>
    requires { conn.old.in_transaction ≡ false }
    ensures migrated { HasCleanDisk (state S.Store conn.new) → (p : Parts) → AllByRecursion IsFiled p.deposits → HoldsFirstParts (state S.Store conn.old).now p → p.layout ≡ version_1 → OnOk result (IsMigrated p (state S.Store conn.new).now) }
    ensures undone { HasCleanDisk (state S.Store conn.new) → (IsTrue (state S.Store conn.old).is_open → (state S.Store conn.old).now ≡ (state S.Store conn.old).committed) → OnErr result (IsSeenAgain (state S.Store conn.old) (state S.Store conn.new)) }
    ensures ended { OnOk result (conn.new.in_transaction ≡ false) }
    ensures was_open { HasCleanDisk (state S.Store conn.new) → IsTrue (state S.Store conn.new).is_open → IsTrue (state S.Store conn.old).is_open }
    ensures up { HasCleanDisk (state S.Store conn.new) → OnOk result (IsTrue (state S.Store conn.new).is_open) }
    ensures clean { doubt (state S.Store conn.old).is_clean ≤ doubt (state S.Store conn.new).is_clean }
    ensures crash { CrashLeaves S.Store (IsCarriedOver (state S.Store conn.old).now) conn.old.store conn.new.store }
{
    let mut tx = conn.transaction();
    match migrate_all(alloc, &mut tx) {
        Ok(()) => match tx.commit() {
            Ok(()) => Ok(()),
            Err(_) => Err(Unavailable),
        },
        Err(fault) => Err(fault),
    }
}

/// Migrates an archive of schema version 1 to schema version 2, or leaves it unchanged.
pub(crate) fn migrate<S: Alter>(alloc: Global, conn: &mut Connection<S>) -> Result<(), Unavailable>
    ensures migrated { HasCleanDisk (state S.Store conn.new) → (p : Parts) → AllByRecursion IsFiled p.deposits → HoldsFirstParts (state S.Store conn.old).now p → p.layout ≡ version_1 → OnOk result (IsMigrated p (state S.Store conn.new).now) }
    ensures undone { HasCleanDisk (state S.Store conn.new) → OnErr result (IsSeenAgain (state S.Store conn.old) (state S.Store conn.new)) }
    ensures ended { OnOk result (conn.new.in_transaction ≡ false) }
    ensures was_open { HasCleanDisk (state S.Store conn.new) → IsTrue (state S.Store conn.new).is_open → IsTrue (state S.Store conn.old).is_open }
    ensures up { HasCleanDisk (state S.Store conn.new) → OnOk result (IsTrue (state S.Store conn.new).is_open) }
    ensures clean { doubt (state S.Store conn.old).is_clean ≤ doubt (state S.Store conn.new).is_clean }
    ensures crash { CrashLeaves S.Store (IsCarriedOver (state S.Store conn.old).now) conn.old.store conn.new.store }
{
    if !conn.is_autocommit() {
        return Err(Unavailable);
    }
    migrate_at_once(alloc, conn)
}
