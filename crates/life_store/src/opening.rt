//! Opening and closing archives. If a database has none of the tables, they are created, and the tables
//! of schema version 1 are migrated.

ghost use Rattle.std.specs.Prelude.{◌≡◌, ◌≢◌, ◌↔◌, ◌≤◌, ◌⊎◌, Ok, Err, false, List, [], IsTrue, IfOk, IfErr, OnOk};
ghost use Rattle.sqlite_value.specs.declared.value.Value.{Value};
ghost use Rattle.sqlite_trees.specs.Tree.{Trees};
ghost use Rattle.sqlite_trees.specs.View.{doubt, IsClean, IsQuiet};
ghost use Rattle.sqlite_store.specs.FileStore.{view};
ghost use Rattle.sqlite.specs.State.{HasCleanDisk};
ghost use Rattle.sqlite.specs.Held.{state, AreDatabases};
ghost use Rattle.sqlite.specs.Closing.{IsCopied};
ghost use Rattle.sqlite.specs.Files.{file_state, image_of, over_files};
ghost use Rattle.sqlite_wal.specs.Files.{image_at};
ghost use Rattle.sqlite_wal.specs.Reads.{AreClean};
ghost use Rattle.sqlite_schema.specs.declared.schema.Schema.{Schema as SchemaValue};
ghost use Rattle.life_store.specs.Crash.{NothingNew, CrashLeaves};
ghost use Rattle.life_store.specs.Migration.{Migrated};
ghost use Rattle.life_store.specs.MigrationState.{Carries};
ghost use Rattle.life_store.specs.Kept.{Kept};
ghost use Rattle.life_store.specs.CreatingState.{HasTables};
ghost use Rattle.life_store.specs.Layout.{no_schema};
ghost use Rattle.life_store.specs.Opening.{is_capacity, nothing_kept, without_log, IsLayout, FilesHaveVersions, FilesHold, FilesHoldFirst, LeftHold, AreLeftOf, AreReleased, HaveFailedSince, AreUnharmed, AreRefusedAs, ListNothing};
ghost use Rattle.life_store.specs.OpeningState.{IsSettled, IsMadeOfOld, IsMadeOf, AreLeftMade, HaveVersions, has_table, has_view, has_name, has_some, column_of, version_shown, version_with, rows_of_version, schema_of};
ghost use Rattle.life_store.specs.Tables.{tables_of, Holds, TreesHold, HoldsTheSame, IsHealthyIfClean};

use crate::archive::Archive;
use crate::creating::create_tables;
use crate::executing::query;
use crate::log_path::{missing_log, remove_blank};
use crate::migration::migrate;
use crate::store_fault::{OpenFault, Unavailable};
use sqlite::types::ValueRef;
use sqlite::{Alter, Connection, Error, FileFrom, FileStore, Files, MemStore, Options, Row, Start};
use sqlite_disk::Disk;
use sqlite_schema::names::same_name;
use sqlite_schema::schema::{Schema, Table, View};
use sqlite_trees::store::Store;
use std::alloc::Global;

/// The seed of the random numbers that identify a log's own frames.
const SEED: u64 = 1;

/// A new archive's file stores a checksum for each page. An existing file stays as it is.
pub(crate) const WITH_CHECKSUMS: bool = true;

/// Whether an archive may have this many deposits.
fn is_capacity(capacity: u64) -> bool
    ensures { result ≡ is_capacity capacity }
{
    1 <= capacity && capacity <= 1_000_000
}

fn has_table(tables: &[Table], name: &[u8]) -> bool
    ensures { result ≡ has_table tables.now name.now }
{
    tables
        .iter()
        .any(|table| same_name(table.name.as_slice(), name))
}

fn has_view(views: &[View], name: &[u8]) -> bool
    ensures { result ≡ has_view views.now name.now }
{
    views
        .iter()
        .any(|view| same_name(view.name.as_slice(), name))
}

/// Whether the database has anything with this name.
fn has_name(schema: &Schema, name: &[u8]) -> bool
    ensures { result ≡ has_name schema.now name.now }
{
    has_table(schema.tables.as_slice(), name) || has_view(schema.views.as_slice(), name)
}

/// Whether some of the tables exist.
fn has_some(schema: &Schema) -> bool
    ensures { result ≡ has_some schema.now }
{
    has_name(schema, b"layout")
        || has_name(schema, b"deposits")
        || has_name(schema, b"censuses")
        || has_name(schema, b"census_rows")
        || has_name(schema, b"census_flags")
}

/// The schema version of an archive.
#[derive(Clone, Copy)]
enum Version {
    /// Without a table of flags.
    First,
    /// With a table of flags.
    Second,
}

/// The first two rows of `layout`. A second row already shows that the database is not an archive.
fn versions<S: Alter>(conn: &mut Connection<S>) -> Result<Vec<Row>, Error>
    ensures same { (schema : SchemaValue) (own : List Value) → IsLayout schema own → IsTrue (tables_of (state S.Store conn.new)).is_healthy → (state S.Store conn.old).now.schema ≡ schema → (state S.Store conn.new).now ≡ (state S.Store conn.old).now }
    ensures tells { (schema : SchemaValue) (own versions : List Value) → IsLayout schema own → IsTrue (tables_of (state S.Store conn.new)).is_healthy → HaveVersions schema (tables_of (state S.Store conn.old)) versions → IfOk result (λ rows. (rows.items ≡ column_of own) ↔ (versions ≡ own)) }
    ensures up { HasCleanDisk (state S.Store conn.new) → OnOk result (IsTrue (state S.Store conn.new).is_open) }
    ensures clean { doubt (state S.Store conn.old).is_clean ≤ doubt (state S.Store conn.new).is_clean }
    ensures mode { conn.old.in_transaction ≡ false → conn.new.in_transaction ≡ false }
    ensures crash { CrashLeaves S.Store NothingNew conn.old.store conn.new.store }
{
    query(conn, "SELECT * FROM layout ORDER BY 1 LIMIT 2", &[])
}

/// Whether the table `layout` has one row, with version 1.
fn is_version_1(rows: &[Row]) -> bool
    ensures { IsTrue result ↔ (rows.now ≡ version_shown 1) }
{
    match rows {
        [row] => row.get_ref(1).is_err() && matches!(row.get_ref(0), Ok(ValueRef::Int(1))),
        _ => false,
    }
}

/// Whether the table `layout` has one row, with version 2.
fn is_version_2(rows: &[Row]) -> bool
    ensures { IsTrue result ↔ (rows.now ≡ version_shown 2) }
{
    match rows {
        [row] => row.get_ref(1).is_err() && matches!(row.get_ref(0), Ok(ValueRef::Int(2))),
        _ => false,
    }
}

/// The version that the tables have and `layout` names; if the two differ, `NotOurs`.
fn version_named(has_flags: bool, rows: &[Row]) -> Result<Version, OpenFault>
    ensures found { IfOk result (λ v. (v ≡ version_with has_flags) × (rows.now ≡ rows_of_version v)) }
    ensures named { rows.now ≡ rows_of_version (version_with has_flags) → result ≢ Err OpenFault.NotOurs }
    ensures fits { result ≢ Err OpenFault.BadCapacity }
{
    if has_flags {
        if is_version_2(rows) {
            return Ok(Version::Second);
        }
        return Err(OpenFault::NotOurs);
    }
    if is_version_1(rows) {
        return Ok(Version::First);
    }
    Err(OpenFault::NotOurs)
}

/// The version of a database that has some of the tables. Without `layout` it is `NotOurs`.
fn version_of<S: Alter>(conn: &mut Connection<S>) -> Result<Version, OpenFault>
    ensures same { OnOk result ((schema : SchemaValue) (own : List Value) → IsLayout schema own → IsTrue (tables_of (state S.Store conn.new)).is_healthy → (state S.Store conn.old).now.schema ≡ schema → (state S.Store conn.new).now ≡ (state S.Store conn.old).now) }
    ensures found { (schema : SchemaValue) (own versions : List Value) → IsLayout schema own → IsTrue (tables_of (state S.Store conn.new)).is_healthy → HaveVersions schema (tables_of (state S.Store conn.old)) versions → IfOk result (λ v. (versions ≡ own) × (schema ≡ schema_of v)) }
    ensures ours { (schema : SchemaValue) (own : List Value) → IsLayout schema own → IsTrue (tables_of (state S.Store conn.new)).is_healthy → HaveVersions schema (tables_of (state S.Store conn.old)) own → result ≢ Err OpenFault.NotOurs }
    ensures fits { result ≢ Err OpenFault.BadCapacity }
    ensures up { HasCleanDisk (state S.Store conn.new) → OnOk result (IsTrue (state S.Store conn.new).is_open) }
    ensures clean { doubt (state S.Store conn.old).is_clean ≤ doubt (state S.Store conn.new).is_clean }
    ensures mode { conn.old.in_transaction ≡ false → conn.new.in_transaction ≡ false }
    ensures crash { CrashLeaves S.Store NothingNew conn.old.store conn.new.store }
    ensures still { HasCleanDisk (state S.Store conn.new) → result ≡ Err OpenFault.NotOurs → IsTrue (state S.Store conn.old).is_open → IsTrue (state S.Store conn.new).is_open }
{
    if !has_table(conn.schema().tables.as_slice(), b"layout") {
        return Err(OpenFault::NotOurs);
    }
    let has_flags = has_table(conn.schema().tables.as_slice(), b"census_flags");
    match versions(conn) {
        Ok(rows) => version_named(has_flags, rows.as_slice()),
        Err(_) => Err(OpenFault::Unavailable),
    }
}

/// Checks that the database, which has some of the tables, is an archive, and migrates it from schema version 1.
fn check_or_migrate<S: Alter>(alloc: Global, conn: &mut Connection<S>) -> Result<(), OpenFault>
    ensures keeps { OnOk result (HoldsTheSame (tables_of (state S.Store conn.old)) (tables_of (state S.Store conn.new))) }
    ensures carries { OnOk result (Carries (tables_of (state S.Store conn.old)) (tables_of (state S.Store conn.new))) }
    ensures known { OnOk result ((schema : SchemaValue) (own versions : List Value) → IsLayout schema own → IsTrue (tables_of (state S.Store conn.new)).is_healthy → HaveVersions schema (tables_of (state S.Store conn.old)) versions → versions ≡ own) }
    ensures ours { (schema : SchemaValue) (own : List Value) → IsLayout schema own → IsTrue (tables_of (state S.Store conn.new)).is_healthy → HaveVersions schema (tables_of (state S.Store conn.old)) own → result ≢ Err OpenFault.NotOurs }
    ensures fits { result ≢ Err OpenFault.BadCapacity }
    ensures up { HasCleanDisk (state S.Store conn.new) → OnOk result (IsTrue (state S.Store conn.new).is_open) }
    ensures clean { doubt (state S.Store conn.old).is_clean ≤ doubt (state S.Store conn.new).is_clean }
    ensures made { CrashLeaves S.Store (IsMadeOfOld (tables_of (state S.Store conn.old))) conn.old.store conn.new.store }
    ensures untouched { result ≡ Err OpenFault.NotOurs → CrashLeaves S.Store NothingNew conn.old.store conn.new.store }
    ensures still { HasCleanDisk (state S.Store conn.new) → result ≡ Err OpenFault.NotOurs → IsTrue (state S.Store conn.old).is_open → IsTrue (state S.Store conn.new).is_open }
{
    match version_of(conn) {
        Ok(Version::Second) => Ok(()),
        Ok(Version::First) => match migrate(alloc, conn) {
            Ok(()) => Ok(()),
            Err(_) => Err(OpenFault::Unavailable),
        },
        Err(fault) => Err(fault),
    }
}

/// Checks that the database is an archive and migrates it if necessary. If none of the tables exists, creates them.
fn prepare<S: Alter>(alloc: Global, conn: &mut Connection<S>) -> Result<(), OpenFault>
    ensures keeps { OnOk result (HoldsTheSame (tables_of (state S.Store conn.old)) (tables_of (state S.Store conn.new))) }
    ensures carries { OnOk result (Carries (tables_of (state S.Store conn.old)) (tables_of (state S.Store conn.new))) }
    ensures fresh { HasCleanDisk (state S.Store conn.new) → HasTables no_schema [] (state S.Store conn.old).now → OnOk result (IsTrue (tables_of (state S.Store conn.new)).is_healthy × Holds (tables_of (state S.Store conn.new)) nothing_kept) }
    ensures known { OnOk result ((schema : SchemaValue) (own versions : List Value) → IsLayout schema own → IsTrue (tables_of (state S.Store conn.new)).is_healthy → HaveVersions schema (tables_of (state S.Store conn.old)) versions → versions ≡ own) }
    ensures ours { (schema : SchemaValue) (own : List Value) → IsLayout schema own → IsTrue (tables_of (state S.Store conn.new)).is_healthy → HaveVersions schema (tables_of (state S.Store conn.old)) own → result ≢ Err OpenFault.NotOurs }
    ensures none { (state S.Store conn.old).now.schema ≡ no_schema → result ≢ Err OpenFault.NotOurs }
    ensures fits { result ≢ Err OpenFault.BadCapacity }
    ensures up { HasCleanDisk (state S.Store conn.new) → OnOk result (IsTrue (state S.Store conn.new).is_open) }
    ensures clean { doubt (state S.Store conn.old).is_clean ≤ doubt (state S.Store conn.new).is_clean }
    ensures made { CrashLeaves S.Store (IsMadeOf (tables_of (state S.Store conn.old))) conn.old.store conn.new.store }
    ensures untouched { result ≡ Err OpenFault.NotOurs → CrashLeaves S.Store NothingNew conn.old.store conn.new.store }
    ensures still { HasCleanDisk (state S.Store conn.new) → result ≡ Err OpenFault.NotOurs → IsTrue (state S.Store conn.old).is_open → IsTrue (state S.Store conn.new).is_open }
{
    if !conn.is_autocommit() {
        return Err(OpenFault::Unavailable);
    }
    if !has_some(conn.schema()) {
        return match create_tables(conn) {
            Ok(()) => Ok(()),
            Err(_) => Err(OpenFault::Unavailable),
        };
    }
    check_or_migrate(alloc, conn)
}

impl Archive<MemStore> {
    /// A new archive in memory, without deposits and censuses. The capacity is from 1 to 1,000,000.
    pub fn open_in_memory(alloc: Global, capacity: u64) -> Result<Archive<MemStore>, OpenFault>
        ensures opened { IfOk result (λ a. IsTrue a.tables.is_healthy × Holds a.tables nothing_kept × (a.capacity ≡ capacity)) }
        ensures bad { (result ≡ Err OpenFault.BadCapacity) ↔ (is_capacity capacity ≡ false) }
        ensures ours { result ≢ Err OpenFault.NotOurs }
    {
        if !is_capacity(capacity) {
            return Err(OpenFault::BadCapacity);
        }
        let Ok(mut conn) = Connection::open_in_memory(alloc) else {
            return Err(OpenFault::Unavailable);
        };
        match create_tables(&mut conn) {
            Ok(()) => Ok(Archive { conn, capacity }),
            Err(_) => Err(OpenFault::Unavailable),
        }
    }
}

/// The connection of the archive; if a transaction is open, only its store.
fn idle_connection<S: Alter + Drop>(archive: Archive<S>) -> Result<Connection<S>, S>
    ensures ok { IfOk result (λ conn. IsSettled (state S.Store conn) archive.tables) }
    ensures store { IfOk result (λ conn. conn.store ≡ archive.store) }
    ensures quiet { IfErr result (λ store. IsQuiet S.Store.view S.Store.faults S.Store.recovers S.Store.is_shielded archive.store store) }
    ensures numbered { IfErr result (λ store. IsClean (S.Store.view store) → IsTrue (S.Store.view store).is_numbered) }
    ensures sound { IfErr result (λ store. IsClean (S.Store.view store) → AreDatabases (S.Store.recovers store)) }
    ensures was_open { IfErr result (λ _. IsTrue archive.tables.is_healthy → IsTrue (S.Store.view archive.store).is_open) }
    // Includes the law of crashes, so that callers pass on the traits of the store only once.
    ensures crash { IsTrue archive.tables.is_healthy → (k : Kept) → Holds archive.tables k → (db : Trees) → S.Store.recovers archive.store db → TreesHold db k }
{
    archive.law_of_crashes();
    let conn = archive.into_connection();
    // Called only for its clause: the database obeys its schema.
    let _tables = conn.schema();
    if !conn.is_autocommit() {
        return Err(conn.into_store());
    }
    Ok(conn)
}

/// The store of the archive. A separate function, so that `into_files` passes on the traits of the store only once.
fn store_of<S: Alter + Drop>(archive: Archive<S>) -> S
    ensures numbered { IsClean (S.Store.view result) → IsTrue (S.Store.view result).is_numbered }
    ensures sound { IsClean (S.Store.view result) → AreDatabases (S.Store.recovers result) }
    ensures quiet { IsQuiet S.Store.view S.Store.faults S.Store.recovers S.Store.is_shielded archive.store result }
    ensures was_open { IsTrue archive.tables.is_healthy → IsTrue (S.Store.view archive.store).is_open }
    ensures crash { IsTrue archive.tables.is_healthy → (k : Kept) → Holds archive.tables k → (db : Trees) → S.Store.recovers archive.store db → TreesHold db k }
{
    archive.law_of_crashes();
    archive.into_connection().into_store()
}

/// Closes the connection as its `close_files` does, and returns its files, even if closing fails. It works on the store
/// itself, which makes the clause about a refused close stronger.
fn close<D: Disk + Drop>(conn: Connection<FileStore<D>>) -> Result<Files<D>, Files<D>>
    ensures usable { IfOk result (λ files. IsTrue (D.Disk.is_usable files.log) × IsTrue (D.Disk.is_usable files.db)) }
    ensures copied { IfOk result (λ files. AreClean D.Disk files.log files.db → IsCopied conn files) }
    ensures refused { IfErr result (AreReleased conn.store) }
{
    let mut store = conn.into_store();
    // Rolled back once more, because only this store's `rollback` has a clause about the log.
    store.rollback();
    match store.checkpoint() {
        Ok(()) => Ok(store.close()),
        Err(_) => Err(store.close()),
    }
}

/// Makes the connection an archive after creating or migrating its tables. A fault returns the connection if the
/// database is not an archive's, and otherwise only its store.
fn prepared_archive<S: Alter + Drop>(
    alloc: Global,
    conn: Connection<S>,
    capacity: u64,
) -> Result<Archive<S>, (OpenFault, Result<Connection<S>, S>)>
    ensures capacity { IfOk result (λ a. a.capacity ≡ capacity) }
    ensures healthy { IfOk result (IsHealthyIfClean S.Store) }
    ensures found { IfOk result (λ a. (k : Kept) → IsTrue a.tables.is_healthy → Holds (tables_of (state S.Store conn)) k → Holds a.tables k) }
    ensures carries { IfOk result (λ a. Carries (tables_of (state S.Store conn)) a.tables) }
    ensures fresh { IfOk result (λ a. IsTrue a.tables.is_healthy → HasTables no_schema [] (state S.Store conn).now → Holds a.tables nothing_kept) }
    ensures known { IfOk result (λ a. (schema : SchemaValue) (own versions : List Value) → IsLayout schema own → IsTrue a.tables.is_healthy → HaveVersions schema (tables_of (state S.Store conn)) versions → versions ≡ own) }
    ensures clean { IfOk result (λ a. IsTrue a.tables.is_healthy → HasCleanDisk (state S.Store conn)) }
    ensures fits { IfErr result (λ e. e.0 ≢ OpenFault.BadCapacity) }
    ensures none { (state S.Store conn).now.schema ≡ no_schema → IfErr result (λ e. e.0 ≢ OpenFault.NotOurs) }
    ensures others { IfErr result (λ e. IfErr e.1 (λ _. e.0 ≢ OpenFault.NotOurs)) }
    ensures untouched { IfErr result (λ e. IfOk e.1 (λ left. CrashLeaves S.Store NothingNew conn.store left.store)) }
    ensures still { IfErr result (λ e. IfOk e.1 (λ left. HasCleanDisk (state S.Store left) → IsTrue (state S.Store conn).is_open → IsTrue (state S.Store left).is_open)) }
    ensures made { IfErr result (λ e. IfErr e.1 (CrashLeaves S.Store (IsMadeOf (tables_of (state S.Store conn))) conn.store)) }
    ensures numbered { IfErr result (λ e. IfErr e.1 (λ store. IsClean (S.Store.view store) → IsTrue (S.Store.view store).is_numbered)) }
    ensures sound { IfErr result (λ e. IfErr e.1 (λ store. IsClean (S.Store.view store) → AreDatabases (S.Store.recovers store))) }
    ensures ours { IfErr result (λ e. IfOk e.1 (λ left. HasCleanDisk (state S.Store left) → IsTrue (state S.Store left).is_open → HasCleanDisk (state S.Store conn) × ((schema : SchemaValue) (own : List Value) → IsLayout schema own → HaveVersions schema (tables_of (state S.Store conn)) own → ⊥))) }
{
    let mut conn = conn;
    match prepare(alloc, &mut conn) {
        Ok(()) => Ok(Archive { conn, capacity }),
        Err(OpenFault::NotOurs) => Err((OpenFault::NotOurs, Ok(conn))),
        Err(fault) => Err((fault, Err(conn.into_store()))),
    }
}

/// Makes the connection an archive after creating or migrating its tables. A fault returns the files. Those of a
/// database that is not an archive's are closed first, as in `close_files`; others are returned without IO.
fn archive_over<D: Disk + Drop>(
    alloc: Global,
    conn: Connection<FileStore<D>>,
    capacity: u64,
) -> Result<Archive<FileStore<D>>, (OpenFault, Files<D>)>
    ensures capacity { IfOk result (λ a. a.capacity ≡ capacity) }
    ensures healthy { IfOk result (IsHealthyIfClean over_files) }
    ensures found { IfOk result (λ a. (k : Kept) → IsTrue a.tables.is_healthy → Holds (tables_of (file_state conn)) k → Holds a.tables k) }
    ensures carries { IfOk result (λ a. Carries (tables_of (file_state conn)) a.tables) }
    ensures fresh { IfOk result (λ a. IsTrue a.tables.is_healthy → HasTables no_schema [] (file_state conn).now → Holds a.tables nothing_kept) }
    ensures fits { IfErr result (λ e. e.0 ≢ OpenFault.BadCapacity) }
    ensures known { IfOk result (λ a. (schema : SchemaValue) (own versions : List Value) → IsLayout schema own → IsTrue a.tables.is_healthy → HaveVersions schema (tables_of (file_state conn)) versions → versions ≡ own) }
    ensures ours { IfErr result (λ e. AreClean D.Disk e.1.log e.1.db → e.0 ≡ OpenFault.NotOurs → HasCleanDisk (file_state conn) × ((schema : SchemaValue) (own : List Value) → IsLayout schema own → HaveVersions schema (tables_of (file_state conn)) own → ⊥)) }
    ensures none { (file_state conn).now.schema ≡ no_schema → IfErr result (λ e. e.0 ≢ OpenFault.NotOurs) }
    ensures clean { IfOk result (λ a. IsTrue a.tables.is_healthy → HasCleanDisk (file_state conn)) }
    ensures made { IfErr result (λ e. AreClean D.Disk e.1.log e.1.db → HasCleanDisk (file_state conn) × (IsTrue (file_state conn).is_open → AreLeftMade (tables_of (file_state conn)) conn.store e.1)) }
{
    match prepared_archive(alloc, conn, capacity) {
        Ok(archive) => Ok(archive),
        Err((fault, Err(store))) => Err((fault, store.close())),
        Err((fault, Ok(left))) => match close(left) {
            Ok(files) => Err((fault, files)),
            Err(files) => Err((OpenFault::Unavailable, files)),
        },
    }
}

impl<D: Disk + Drop> Archive<FileStore<D>> {
    /// Opens the archive in the files, or creates one if they have none of its tables. An archive of schema version 1
    /// is migrated in one transaction, which gives each census its flag. If that fails, it is `Unavailable`, and the
    /// files hold the old archive or the migrated one. The capacity may differ from the one before. A refused opening
    /// returns the files: with `BadCapacity` unchanged, with `NotOurs` closed.
    pub fn open_files(
        alloc: Global,
        files: Files<D>,
        capacity: u64,
    ) -> Result<Archive<FileStore<D>>, (OpenFault, Files<D>)>
        requires log { IsTrue (D.Disk.is_usable files.log) }
        requires db { IsTrue (D.Disk.is_usable files.db) }
        ensures capacity { IfOk result (λ a. (a.capacity ≡ capacity) × IsTrue (is_capacity capacity)) }
        ensures healthy { IfOk result (IsHealthyIfClean over_files) }
        ensures found { IfOk result (λ a. (k : Kept) → IsTrue a.tables.is_healthy → FilesHold (image_of D.Disk files) k → Holds a.tables k) }
        ensures migrated { IfOk result (λ a. (k : Kept) → IsTrue a.tables.is_healthy → FilesHoldFirst (image_of D.Disk files) k → Migrated a.tables k) }
        ensures fresh { IfOk result (λ a. IsTrue a.tables.is_healthy → ListNothing (image_of D.Disk files) → Holds a.tables nothing_kept) }
        ensures honest { IfOk result (λ a. IsTrue a.tables.is_healthy → AreClean D.Disk files.log files.db) }
        ensures known { IfOk result (λ a. (schema : SchemaValue) (own versions : List Value) → IsLayout schema own → IsTrue a.tables.is_healthy → FilesHaveVersions schema (image_of D.Disk files) versions → versions ≡ own) }
        ensures bad { IfErr result (λ e. (e.0 ≡ OpenFault.BadCapacity) ↔ (is_capacity capacity ≡ false)) }
        ensures back { IfErr result (λ e. e.0 ≡ OpenFault.BadCapacity → e.1 ≡ files) }
        ensures ours { IfErr result (λ e. (k : Kept) → AreClean D.Disk e.1.log e.1.db → FilesHold (image_of D.Disk files) k → e.0 ≢ OpenFault.NotOurs) }
        ensures versions { IfErr result (λ e. (schema : SchemaValue) (own : List Value) → IsLayout schema own → AreClean D.Disk e.1.log e.1.db → FilesHaveVersions schema (image_of D.Disk files) own → e.0 ≢ OpenFault.NotOurs) }
        ensures none { IfErr result (λ e. AreClean D.Disk e.1.log e.1.db → ListNothing (image_of D.Disk files) → e.0 ≢ OpenFault.NotOurs) }
        ensures clean { IfErr result (λ e. AreClean D.Disk e.1.log e.1.db → e.0 ≡ OpenFault.NotOurs → AreClean D.Disk files.log files.db) }
        // A refusal loses nothing: a crash after it leaves the old contents, or the migrated ones.
        ensures unharmed { IfErr result (λ e. AreUnharmed D.Disk files e.1) }
    {
        if !is_capacity(capacity) {
            return Err((OpenFault::BadCapacity, files));
        }
        match Connection::open_files_with(alloc, files, Options::new(SEED), WITH_CHECKSUMS) {
            Ok(conn) => archive_over(alloc, conn, capacity),
            Err((_, left)) => Err((OpenFault::Unavailable, left.into_files())),
        }
    }

    /// Closes the archive and returns its files, even if closing fails. Once closed, the database file holds the
    /// complete archive, with or without its log.
    pub fn close_files(self) -> Result<Files<D>, (Unavailable, Files<D>)>
        ensures usable { IfOk result (λ files. IsTrue (D.Disk.is_usable files.log) × IsTrue (D.Disk.is_usable files.db)) }
        ensures held { IfOk result (λ files. (k : Kept) → AreClean D.Disk files.log files.db → Holds self.tables k → FilesHold (image_of D.Disk files) k) }
        ensures alone { IfOk result (λ files. (k : Kept) → AreClean D.Disk files.log files.db → Holds self.tables k → FilesHold (without_log (image_of D.Disk files)) k) }
        // Each image that a crash may leave after the close holds the archive too. If the disk returned everything as
        // it was written, the archive was healthy to the end.
        ensures left { IfOk result (λ files. (k : Kept) → AreClean D.Disk files.log files.db → Holds self.tables k → LeftHold D.Disk files k) }
        ensures healthy { IfOk result (λ files. AreClean D.Disk files.log files.db → IsTrue self.tables.is_healthy) }
        // After a refused close, a crash has no new outcome. Unless a call of the disk failed in the close, it leaves
        // the archive's contents.
        ensures refused { IfErr result (λ e. AreReleased self.store e.1) }
        ensures kept { IfErr result (λ e. (k : Kept) → IsTrue self.tables.is_healthy → Holds self.tables k → AreClean D.Disk e.1.log e.1.db → LeftHold D.Disk e.1 k ⊎ HaveFailedSince self.store e.1) }
    {
        match idle_connection(self) {
            Ok(conn) => match close(conn) {
                Ok(files) => Ok(files),
                Err(files) => Err((Unavailable, files)),
            },
            Err(store) => Err((Unavailable, store.close())),
        }
    }

    /// Returns the files without any IO, as a crash at this moment would leave them. Uncommitted changes are lost, and
    /// the log is not copied into the database file. The next opening finds the archive in the two files together.
    pub fn into_files(self) -> Files<D>
        ensures honest { AreClean D.Disk result.log result.db → IsClean (view self.store) }
        ensures left { AreLeftOf self.store result }
        ensures held { (k : Kept) → IsTrue self.tables.is_healthy → Holds self.tables k → AreClean D.Disk result.log result.db → LeftHold D.Disk result k }
    {
        store_of(self).close()
    }
}

impl<D: Disk + Drop> Archive<FileStore<D>> {
    /// Closes the archive and opens its files again, with another capacity and the same contents. If the close or the
    /// opening is refused, the files are returned. An archive is never refused with `NotOurs`.
    pub fn reopen(
        self,
        alloc: Global,
        capacity: u64,
    ) -> Result<Archive<FileStore<D>>, (OpenFault, Files<D>)>
        ensures capacity { IfOk result (λ a. (a.capacity ≡ capacity) × IsTrue (is_capacity capacity)) }
        ensures healthy { IfOk result (IsHealthyIfClean over_files) }
        ensures found { IfOk result (λ a. (k : Kept) → IsTrue a.tables.is_healthy → Holds self.tables k → Holds a.tables k) }
        ensures bad { IfErr result (λ e. e.0 ≡ OpenFault.BadCapacity → is_capacity capacity ≡ false) }
        ensures ours { IfErr result (λ e. (k : Kept) → AreClean D.Disk e.1.log e.1.db → Holds self.tables k → e.0 ≢ OpenFault.NotOurs) }
    {
        match self.close_files() {
            Ok(files) => Archive::open_files(alloc, files, capacity),
            Err((_, files)) => Err((OpenFault::Unavailable, files)),
        }
    }
}

/// Removes the log that an opening made and left without a commit. The caller still holds the files: they are locked,
/// so no other opening can use the log.
fn remove_unmade(rt: &HostRuntime, unmade: Option<String>) {
    if let Some(name) = unmade {
        remove_blank(rt, name.as_str());
    }
}

impl<T: Start> Archive<FileStore<FileFrom<T>>> {
    /// Opens the archive in the file at the path and its log, or creates one if they have none of its tables. An
    /// archive of schema version 1 is migrated, as in `open_files`. `start` states the assumed contents of the two
    /// files: `sqlite::Unknown` assumes nothing about files that are not empty. A refused opening returns the files, if
    /// they were opened. If it made a log for an existing file and committed nothing, it removes that log.
    pub fn open_path(
        rt: &HostRuntime,
        path: &str,
        capacity: u64,
        start: T,
    ) -> Result<Archive<FileStore<FileFrom<T>>>, (OpenFault, Option<Files<FileFrom<T>>>)>
        ensures capacity { IfOk result (λ a. (a.capacity ≡ capacity) × IsTrue (is_capacity capacity)) }
        ensures healthy { IfOk result (IsHealthyIfClean over_files) }
        ensures found { IfOk result (λ a. (k : Kept) → IsTrue a.tables.is_healthy → FilesHold (image_at T.Start) k → Holds a.tables k) }
        ensures migrated { IfOk result (λ a. (k : Kept) → IsTrue a.tables.is_healthy → FilesHoldFirst (image_at T.Start) k → Migrated a.tables k) }
        ensures fresh { IfOk result (λ a. IsTrue a.tables.is_healthy → ListNothing (image_at T.Start) → Holds a.tables nothing_kept) }
        ensures known { IfOk result (λ a. (schema : SchemaValue) (own versions : List Value) → IsLayout schema own → IsTrue a.tables.is_healthy → FilesHaveVersions schema (image_at T.Start) versions → versions ≡ own) }
        ensures bad { IfErr result (λ e. (e.0 ≡ OpenFault.BadCapacity) ↔ (is_capacity capacity ≡ false)) }
        ensures ours { IfErr result (λ e. e.0 ≡ OpenFault.NotOurs → AreRefusedAs ⟦<FileFrom<T> as Disk>⟧ (image_at T.Start) e.1) }
    {
        if !is_capacity(capacity) {
            return Err((OpenFault::BadCapacity, None));
        }
        let unmade = missing_log(rt, path);
        match Connection::open_from(rt, path, WITH_CHECKSUMS, start) {
            Ok(conn) => match archive_over(rt.alloc(), conn, capacity) {
                Ok(archive) => Ok(archive),
                Err((fault, files)) => {
                    remove_unmade(rt, unmade);
                    Err((fault, Some(files)))
                }
            },
            Err((_, Some(left))) => {
                let files = left.into_files();
                remove_unmade(rt, unmade);
                Err((OpenFault::Unavailable, Some(files)))
            }
            Err((_, None)) => Err((OpenFault::Unavailable, None)),
        }
    }
}
