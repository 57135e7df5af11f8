//! An archive in files: opening it, sending requests, closing it and opening it again. Also helpers for tests with
//! stops.
//!
//! Calls on a store of files take long to prove, so each function here makes only a few, returns the files on every
//! path, and drops no store. All files have one type, which stops after some calls, or never.
use crate::requests::{Asked, BLOCK, BLOCK_SHOWN, GLIDER, GLIDER_SHOWN, Row, Said, other};
use life_store::{Archive, OpenFault};
use sqlite::{Alter, Connection, FileStore, Files, Options};
use sqlite_disk::{Disk, Fuse, Memory};
use std::alloc::Global;
use std::test::Fail;

/// A file that stops after some calls.
pub type Stopping = Fuse<Memory>;

/// The first row whose reply differs, or the fault of the opening. A failed close counts as the row after the last.
pub type Outcome = Result<Option<usize>, OpenFault>;

/// Two files with these contents, which stop after this many calls.
pub fn stopping(log: Memory, log_calls: u64, db: Memory, db_calls: u64) -> Files<Stopping> {
    Files {
        log: Fuse::new(log, log_calls),
        db: Fuse::new(db, db_calls),
    }
}

/// Two empty files, which stop after this many calls.
pub fn blank(alloc: Global, log_calls: u64, db_calls: u64) -> Files<Stopping> {
    stopping(Memory::new(alloc), log_calls, Memory::new(alloc), db_calls)
}

/// Sends the rows to an opened archive and closes it. Returns the result and the files.
fn closed<D: Disk + Drop>(
    alloc: Global,
    opened: Result<Archive<FileStore<D>>, (OpenFault, Files<D>)>,
    rows: &[Row],
) -> (Outcome, Files<D>) {
    match opened {
        Ok(mut archive) => {
            let other = other(alloc, &mut archive, rows);
            match archive.close_files() {
                Ok(files) => (Ok(other), files),
                Err((_, files)) => (Ok(Some(other.unwrap_or(rows.len()))), files),
            }
        }
        Err((fault, files)) => (Err(fault), files),
    }
}

/// Opens an archive over files of any type, sends the rows, and closes it.
fn over_any<D: Disk + Drop>(
    alloc: Global,
    files: Files<D>,
    capacity: u64,
    rows: &[Row],
) -> (Outcome, Files<D>) {
    if !files.may_be_used() {
        return (Err(OpenFault::Unavailable), files);
    }
    closed(alloc, Archive::open_files(alloc, files, capacity), rows)
}

/// Opens an archive over the files, sends the rows, and closes it. The files are always returned.
pub fn over(
    alloc: Global,
    files: Files<Stopping>,
    capacity: u64,
    rows: &[Row],
) -> (Outcome, Files<Stopping>) {
    over_any(alloc, files, capacity, rows)
}

/// The same for an archive that is opened with capacity 2 and reopened with capacity 3 before the rows.
fn over_again<D: Disk + Drop>(alloc: Global, files: Files<D>, rows: &[Row]) -> (Outcome, Files<D>) {
    if !files.may_be_used() {
        return (Err(OpenFault::Unavailable), files);
    }
    match Archive::open_files(alloc, files, 2) {
        Ok(archive) => closed(alloc, archive.reopen(alloc, 3), rows),
        Err((fault, files)) => (Err(fault), files),
    }
}

/// An action on files that stop after this many calls.
pub trait Stoppable: Copy {
    /// Whether the action finished without a stop, and whether the files are right afterwards. `None` if the test
    /// failed.
    fn stop_at(self, alloc: Global, log_calls: u64, db_calls: u64) -> Option<(bool, bool)>;
}

/// Whether the files are right after a stop at each call on the log, or on the database file. It runs the action with
/// later and later stops until one finishes.
pub fn survives_each_stop<T: Stoppable>(alloc: Global, run: T, is_log: bool) -> bool {
    for calls in 0..1000u64 {
        let (log_calls, db_calls) = if is_log {
            (calls, u64::MAX)
        } else {
            (u64::MAX, calls)
        };
        match run.stop_at(alloc, log_calls, db_calls) {
            Some((true, true)) => return calls > 0,
            Some((false, true)) => {}
            _ => return false,
        }
    }
    false
}

/// With capacity 2, the glider and the block become deposits 1 and 2, and a third deposit is refused.
const KEEPS_TWO: [Row; 3] = [
    (Asked::Deposit("ann", "t1", GLIDER), Said::Deposited(1)),
    (Asked::Deposit("ann", "t2", BLOCK), Said::Deposited(2)),
    (Asked::Deposit("ann", "t3", BLOCK), Said::Refused(10)),
];

/// With capacity 1, both are still stored, and a new deposit is refused.
const HAS_TWO: [Row; 4] = [
    (Asked::Deposit("ann", "t1", GLIDER), Said::Deposited(1)),
    (Asked::Deposit("ann", "t4", GLIDER), Said::Refused(10)),
    (Asked::Show(1), Said::File(GLIDER_SHOWN)),
    (Asked::Show(2), Said::File(BLOCK_SHOWN)),
];

/// With capacity 3, one more deposit is accepted.
const KEEPS_A_THIRD: [Row; 3] = [
    (Asked::Show(2), Said::File(BLOCK_SHOWN)),
    (Asked::Deposit("ann", "t4", GLIDER), Said::Deposited(3)),
    (Asked::Deposit("ann", "t5", GLIDER), Said::Refused(10)),
];

/// The results of opening the same files several times. An archive stores two deposits. It is then opened with two
/// invalid capacities, with capacity 1, and after a reopening with capacity 3.
fn outcomes(alloc: Global) -> [Outcome; 5] {
    let files = blank(alloc, u64::MAX, u64::MAX);
    let (first, files) = over(alloc, files, 2, KEEPS_TWO.as_slice());
    let (none, files) = over(alloc, files, 0, &[]);
    let (above, files) = over(alloc, files, 1_000_001, &[]);
    let (less, files) = over(alloc, files, 1, HAS_TWO.as_slice());
    let (more, _) = over_again(alloc, files, KEEPS_A_THIRD.as_slice());
    [first, none, above, less, more]
}

#[test]
fn files_are_opened_with_other_capacities(rt: HostRuntime) -> Result<(), Fail> {
    let bad = Err(OpenFault::BadCapacity);
    assert!(rt; outcomes(rt.alloc()) == [Ok(None), bad, bad, Ok(None), Ok(None)]);
    Ok(())
}

/// Whether all statements succeeded.
fn runs<S: Alter>(conn: &mut Connection<S>, statements: &[&str]) -> bool {
    for statement in statements {
        if conn.execute(statement, &[]).is_err() {
            return false;
        }
    }
    true
}

/// Runs these statements in the database of the files. Returns whether they and the close succeeded, and the files.
fn run_over<D: Disk + Drop>(
    alloc: Global,
    files: Files<D>,
    statements: &[&str],
) -> (bool, Files<D>) {
    if !files.may_be_used() {
        return (false, files);
    }
    match Connection::open_files(alloc, files, Options::new(7)) {
        Ok(mut conn) => {
            let all = runs(&mut conn, statements);
            match conn.close_files() {
                Ok(files) => (all, files),
                Err((_, store)) => (false, store.close()),
            }
        }
        Err((_, left)) => (false, left.into_files()),
    }
}

/// The files of a new database after these statements, if all of them succeeded.
pub fn made_by(alloc: Global, statements: &[&str]) -> Option<Files<Stopping>> {
    match run_over(alloc, blank(alloc, u64::MAX, u64::MAX), statements) {
        (true, files) => Some(files),
        _ => None,
    }
}

/// The schema version of a database, and the number of its census flags, if it has the table.
pub type Schema = (Option<i64>, Option<i64>);

/// The number in the first column of a query's first row, if any.
fn number<S: Alter>(conn: &mut Connection<S>, query: &str) -> Option<i64> {
    match conn.query_row(query, &[]) {
        Ok(row) => row.get(0).ok(),
        Err(_) => None,
    }
}

/// The schema of an open database.
fn schema<S: Alter>(conn: &mut Connection<S>) -> Schema {
    let version = number(conn, "SELECT version FROM layout");
    (version, number(conn, "SELECT count(*) FROM census_flags"))
}

/// The schema of the database of the files. It is opened below `Archive`, which would migrate it.
fn schema_over<D: Disk + Drop>(alloc: Global, files: Files<D>) -> (Schema, Files<D>) {
    if !files.may_be_used() {
        return ((None, None), files);
    }
    match Connection::open_files(alloc, files, Options::new(7)) {
        Ok(mut conn) => {
            let schema = schema(&mut conn);
            match conn.close_files() {
                Ok(files) => (schema, files),
                Err((_, store)) => (schema, store.close()),
            }
        }
        Err((_, left)) => ((None, None), left.into_files()),
    }
}

/// The schema of the database of the files.
pub fn schema_of(alloc: Global, files: Files<Stopping>) -> Schema {
    let (schema, _) = schema_over(alloc, files);
    schema
}
