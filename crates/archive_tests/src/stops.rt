//! A stop at each call on a file: while a deposit and a census are stored, and while an archive of schema version 1 is migrated.
use crate::archive_file_tests::{
    Outcome, Stoppable, Stopping, blank, made_by, over, schema_of, stopping, survives_each_stop,
};
use crate::requests::{Asked, FIELD, FIELD_SHOWN, Row, Said};
use life_store::Unavailable;
use sqlite::Files;
use sqlite_disk::{Disk, Memory};
use std::alloc::Global;

/// An archive of schema version 1: two blocks at distance 3 (`2o2b2o$2o2b2o!`) and two blinkers whose phases touch
/// (`o2bo$o2bo$o2bo!`), each with a census of generation 0. Their files are in hexadecimal digits.
const FIRST: [&str; 11] = [
    "CREATE TABLE layout (version INTEGER NOT NULL) STRICT",
    "CREATE TABLE deposits (id INTEGER PRIMARY KEY, member TEXT NOT NULL, token TEXT NOT NULL, rule TEXT NOT NULL, population INTEGER NOT NULL CHECK (population >= 0), rle BLOB NOT NULL, UNIQUE (member, token)) STRICT",
    "CREATE TABLE censuses (id INTEGER PRIMARY KEY, member TEXT NOT NULL, token TEXT NOT NULL, deposit INTEGER NOT NULL REFERENCES deposits (id), gens INTEGER NOT NULL, lim INTEGER NOT NULL, clusters INTEGER NOT NULL, unresolved INTEGER NOT NULL, UNIQUE (member, token)) STRICT",
    "CREATE TABLE census_rows (census INTEGER NOT NULL REFERENCES censuses (id), code TEXT NOT NULL, n INTEGER NOT NULL CHECK (n > 0), PRIMARY KEY (census, code)) STRICT",
    "INSERT INTO layout (version) VALUES (1)",
    "INSERT INTO deposits (id, member, token, rule, population, rle) VALUES (1, 'ann', 't1', 'B3/S23', 8, X'78203D20362C2079203D20322C2072756C65203D2042332F5332330A326F3262326F24326F3262326F210A')",
    "INSERT INTO deposits (id, member, token, rule, population, rle) VALUES (2, 'ann', 't2', 'B3/S23', 6, X'78203D20342C2079203D20332C2072756C65203D2042332F5332330A6F32626F246F32626F246F32626F210A')",
    "INSERT INTO censuses (id, member, token, deposit, gens, lim, clusters, unresolved) VALUES (1, 'ann', 'c1', 1, 0, 1, 2, 0)",
    "INSERT INTO censuses (id, member, token, deposit, gens, lim, clusters, unresolved) VALUES (2, 'ann', 'c2', 2, 0, 2, 2, 0)",
    "INSERT INTO census_rows (census, code, n) VALUES (1, 'xs4_33', 2)",
    "INSERT INTO census_rows (census, code, n) VALUES (2, 'xp2_7', 2)",
];

/// A copy of a file's contents, which doesn't stop.
fn copied(alloc: Global, file: &Stopping) -> Result<Memory, Unavailable> {
    let mut copy = Memory::new(alloc);
    if copy.write_at(0, file.inner().bytes()).is_err() || copy.sync().is_err() {
        return Err(Unavailable);
    }
    Ok(copy)
}

/// Copies of the files, which stop after this many calls.
pub fn again(
    alloc: Global,
    files: &Files<Stopping>,
    log_calls: u64,
    db_calls: u64,
) -> Option<Files<Stopping>> {
    match (copied(alloc, &files.log), copied(alloc, &files.db)) {
        (Ok(log), Ok(db)) => Some(stopping(log, log_calls, db, db_calls)),
        _ => None,
    }
}

/// The second deposit of the archive of schema version 1.
const BLINKERS_SHOWN: &str = "x = 4, y = 3, rule = B3/S23\no2bo$o2bo$o2bo!\n";

const DEPOSIT: Row = (Asked::Deposit("ann", "t1", FIELD), Said::Deposited(1));

const CENSUS: Row = (Asked::Census("c1", 1, 0, 1), Said::Counted(1));

const SHOWN: Row = (Asked::ShowCensus(1), Said::Census(1, true, "xs4_33"));

/// The replies of a new archive after a deposit and a census. If the census got no reply, the first row is left out; if
/// the deposit got none either, the first two. In each case both requests are sent again, and each is stored once.
const KEPT: [Row; 8] = [
    SHOWN,
    (Asked::Show(1), Said::File(FIELD_SHOWN)),
    DEPOSIT,
    CENSUS,
    SHOWN,
    (Asked::Show(1), Said::File(FIELD_SHOWN)),
    (Asked::ListAfter(0), Said::Deposits(&[(1, 8)])),
    (Asked::ShowCensus(2), Said::Refused(2)),
];

/// The replies of an archive of schema version 1 after its migration: it has the same deposits and censuses, with
/// flags.
const CARRIED: [Row; 6] = [
    (Asked::ListAfter(0), Said::Deposits(&[(1, 8), (2, 6)])),
    (Asked::Show(1), Said::File(FIELD_SHOWN)),
    (Asked::Show(2), Said::File(BLINKERS_SHOWN)),
    SHOWN,
    (Asked::ShowCensus(2), Said::Census(2, false, "xp2_7")),
    (Asked::ShowCensus(3), Said::Refused(2)),
];

/// Requests to an archive whose files stop.
#[derive(Clone, Copy)]
struct Run {
    /// Whether the archive has schema version 1, so that opening migrates it. Otherwise it is a new one.
    migrates: bool,
    /// The requests before the stop, and their replies.
    asked: &'static [Row],
    /// The requests after the stop, and their replies. For each request without a reply, one of the first rows is left
    /// out.
    stored_after: &'static [Row],
}

/// A deposit and a census in a new archive.
const KEEPING: Run = Run {
    migrates: false,
    asked: &[DEPOSIT, CENSUS],
    stored_after: &KEPT,
};

/// The opening of an archive of schema version 1.
const CARRYING: Run = Run {
    migrates: true,
    asked: &[],
    stored_after: &CARRIED,
};

/// The files that a run begins with, which stop after this many calls.
fn begun(alloc: Global, migrates: bool, log_calls: u64, db_calls: u64) -> Option<Files<Stopping>> {
    if !migrates {
        return Some(blank(alloc, log_calls, db_calls));
    }
    match made_by(alloc, FIRST.as_slice()) {
        Some(files) => again(alloc, &files, log_calls, db_calls),
        None => None,
    }
}

/// How many requests got no reply before the stop.
fn unanswered(asked: usize, outcome: Outcome) -> usize {
    match outcome {
        Ok(None) => 0,
        Ok(Some(at)) => asked.saturating_sub(at),
        Err(_) => asked,
    }
}

/// The rows that have to hold after a run with this result.
fn rows_behind(run: Run, outcome: Outcome) -> &'static [Row] {
    let from = unanswered(run.asked.len(), outcome).min(run.stored_after.len());
    &run.stored_after[from..]
}

/// The files after an archive gave the expected replies to the rows; `None` if it did not.
fn answers(alloc: Global, files: Files<Stopping>, rows: &[Row]) -> Option<Files<Stopping>> {
    match over(alloc, files, 2, rows) {
        (Ok(None), files) => Some(files),
        _ => None,
    }
}

/// Whether an archive over the files gives the expected replies, and gives them again after it is closed and opened.
fn answers_twice(alloc: Global, files: Files<Stopping>, rows: &[Row]) -> bool {
    match answers(alloc, files, rows) {
        Some(files) => answers(alloc, files, rows).is_some(),
        None => false,
    }
}

/// Whether a copy of the files that never stops is an archive with the expected replies.
fn is_sound(alloc: Global, files: &Files<Stopping>, rows: &[Row]) -> bool {
    match again(alloc, files, u64::MAX, u64::MAX) {
        Some(copy) => answers_twice(alloc, copy, rows),
        None => false,
    }
}

/// Whether the files have version 1 without a table of flags, or version 2 with the flags of both censuses. They are
/// checked before another opening could migrate them.
fn is_one_version(alloc: Global, files: &Files<Stopping>) -> bool {
    match again(alloc, files, u64::MAX, u64::MAX) {
        Some(copy) => matches!(schema_of(alloc, copy), (Some(1), None) | (Some(2), Some(2))),
        None => false,
    }
}

impl Stoppable for Run {
    fn stop_at(self, alloc: Global, log_calls: u64, db_calls: u64) -> Option<(bool, bool)> {
        let files = begun(alloc, self.migrates, log_calls, db_calls)?;
        let (outcome, files) = over(alloc, files, 2, self.asked);
        let is_whole = !self.migrates || is_one_version(alloc, &files);
        let is_sound = is_sound(alloc, &files, rows_behind(self, outcome));
        Some((outcome == Ok(None), is_whole && is_sound))
    }
}

#[test]
fn a_stop_loses_nothing(rt: HostRuntime) {
    assert!(rt; survives_each_stop(rt.alloc(), KEEPING, true), "the log");
    assert!(rt;
        survives_each_stop(rt.alloc(), KEEPING, false),
        "the database"
    );
}

#[test]
fn a_stop_leaves_layout_1_or_2(rt: HostRuntime) {
    assert!(rt; survives_each_stop(rt.alloc(), CARRYING, true), "the log");
    assert!(rt;
        survives_each_stop(rt.alloc(), CARRYING, false),
        "the database"
    );
}
