//! Finding a reason why the file of an archive could not be used. A refused opening doesn't give one, so the file is
//! opened once more. This is tested, not proved.

use crate::archives::CAPACITY;
use life_store::Archive;
use sqlite::{Connection, Error, ErrorCode, Unknown};
use std::fs;
use std::io::{self, ErrorKind, Read};

/// The first 16 bytes of every SQLite database that is not empty.
const MAGIC: &[u8; 16] = b"SQLite format 3\0";

/// Why the system refused to read the file.
fn system_reason(error: &io::Error) -> &'static str {
    match error.kind() {
        ErrorKind::NotFound => "no such file",
        ErrorKind::PermissionDenied => "permission denied",
        _ => "it can't be read",
    }
}

/// Whether the file begins like a database.
fn is_database(rt: &HostRuntime, path: &str) -> io::Result<bool> {
    let mut file = fs::open(rt, path)?;
    let mut head = [0u8; 16];
    match file.read_exact(&mut head) {
        Ok(()) => Ok(head == *MAGIC),
        Err(error) if error.kind() == ErrorKind::UnexpectedEof => Ok(false),
        Err(error) => Err(error),
    }
}

/// The text for an error of the opening, if it has one.
fn opening_reason(error: Error) -> Option<&'static str> {
    match error {
        Error::SqliteFailure(ErrorCode::DatabaseBusy) => Some("another program has it open"),
        Error::SqliteFailure(ErrorCode::CannotOpen) => {
            Some("no right to write to it, or to its folder")
        }
        Error::SqliteFailure(ErrorCode::OutOfMemory) => Some("it needs more memory"),
        Error::SqliteFailure(ErrorCode::DiskFull) => Some("the disk is full"),
        Error::SqliteFailure(
            ErrorCode::DatabaseCorrupt | ErrorCode::NotADatabase | ErrorCode::SystemIoFailure,
        ) => Some(
            "damaged, cut short, or changed by another program; life-restore puts back the newest copy",
        ),
        _ => None,
    }
}

/// Whether the file opens as an archive. A log that this opening makes is removed again while the file is still locked.
fn opens(rt: &HostRuntime, path: &str) -> bool {
    match Archive::open_unprepared(rt, path, CAPACITY, Unknown) {
        Ok((_archive, made)) => {
            made.remove(rt);
            true
        }
        Err(_) => false,
    }
}

/// Why opening the file as a database fails, if it does. Unless there was a log before, one that this opening makes is
/// removed again while the file is still locked.
fn database_reason(rt: &HostRuntime, path: &str, log: &str, had_log: bool) -> Option<&'static str> {
    let opened = Connection::open_from(rt, path, true, Unknown);
    let holds_lock = !matches!(opened, Err((_, None)));
    if holds_lock && !had_log && fs::metadata(rt, log).is_ok_and(|made| made.len() == 0) {
        // If removing fails, the log stays empty, and the next opening uses it.
        let _removed = fs::remove_file(rt, log);
    }
    match opened {
        Ok(_) => None,
        Err((error, _)) => opening_reason(error),
    }
}

/// Why opening the file fails, if it does.
fn refused_opening(rt: &HostRuntime, path: &str) -> Option<&'static str> {
    if opens(rt, path) {
        return None;
    }
    let log = format!(in rt.alloc(); "{path}-wal").ok()?;
    let had_log = fs::exists(rt, log.as_str()).unwrap_or(true);
    database_reason(rt, path, log.as_str(), had_log)
}

/// Why the file could not be used, in a few words, if opening it again shows a reason. It is printed after an
/// unavailable job.
pub fn reason_of(rt: &HostRuntime, path: &str) -> Option<&'static str> {
    let found = match fs::metadata(rt, path) {
        Ok(found) => found,
        Err(error) => return Some(system_reason(&error)),
    };
    if found.is_dir() {
        return Some("a folder, not a file");
    }
    if found.len() == 0 {
        return Some("an empty file");
    }
    match is_database(rt, path) {
        Ok(true) => refused_opening(rt, path),
        Ok(false) => Some("not an SQLite database"),
        Err(error) => Some(system_reason(&error)),
    }
}
