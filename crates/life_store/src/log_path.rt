//! The log of a database file, by its name. Calls of the file system have no clauses here.

use std::{fs, io};

/// The most bytes of a log without a commit: `sqlite` leaves this much of a log that it has copied into its file.
const BLANK: u64 = 41;

/// The name of the log for an existing file, if there is no log yet.
pub(crate) fn missing_log(rt: &HostRuntime, path: &str) -> Option<String> {
    let Ok(real) = fs::canonicalize(rt, path) else {
        return None;
    };
    let Ok(name) = format!(in rt.alloc(); "{}-wal", real.as_str()) else {
        return None;
    };
    match fs::symlink_metadata(rt, name.as_str()) {
        Err(error) if error.kind() == io::ErrorKind::NotFound => Some(name),
        _ => None,
    }
}

/// Removes the named log if it has no commit. Only for a log that this process made, while it holds the database file.
pub(crate) fn remove_blank(rt: &HostRuntime, name: &str) {
    let Ok(found) = fs::symlink_metadata(rt, name) else {
        return;
    };
    if found.is_file() && found.len() <= BLANK {
        // If removing fails, the file stays and counts as an empty log.
        let _ = fs::remove_file(rt, name);
    }
}
