//! Opening a file to look at it: no table is created or migrated.

ghost use Rattle.std.specs.Prelude.{◌≡◌, IsTrue, IfOk};
ghost use Rattle.sqlite.specs.Files.{over_files};
ghost use Rattle.sqlite_wal.specs.Files.{image_at};
ghost use Rattle.life_store.specs.Kept.{Kept};
ghost use Rattle.life_store.specs.Opening.{FilesHold, ShowsFound};
ghost use Rattle.life_store.specs.Tables.{Holds, IsHealthyIfClean};

use crate::archive::Archive;
use crate::log_path::{missing_log, remove_blank};
use crate::opening::WITH_CHECKSUMS;
use sqlite::{Connection, FileFrom, FileStore, Files, Start};
use std::fs;

/// The name of the log that an opening may have made.
#[derive(Drop)]
pub struct MadeLog {
    name: Option<String>,
}

impl MadeLog {
    /// Removes that log if it has no commit. Call it while holding the files, so that no other opening can use the log.
    pub fn remove(&self, rt: &HostRuntime) {
        if let Some(name) = &self.name {
            remove_blank(rt, name.as_str());
        }
    }
}

/// Whether there is no file, or an empty one without a log. An opening would write a header into the empty one.
fn has_nothing(rt: &HostRuntime, path: &str) -> bool {
    match fs::metadata(rt, path) {
        Ok(found) => found.len() == 0 && missing_log(rt, path).is_some(),
        Err(_) => true,
    }
}

impl<T: Start> Archive<FileStore<FileFrom<T>>> {
    /// Opens the file at the path and its log, whether or not it is an archive, and leaves its tables unchanged.
    /// `start` is as for `open_path`. A file that does not exist, or is empty and has no log, is refused. A refused
    /// opening returns the files, if they were opened.
    pub fn open_unprepared(
        rt: &HostRuntime,
        path: &str,
        capacity: u64,
        start: T,
    ) -> Result<(Archive<FileStore<FileFrom<T>>>, MadeLog), Option<Files<FileFrom<T>>>>
        ensures capacity { IfOk result (λ found. found.0.capacity ≡ capacity) }
        ensures healthy { IfOk result (λ found. IsHealthyIfClean over_files found.0) }
        ensures found { IfOk result (λ found. (k : Kept) → IsTrue found.0.tables.is_healthy → FilesHold (image_at T.Start) k → Holds found.0.tables k) }
        // No table is created or migrated, whatever the files hold.
        ensures shows { IfOk result (λ found. IsTrue found.0.tables.is_healthy → ShowsFound (image_at T.Start) found.0) }
    {
        if has_nothing(rt, path) {
            return Err(None);
        }
        let made = MadeLog {
            name: missing_log(rt, path),
        };
        match Connection::open_from(rt, path, WITH_CHECKSUMS, start) {
            Ok(conn) => Ok((Archive { conn, capacity }, made)),
            Err((_, Some(left))) => {
                let files = left.into_files();
                made.remove(rt);
                Err(Some(files))
            }
            Err((_, None)) => Err(None),
        }
    }
}
